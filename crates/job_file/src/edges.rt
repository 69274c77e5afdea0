ghost use Rattle.std.specs.Prelude.{◌≡◌, ◌≢◌, pos, Ok, Err, IfOk, IfErr};
ghost use Rattle.toml.specs.View.{items_view, table_view, view};
ghost use Rattle.job_file.specs.Document.{all_of};
ghost use Rattle.job_file.specs.Edges.{edge_of, edge_in};

use crate::document::{has_only, table, text_at, whole_or};
use crate::fault::{FormFault, Part};
use crate::names::node_named;
use crate::numbers::nearest;
use flow_dag::Edge;
use jobs::NodeDef;
use std::alloc::Global;
use toml::{Table, Value as Toml};
use tuple_trace::Items;

/// The edges between these nodes.
pub(crate) fn read_edges(
    alloc: Global,
    nodes: &[NodeDef],
    items: &[Toml],
) -> Result<Items<Edge>, FormFault>
    ensures ok { IfOk result (λ edges. all_of (edge_of nodes.now) (items_view items.now)
        ≡ Ok edges) }
    ensures fault { IfErr result (λ fault. fault ≢ FormFault.NoMemory
        → all_of (edge_of nodes.now) (items_view items.now) ≡ Err fault) }
{
    let mut list = Items::new(alloc);
    for item in items {
        list.push(read_edge(nodes, item)?)?;
    }
    Ok(list)
}

fn read_edge(nodes: &[NodeDef], item: &Toml) -> Result<Edge, FormFault>
    ensures ok { IfOk result (λ edge. edge_of nodes.now (view item.now) ≡ Ok edge) }
    ensures fault { IfErr result (λ fault. edge_of nodes.now (view item.now) ≡ Err fault) }
{
    edge_from(nodes, table(item, Part::Edge)?)
}

fn edge_from(nodes: &[NodeDef], table: &Table) -> Result<Edge, FormFault>
    ensures ok { IfOk result (λ edge. edge_in nodes.now (table_view table.now) ≡ Ok edge) }
    ensures fault { IfErr result (λ fault. edge_in nodes.now (table_view table.now) ≡ Err fault) }
{
    if !has_only(table, &["from", "to", "port"], &[]) {
        return Err(FormFault::Shape(Part::Unknown));
    }
    let from = text_at(table, "from", Part::From)?;
    let to = text_at(table, "to", Part::To)?;
    let port = whole_or(table, "port", Part::Port, 0)?;
    if port < 0 {
        return Err(FormFault::Shape(Part::Port));
    }
    Ok(Edge {
        from: node_named(nodes, from.as_bytes()),
        port: nearest(port),
        to: node_named(nodes, to.as_bytes()),
    })
}
