ghost use Rattle.std.specs.Prelude.{◌≡◌, ◌≢◌, Ok, Err, IfOk, IfErr};
ghost use Rattle.toml.specs.View.{table_view};
ghost use Rattle.jobs.specs.JobView.{job_view_as};
ghost use Rattle.job_file.specs.Layout.{columns_in, edges_in, layout_of, nodes_in, tables_in};

use crate::columns::read_columns;
use crate::document::{has_only, items_at, items_or_none, member, table};
use crate::edges::read_edges;
use crate::fault::{FormFault, Part};
use crate::nodes::read_nodes;
use crate::tables::read_tables;
use flow_dag::Edge;
use jobs::{Column, ColumnDefs, NodeDef, NodeDefs, Table, Tables};
use std::alloc::Global;
use toml::Table as Members;
use tuple_trace::Items;

/// What a job file says, before it is known to be lawful.
#[derive(Drop)]
pub(crate) struct Layout {
    pub(crate) columns: ColumnDefs,
    pub(crate) nodes: NodeDefs,
    pub(crate) edges: Items<Edge>,
    pub(crate) tables: Tables,
}

/// Reads the table of a document as a job file.
#[tactic(auto, unfolding(crate::specs::Layout::layout_of))]
pub(crate) fn read_layout(alloc: Global, members: &Members) -> Result<Layout, FormFault>
    ensures ok { IfOk result (λ l. layout_of (table_view members.now)
        ≡ Ok (job_view_as l.columns l.nodes l.edges l.tables)) }
    ensures fault { IfErr result (λ fault. fault ≢ FormFault.NoMemory
        → layout_of (table_view members.now) ≡ Err fault) }
{
    if !has_only(members, &["columns", "tables", "node", "edge"], &[]) {
        return Err(FormFault::Shape(Part::Unknown));
    }
    let columns = columns_at(alloc, members)?;
    let tables = tables_at(alloc, members)?;
    let nodes = nodes_at(alloc, columns.as_slice(), tables.as_slice(), members)?;
    let edges = edges_at(alloc, nodes.as_slice(), members)?;
    Ok(Layout {
        columns,
        nodes,
        edges,
        tables,
    })
}

fn columns_at(alloc: Global, members: &Members) -> Result<ColumnDefs, FormFault>
    ensures ok { IfOk result (λ columns. columns_in (table_view members.now) ≡ Ok columns) }
    ensures fault { IfErr result (λ fault. fault ≢ FormFault.NoMemory
        → columns_in (table_view members.now) ≡ Err fault) }
{
    read_columns(alloc, items_at(members, "columns", Part::Columns)?)
}

fn tables_at(alloc: Global, members: &Members) -> Result<Tables, FormFault>
    ensures ok { IfOk result (λ tables. tables_in (table_view members.now) ≡ Ok tables) }
    ensures fault { IfErr result (λ fault. fault ≢ FormFault.NoMemory
        → tables_in (table_view members.now) ≡ Err fault) }
{
    match member(members, "tables") {
        Some(value) => read_tables(alloc, table(value, Part::Tables)?),
        None => Ok(Tables::new(alloc)),
    }
}

fn nodes_at(
    alloc: Global,
    columns: &[Column],
    tables: &[Table],
    members: &Members,
) -> Result<NodeDefs, FormFault>
    ensures ok { IfOk result (λ nodes. nodes_in columns.now tables.now (table_view members.now)
        ≡ Ok nodes) }
    ensures fault { IfErr result (λ fault. fault ≢ FormFault.NoMemory
        → nodes_in columns.now tables.now (table_view members.now) ≡ Err fault) }
{
    let items = items_at(members, "node", Part::Node)?;
    read_nodes(alloc, columns, tables, items)
}

fn edges_at(alloc: Global, nodes: &[NodeDef], members: &Members) -> Result<Items<Edge>, FormFault>
    ensures ok { IfOk result (λ edges. edges_in nodes.now (table_view members.now) ≡ Ok edges) }
    ensures fault { IfErr result (λ fault. fault ≢ FormFault.NoMemory
        → edges_in nodes.now (table_view members.now) ≡ Err fault) }
{
    read_edges(alloc, nodes, items_or_none(members, "edge", Part::Edge)?)
}
