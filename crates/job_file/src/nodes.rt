ghost use Rattle.std.specs.Prelude.{◌≡◌, ◌≢◌, Ok, Err, IfOk, IfErr, map};
ghost use Rattle.toml.specs.View.{items_view, table_view, view};
ghost use Rattle.job_file.specs.Document.{all_of};
ghost use Rattle.job_file.specs.Nodes.{beside_of, name_in, node_in, node_of, roof_in};

use crate::document::{table, text_at, whole_or};
use crate::fault::{FormFault, Part};
use crate::funcs::read_func;
use crate::kinds::read_kind;
use crate::names::is_name;
use crate::numbers::nearest;
use jobs::{Column, Followers, Func, Kind, NodeDef, NodeDefs, Table, fan_out};
use std::alloc::Global;
use toml::{Table as Members, Value as Toml};
use tuple_trace::Txt;

/// The nodes of a job with these columns and tables.
pub(crate) fn read_nodes(
    alloc: Global,
    columns: &[Column],
    tables: &[Table],
    items: &[Toml],
) -> Result<NodeDefs, FormFault>
    ensures ok { IfOk result (λ nodes. all_of (node_of columns.now tables.now)
        (items_view items.now) ≡ Ok nodes) }
    ensures fault { IfErr result (λ fault. fault ≢ FormFault.NoMemory
        → all_of (node_of columns.now tables.now) (items_view items.now) ≡ Err fault) }
{
    let mut list = NodeDefs::new(alloc);
    for item in items {
        list.push(read_node(alloc, columns, tables, item)?)?;
    }
    Ok(list)
}

fn read_node(
    alloc: Global,
    columns: &[Column],
    tables: &[Table],
    item: &Toml,
) -> Result<NodeDef, FormFault>
    ensures ok { IfOk result (λ node. node_of columns.now tables.now (view item.now) ≡ Ok node) }
    ensures fault { IfErr result (λ fault. fault ≢ FormFault.NoMemory
        → node_of columns.now tables.now (view item.now) ≡ Err fault) }
{
    node_from(alloc, columns, tables, table(item, Part::Node)?)
}

fn node_from(
    alloc: Global,
    columns: &[Column],
    tables: &[Table],
    members: &Members,
) -> Result<NodeDef, FormFault>
    ensures ok { IfOk result (λ node. node_in columns.now tables.now (table_view members.now)
        ≡ Ok node) }
    ensures fault { IfErr result (λ fault. fault ≢ FormFault.NoMemory
        → node_in columns.now tables.now (table_view members.now) ≡ Err fault) }
{
    let name = read_name(alloc, members)?;
    let kind = read_kind(members)?;
    let func = read_func(alloc, columns, tables, beside_of(kind), kind, members)?;
    let workers = whole_or(members, "workers", Part::Workers, 1)?;
    let roof = read_roof(&func, members)?;
    Ok(NodeDef {
        name,
        func,
        workers: nearest(workers),
        roof: nearest(roof),
    })
}

/// The roof that is written, or else the fan-out of the function.
fn read_roof(func: &Func, members: &Members) -> Result<i64, FormFault>
    ensures ok { IfOk result (λ roof. roof_in func.now (table_view members.now) ≡ Ok roof) }
    ensures fault { IfErr result (λ fault. roof_in func.now (table_view members.now) ≡ Err fault) }
{
    whole_or(members, "roof", Part::Roof, i64::from(fan_out(func)))
}

fn read_name(alloc: Global, members: &Members) -> Result<Txt, FormFault>
    ensures ok { IfOk result (λ name. name_in (table_view members.now) ≡ Ok name) }
    ensures fault { IfErr result (λ fault. fault ≢ FormFault.NoMemory
        → name_in (table_view members.now) ≡ Err fault) }
{
    let name = text_at(members, "name", Part::Name)?;
    if !is_name(name.as_bytes()) {
        return Err(FormFault::Shape(Part::Name));
    }
    Ok(Txt::from_slice(alloc, name.as_bytes())?)
}

/// The keys that a node of this kind may have beside those of its function.
fn beside_of(kind: Kind) -> &'static [&'static str]
    ensures { map (λ key. key.now) result.now ≡ beside_of kind }
{
    let row = kind.row();
    match row.followers {
        Followers::FreeKinds => &["name", "kind", "workers", "roof"],
        Followers::Nothing | Followers::SameKind => {
            if 1 < row.most_workers {
                &["name", "kind", "workers"]
            } else {
                &["name", "kind"]
            }
        }
    }
}
