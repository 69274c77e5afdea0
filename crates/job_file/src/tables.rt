ghost use Rattle.std.specs.Prelude.{◌≡◌, ◌≢◌, Ok, Err, IfOk, IfErr};
ghost use Rattle.std.specs.FinMap.{empty};
ghost use Rattle.toml.specs.View.{table_view, view};
ghost use Rattle.job_file.specs.Tables.{entries_onto, named_table, tables_of};

use crate::document::table as table_of;
use crate::fault::{FormFault, Part};
use crate::literals::read_literal;
use crate::names::is_name;
use jobs::{Table, Tables};
use keyed_state::TextMap;
use std::alloc::Global;
use toml::{Table as Members, Value as Toml};
use tuple_trace::{Txt, Value};

/// The tables of a job, in the order of their names by bytes, which is that of the keys of a
/// document.
pub(crate) fn read_tables(alloc: Global, members: &Members) -> Result<Tables, FormFault>
    ensures ok { IfOk result (λ tables. tables_of (table_view members.now) ≡ Ok tables) }
    ensures fault { IfErr result (λ fault. fault ≢ FormFault.NoMemory
        → tables_of (table_view members.now) ≡ Err fault) }
{
    let mut list = Tables::new(alloc);
    for (name, value) in members.iter() {
        list.push(read_table(alloc, name.as_str(), value)?)?;
    }
    Ok(list)
}

fn read_table(alloc: Global, name: &str, value: &Toml) -> Result<Table, FormFault>
    ensures ok { IfOk result (λ table. named_table name.now (view value.now) ≡ Ok table) }
    ensures fault { IfErr result (λ fault. fault ≢ FormFault.NoMemory
        → named_table name.now (view value.now) ≡ Err fault) }
{
    if !is_name(name.as_bytes()) {
        return Err(FormFault::Shape(Part::Tables));
    }
    let entries = read_entries(alloc, table_of(value, Part::Tables)?)?;
    let name = Txt::from_slice(alloc, name.as_bytes())?;
    Ok(Table { name, entries })
}

fn read_entries(alloc: Global, members: &Members) -> Result<TextMap<Value>, FormFault>
    ensures ok { IfOk result (λ entries. entries_onto empty (table_view members.now) ≡ Ok entries) }
    ensures fault { IfErr result (λ fault. fault ≢ FormFault.NoMemory
        → entries_onto empty (table_view members.now) ≡ Err fault) }
{
    let mut entries = TextMap::new(alloc);
    for (key, value) in members.iter() {
        let value = read_literal(alloc, value, Part::Tables)?;
        entries.insert(key.as_bytes(), value)?;
    }
    Ok(entries)
}
