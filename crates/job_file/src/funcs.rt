ghost use Rattle.std.specs.Prelude.{◌≡◌, ◌≢◌, Ok, Err, IfOk, IfErr, map, codes};
ghost use Rattle.toml.specs.View.{items_view, table_view, view};
ghost use Rattle.job_file.specs.Document.{all_of};
ghost use Rattle.job_file.specs.Funcs.{byte_at, clamp_in, column_at, count_in, dedupe_in, enrich_in};
ghost use Rattle.job_file.specs.Funcs.{filter_in, func_by, func_in, listed_of, literal_at, map_in};
ghost use Rattle.job_file.specs.Funcs.{operand_at, sink_in, split_in, table_at};

use crate::conds::read_conds;
use crate::document::{has_only, items_at, member, text, text_at, whole_at};
use crate::fault::{FormFault, Part};
use crate::literals::{read_literal, read_operand};
use crate::names::{column_named, table_named};
use crate::numbers::nearest;
use crate::steps::read_steps;
use jobs::{
    ClampBy, Column, Columns, CountBy, DedupeBy, Func, Kind, Lookup, Operand, SplitBy, Table,
};
use std::alloc::Global;
use toml::{Table as Members, Value as Toml};
use tuple_trace::Value;

/// The function of this kind that a table has, which may have these keys `beside` those of the
/// kind.
pub(crate) fn read_func(
    alloc: Global,
    columns: &[Column],
    tables: &[Table],
    beside: &[&str],
    kind: Kind,
    members: &Members,
) -> Result<Func, FormFault>
    ensures ok { IfOk result (λ func. func_in columns.now tables.now
        (map (λ key. key.now) beside.now) kind (table_view members.now) ≡ Ok func) }
    ensures fault { IfErr result (λ fault. fault ≢ FormFault.NoMemory
        → func_in columns.now tables.now (map (λ key. key.now) beside.now) kind
        (table_view members.now) ≡ Err fault) }
{
    if !has_only(members, beside, kind.row().keys) {
        return Err(FormFault::Shape(Part::Unknown));
    }
    func_of(alloc, columns, tables, kind, members)
}

fn func_of(
    alloc: Global,
    columns: &[Column],
    tables: &[Table],
    kind: Kind,
    members: &Members,
) -> Result<Func, FormFault>
    ensures ok { IfOk result (λ func. func_by columns.now tables.now kind (table_view members.now)
        ≡ Ok func) }
    ensures fault { IfErr result (λ fault. fault ≢ FormFault.NoMemory
        → func_by columns.now tables.now kind (table_view members.now) ≡ Err fault) }
{
    match kind {
        Kind::Source => Ok(Func::Source),
        Kind::Filter => read_filter(alloc, columns, members),
        Kind::Map => read_map(alloc, columns, members),
        Kind::Enrich => read_enrich(alloc, columns, tables, members),
        Kind::Count => read_count(columns, members),
        Kind::Dedupe => read_dedupe(columns, members),
        Kind::Clamp => read_clamp(columns, members),
        Kind::Split => read_split(columns, members),
        Kind::Replicate => Ok(Func::Replicate),
        Kind::Sink => read_sink(alloc, columns, members),
    }
}

fn read_filter(alloc: Global, columns: &[Column], members: &Members) -> Result<Func, FormFault>
    ensures ok { IfOk result (λ func. filter_in columns.now (table_view members.now) ≡ Ok func) }
    ensures fault { IfErr result (λ fault. fault ≢ FormFault.NoMemory
        → filter_in columns.now (table_view members.now) ≡ Err fault) }
{
    let items = items_at(members, "when", Part::When)?;
    Ok(Func::Filter(read_conds(alloc, columns, items)?))
}

fn read_map(alloc: Global, columns: &[Column], members: &Members) -> Result<Func, FormFault>
    ensures ok { IfOk result (λ func. map_in columns.now (table_view members.now) ≡ Ok func) }
    ensures fault { IfErr result (λ fault. fault ≢ FormFault.NoMemory
        → map_in columns.now (table_view members.now) ≡ Err fault) }
{
    let items = items_at(members, "steps", Part::Steps)?;
    Ok(Func::Map(read_steps(alloc, columns, items)?))
}

fn read_enrich(
    alloc: Global,
    columns: &[Column],
    tables: &[Table],
    members: &Members,
) -> Result<Func, FormFault>
    ensures ok { IfOk result (λ func. enrich_in columns.now tables.now (table_view members.now)
        ≡ Ok func) }
    ensures fault { IfErr result (λ fault. fault ≢ FormFault.NoMemory
        → enrich_in columns.now tables.now (table_view members.now) ≡ Err fault) }
{
    let key = read_column_at(columns, members, "key", Part::Key)?;
    let into = read_column_at(columns, members, "into", Part::Into)?;
    let table = read_table_at(tables, members, "table", Part::Table)?;
    let other = read_literal_at(alloc, members, "other", Part::Other)?;
    Ok(Func::Enrich(Lookup {
        key,
        into,
        table,
        other,
    }))
}

fn read_count(columns: &[Column], members: &Members) -> Result<Func, FormFault>
    ensures ok { IfOk result (λ func. count_in columns.now (table_view members.now) ≡ Ok func) }
    ensures fault { IfErr result (λ fault. count_in columns.now (table_view members.now)
        ≡ Err fault) }
{
    let key = read_column_at(columns, members, "key", Part::Key)?;
    let add = read_operand_at(columns, members, "add", Part::Add)?;
    let into = read_column_at(columns, members, "into", Part::Into)?;
    Ok(Func::Count(CountBy { key, add, into }))
}

fn read_dedupe(columns: &[Column], members: &Members) -> Result<Func, FormFault>
    ensures ok { IfOk result (λ func. dedupe_in columns.now (table_view members.now) ≡ Ok func) }
    ensures fault { IfErr result (λ fault. dedupe_in columns.now (table_view members.now)
        ≡ Err fault) }
{
    let key = read_column_at(columns, members, "key", Part::Key)?;
    Ok(Func::Dedupe(DedupeBy { key }))
}

fn read_clamp(columns: &[Column], members: &Members) -> Result<Func, FormFault>
    ensures ok { IfOk result (λ func. clamp_in columns.now (table_view members.now) ≡ Ok func) }
    ensures fault { IfErr result (λ fault. clamp_in columns.now (table_view members.now)
        ≡ Err fault) }
{
    let on = read_column_at(columns, members, "on", Part::On)?;
    let low = whole_at(members, "low", Part::Low)?;
    let high = whole_at(members, "high", Part::High)?;
    if high < low {
        return Err(FormFault::Shape(Part::High));
    }
    Ok(Func::Clamp(ClampBy { on, low, high }))
}

fn read_split(columns: &[Column], members: &Members) -> Result<Func, FormFault>
    ensures ok { IfOk result (λ func. split_in columns.now (table_view members.now) ≡ Ok func) }
    ensures fault { IfErr result (λ fault. split_in columns.now (table_view members.now)
        ≡ Err fault) }
{
    let on = read_column_at(columns, members, "on", Part::On)?;
    let by = read_byte_at(members, "by", Part::By)?;
    let most = whole_at(members, "most", Part::Most)?;
    Ok(Func::Split(SplitBy {
        on,
        by,
        most: nearest(most),
    }))
}

fn read_sink(alloc: Global, columns: &[Column], members: &Members) -> Result<Func, FormFault>
    ensures ok { IfOk result (λ func. sink_in columns.now (table_view members.now) ≡ Ok func) }
    ensures fault { IfErr result (λ fault. fault ≢ FormFault.NoMemory
        → sink_in columns.now (table_view members.now) ≡ Err fault) }
{
    let items = items_at(members, "columns", Part::Columns)?;
    Ok(Func::Sink(read_listed(alloc, columns, items)?))
}

fn read_listed(alloc: Global, columns: &[Column], items: &[Toml]) -> Result<Columns, FormFault>
    ensures ok { IfOk result (λ listed. all_of (listed_of columns.now) (items_view items.now)
        ≡ Ok listed) }
    ensures fault { IfErr result (λ fault. fault ≢ FormFault.NoMemory
        → all_of (listed_of columns.now) (items_view items.now) ≡ Err fault) }
{
    let mut list = Columns::new(alloc);
    for item in items {
        list.push(read_listed_column(columns, item)?)?;
    }
    Ok(list)
}

fn read_listed_column(columns: &[Column], item: &Toml) -> Result<u32, FormFault>
    ensures ok { IfOk result (λ column. listed_of columns.now (view item.now) ≡ Ok column) }
    ensures fault { IfErr result (λ fault. listed_of columns.now (view item.now) ≡ Err fault) }
{
    let name = text(item, Part::Columns)?;
    Ok(column_named(columns, name.as_bytes()))
}

/// The number of the column that is named at a key.
fn read_column_at(
    columns: &[Column],
    members: &Members,
    key: &str,
    part: Part,
) -> Result<u32, FormFault>
    ensures ok { IfOk result (λ column. column_at columns.now key.now part (table_view members.now)
        ≡ Ok column) }
    ensures fault { IfErr result (λ fault. column_at columns.now key.now part
        (table_view members.now) ≡ Err fault) }
{
    let name = text_at(members, key, part)?;
    Ok(column_named(columns, name.as_bytes()))
}

/// The number of the table that is named at a key.
fn read_table_at(
    tables: &[Table],
    members: &Members,
    key: &str,
    part: Part,
) -> Result<u32, FormFault>
    ensures ok { IfOk result (λ table. table_at tables.now key.now part (table_view members.now)
        ≡ Ok table) }
    ensures fault { IfErr result (λ fault. table_at tables.now key.now part (table_view members.now)
        ≡ Err fault) }
{
    let name = text_at(members, key, part)?;
    Ok(table_named(tables, name.as_bytes()))
}

fn read_literal_at(
    alloc: Global,
    members: &Members,
    key: &str,
    part: Part,
) -> Result<Value, FormFault>
    ensures ok { IfOk result (λ literal. literal_at key.now part (table_view members.now)
        ≡ Ok literal) }
    ensures fault { IfErr result (λ fault. fault ≢ FormFault.NoMemory
        → literal_at key.now part (table_view members.now) ≡ Err fault) }
{
    match member(members, key) {
        Some(value) => read_literal(alloc, value, part),
        None => Err(FormFault::Shape(part)),
    }
}

fn read_operand_at(
    columns: &[Column],
    members: &Members,
    key: &str,
    part: Part,
) -> Result<Operand, FormFault>
    ensures ok { IfOk result (λ operand. operand_at columns.now key.now part
        (table_view members.now) ≡ Ok operand) }
    ensures fault { IfErr result (λ fault. operand_at columns.now key.now part
        (table_view members.now) ≡ Err fault) }
{
    match member(members, key) {
        Some(value) => read_operand(columns, value, part),
        None => Err(FormFault::Shape(part)),
    }
}

/// The text of one byte at a key. A text is UTF-8, so the byte is an ASCII character.
fn read_byte_at(members: &Members, key: &str, part: Part) -> Result<u8, FormFault>
    ensures ok { IfOk result (λ byte. byte_at key.now part (table_view members.now) ≡ Ok byte) }
    ensures fault { IfErr result (λ fault. byte_at key.now part (table_view members.now)
        ≡ Err fault) }
{
    match text_at(members, key, part)?.as_bytes() {
        [byte] => Ok(*byte),
        _ => Err(FormFault::Shape(part)),
    }
}
