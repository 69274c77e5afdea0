ghost use Rattle.std.specs.Prelude.{◌≡◌, ◌≢◌, ◌∷◌, [], Ok, Err, IfOk, IfErr, OnErr, drop, nat_eq};
ghost use Rattle.std.specs.Prelude.{codes};
ghost use Rattle.std.specs.Cmp.Lexicographic.{pointwise};
ghost use Rattle.csv.specs.Records.{fields_of as cells_of};
ghost use Rattle.payments.specs.Reading.{begins_with, cells_behind, field_of as field_of_column};
ghost use Rattle.payments.specs.Reading.{fields_from, first_cell, first_value as first_value_of};
ghost use Rattle.payments.specs.Reading.{given_names, cell_value as value_of_cell};

use crate::PFault;
use crate::spelling::{amount, number};
use csv::ByteRecord;
use jobs::{Column, ColumnKind, TEXT_MAX};
use std::alloc::Global;
use tuple_trace::{Fields, Items, NoMemory, Txt, Value};

/// What the header has in front of the names of the columns.
const SOURCE: &[u8] = b"source";

/// Whether these cells are the header of a payments file with these columns.
pub fn is_header(columns: &[Column], cells: &ByteRecord) -> bool
    ensures { result ≡ pointwise (pointwise nat_eq) (cells_of cells.now) (codes "source"
        ∷ given_names columns.now) }
{
    if !is_cell(cells, 0, SOURCE) {
        return false;
    }
    let width = cells.len();
    let mut next = 1;
    for column in columns {
        if !column.own {
            if !is_cell(cells, next, column.name.as_slice()) {
                return false;
            }
            next += 1;
        }
    }
    next == width
}

fn is_cell(cells: &ByteRecord, place: usize, text: &[u8]) -> bool
    ensures { result ≡ begins_with text.now (drop place (cells_of cells.now)) }
{
    match cells.get(place) {
        Some(cell) => cell == text,
        None => false,
    }
}

/// The fields of a row, whose cells stand behind the name of its source.
pub(crate) fn fields_of(
    alloc: Global,
    row: u64,
    columns: &[Column],
    cells: &ByteRecord,
) -> Result<Fields, PFault>
    ensures ok { IfOk result (λ fields. fields_from row 0 columns.now (drop 1 (cells_of cells.now))
        ≡ Ok fields) }
    ensures fault { IfErr result (λ fault. fault ≢ PFault.NoMemory
        → fields_from row 0 columns.now (drop 1 (cells_of cells.now)) ≡ Err fault) }
{
    let mut fields = no_fields(alloc, columns)?;
    let mut next = 1;
    for (place, column) in columns.iter().enumerate() {
        let field = field_of(alloc, row, place, column, cells, &mut next)?;
        fields.push(field)?;
    }
    Ok(Fields::shared(fields)?)
}

/// No fields, with memory for as many as there are columns.
pub(crate) fn no_fields(alloc: Global, columns: &[Column]) -> Result<Items<Value>, NoMemory>
    ensures { IfOk result (λ fields. fields ≡ []) }
{
    Ok(Items::from_vec(Vec::with_capacity(alloc, columns.len())?))
}

fn field_of(
    alloc: Global,
    row: u64,
    place: usize,
    column: &Column,
    cells: &ByteRecord,
    next: &mut usize,
) -> Result<Value, PFault>
    ensures ok { IfOk result (λ field. field_of_column row place column.now
        (drop next.old (cells_of cells.now)) ≡ Ok field) }
    ensures rest { drop next.new (cells_of cells.now)
        ≡ cells_behind column.now (drop next.old (cells_of cells.now)) }
    ensures fault { IfErr result (λ fault. fault ≢ PFault.NoMemory
        → field_of_column row place column.now (drop next.old (cells_of cells.now)) ≡ Err fault) }
{
    if column.own {
        Ok(first_value(alloc, column.kind))
    } else {
        value_of(alloc, row, place, column.kind, take_cell(cells, next))
    }
}

/// The cell at the place `next`, which is then one further. No bytes where no cell is left.
pub(crate) fn take_cell<'c>(cells: &'c ByteRecord, next: &mut usize) -> &'c [u8]
    ensures cell { result.now ≡ first_cell (drop next.old (cells_of cells.now)) }
    ensures rest { drop next.new (cells_of cells.now)
        ≡ drop 1 (drop next.old (cells_of cells.now)) }
{
    match cells.get(*next) {
        Some(cell) => {
            *next += 1;
            cell
        }
        None => &[],
    }
}

fn value_of(
    alloc: Global,
    row: u64,
    place: usize,
    kind: ColumnKind,
    cell: &[u8],
) -> Result<Value, PFault>
    ensures ok { IfOk result (λ value. value_of_cell row place kind cell.now ≡ Ok value) }
    ensures fault { IfErr result (λ fault. fault ≢ PFault.NoMemory
        → value_of_cell row place kind cell.now ≡ Err fault) }
{
    let spelled = match kind {
        ColumnKind::Text if cell.len() <= TEXT_MAX => {
            return Ok(Value::Text(Txt::from_slice(alloc, cell)?));
        }
        ColumnKind::Text => return Err(PFault::TextLong(row, number_of(place)?)),
        ColumnKind::Number => number(cell),
        ColumnKind::Cents => amount(cell),
    };
    match spelled {
        Some(number) => Ok(Value::Num(number)),
        None => Err(PFault::Value(row, number_of(place)?)),
    }
}

/// What an own column starts as.
pub(crate) fn first_value(alloc: Global, kind: ColumnKind) -> Value
    ensures { result ≡ first_value_of kind }
{
    match kind {
        ColumnKind::Text => Value::Text(Txt::new(alloc)),
        ColumnKind::Number | ColumnKind::Cents => Value::Num(0),
    }
}

/// A place as a number of 32 bits. A job with more columns or nodes than that has no room in
/// memory.
pub(crate) fn number_of(place: usize) -> Result<u32, PFault>
    ensures ok { IfOk result (λ number. number ≡ place) }
    ensures err { IfErr result (λ fault. fault ≡ PFault.NoMemory) }
{
    u32::try_from(place).map_err(|_| PFault::NoMemory)
}
