// The fields of a tuple, read and written by the kinds that the job gives its columns.
ghost use Rattle.std.specs.Prelude.{◌≡◌, ◌<◌, ◌++◌, IfOk, OnOk, length, slice_set};
ghost use Rattle.std.specs.Option.{option_copied};
ghost use Rattle.tuple_trace.specs.declared.value.Value.TheVariants.{Num};
ghost use Rattle.operators.specs.Fields.{field_at, number_at, text_at, written_at};
ghost use Rattle.operators.specs.Sent.{with_fields};

use jobs::{Column, holds, kind_at};
use std::alloc::Global;
use tuple_trace::{Fields, Items, NoMemory, Tuple, Value, number_in, text_in};

/// The field of a column, where the tuple has it with the kind that the job gives the column.
pub fn field_at<'a>(columns: &[Column], fields: &'a [Value], column: u32) -> Option<&'a Value>
    ensures { option_copied result ≡ field_at columns.now fields.now column }
{
    let field = fields.get(column as usize)?;
    if holds(kind_at(columns, column), field) {
        Some(field)
    } else {
        None
    }
}

/// A column read as a number: 0 where the tuple doesn't have it in its kind.
pub fn number_at(columns: &[Column], fields: &[Value], column: u32) -> i64
    ensures { result ≡ number_at columns.now fields.now column }
{
    number_in(field_at(columns, fields, column))
}

/// A column read as a text: empty where the tuple doesn't have it in its kind.
pub fn text_at<'a>(columns: &[Column], fields: &'a [Value], column: u32) -> &'a [u8]
    ensures { result.now ≡ text_at columns.now fields.now column }
{
    text_in(field_at(columns, fields, column))
}

/// Writes a number into a column. Nothing is written where the tuple doesn't have the column in its
/// kind. Takes memory only if the tuple shares its fields.
pub fn write_number(
    columns: &[Column],
    tuple: &mut Tuple,
    column: u32,
    number: i64,
) -> Result<(), NoMemory>
    ensures { let fields = written_at columns.now tuple.old.fields column (Num number) in
        OnOk result (tuple.new ≡ with_fields fields tuple.old) }
{
    if field_at(columns, tuple.fields.as_slice(), column).is_some() {
        tuple.write(column as usize, Value::Num(number))?;
    }
    Ok(())
}

/// The fields with a value in a column, or as they are where the tuple doesn't have the column in
/// its kind. The old value isn't copied.
pub fn written_at(
    alloc: Global,
    columns: &[Column],
    fields: &Fields,
    column: u32,
    value: Value,
) -> Result<Fields, NoMemory>
    ensures { IfOk result (λ made. made ≡ written_at columns.now fields.now column value) }
{
    if field_at(columns, fields.as_slice(), column).is_some() {
        replaced(alloc, fields.as_slice(), column as usize, value)
    } else {
        Ok(fields.clone()?)
    }
}

fn replaced(alloc: Global, fields: &[Value], place: usize, value: Value) -> Result<Fields, NoMemory>
    requires { place < length fields.now }
    ensures { IfOk result (λ made. made ≡ slice_set fields.now place value) }
{
    let mut made = Vec::with_capacity(alloc, fields.len())?;
    append(&mut made, &fields[..place])?;
    made.push(value)?;
    append(&mut made, &fields[place + 1..])?;
    Ok(Fields::own(Items::from_vec(made)))
}

fn append(made: &mut Vec<Value>, more: &[Value]) -> Result<(), NoMemory>
    ensures { OnOk result (made.new.items ≡ made.old.items ++ more.now) }
{
    made.extend_with_clones(more)?;
    Ok(())
}

/// An equal value.
pub fn copied(value: &Value) -> Result<Value, NoMemory>
    ensures { IfOk result (λ copy. copy ≡ value.now) }
{
    Ok(value.clone()?)
}
