ghost use Rattle.std.specs.Prelude.{◌≡◌, ◌≢◌, Ok, Err, IfOk, IfErr};
ghost use Rattle.toml.specs.View.{view};
ghost use Rattle.job_file.specs.Literals.{literal_of, operand_of};

use crate::fault::{FormFault, Part};
use crate::names::column_named;
use jobs::{Column, Operand};
use std::alloc::Global;
use toml::Value as Toml;
use tuple_trace::{Txt, Value};

/// A value that is a whole number or a text.
pub(crate) fn read_literal(alloc: Global, value: &Toml, part: Part) -> Result<Value, FormFault>
    ensures ok { IfOk result (λ literal. literal_of part (view value.now) ≡ Ok literal) }
    ensures fault { IfErr result (λ fault. fault ≢ FormFault.NoMemory
        → literal_of part (view value.now) ≡ Err fault) }
{
    if let Some(number) = value.as_integer() {
        return Ok(Value::Num(number));
    }
    let Some(text) = value.as_str() else {
        return Err(FormFault::Shape(part));
    };
    Ok(Value::Text(Txt::from_slice(alloc, text.as_bytes())?))
}

/// A value that is a whole number or the name of a column.
pub(crate) fn read_operand(
    columns: &[Column],
    value: &Toml,
    part: Part,
) -> Result<Operand, FormFault>
    ensures ok { IfOk result (λ operand. operand_of columns.now part (view value.now)
        ≡ Ok operand) }
    ensures fault { IfErr result (λ fault. operand_of columns.now part (view value.now)
        ≡ Err fault) }
{
    if let Some(number) = value.as_integer() {
        return Ok(Operand::Number(number));
    }
    let Some(name) = value.as_str() else {
        return Err(FormFault::Shape(part));
    };
    Ok(Operand::Column(column_named(columns, name.as_bytes())))
}
