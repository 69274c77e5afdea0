ghost use Rattle.std.specs.Prelude.{◌≡◌, ◌≢◌, Ok, Err, IfOk, IfErr};
ghost use Rattle.toml.specs.View.{items_view, view};
ghost use Rattle.job_file.specs.Document.{all_of};
ghost use Rattle.job_file.specs.Steps.{op_of, step_by, step_in, step_of};

use crate::document::{items, text};
use crate::fault::{FormFault, Part};
use crate::literals::read_operand;
use crate::names::column_named;
use jobs::{Column, Op, Step, Steps};
use std::alloc::Global;
use toml::Value as Toml;

/// The steps of a map.
pub(crate) fn read_steps(
    alloc: Global,
    columns: &[Column],
    items: &[Toml],
) -> Result<Steps, FormFault>
    ensures ok { IfOk result (λ steps. all_of (step_of columns.now) (items_view items.now)
        ≡ Ok steps) }
    ensures fault { IfErr result (λ fault. fault ≢ FormFault.NoMemory
        → all_of (step_of columns.now) (items_view items.now) ≡ Err fault) }
{
    let mut list = Steps::new(alloc);
    for item in items {
        list.push(read_step(columns, item)?)?;
    }
    Ok(list)
}

fn read_step(columns: &[Column], item: &Toml) -> Result<Step, FormFault>
    ensures ok { IfOk result (λ step. step_of columns.now (view item.now) ≡ Ok step) }
    ensures fault { IfErr result (λ fault. step_of columns.now (view item.now) ≡ Err fault) }
{
    step_from(columns, items(item, Part::Steps)?)
}

fn step_from(columns: &[Column], parts: &[Toml]) -> Result<Step, FormFault>
    ensures ok { IfOk result (λ step. step_in columns.now (items_view parts.now) ≡ Ok step) }
    ensures fault { IfErr result (λ fault. step_in columns.now (items_view parts.now) ≡ Err fault) }
{
    if parts.len() != 4 {
        return Err(FormFault::Shape(Part::Steps));
    }
    step_of_four(columns, &parts[0], &parts[1], &parts[2], &parts[3])
}

fn step_of_four(
    columns: &[Column],
    column: &Toml,
    op: &Toml,
    a: &Toml,
    b: &Toml,
) -> Result<Step, FormFault>
    ensures ok { IfOk result (λ step. step_by columns.now (view column.now) (view op.now)
        (view a.now) (view b.now) ≡ Ok step) }
    ensures fault { IfErr result (λ fault. step_by columns.now (view column.now) (view op.now)
        (view a.now) (view b.now) ≡ Err fault) }
{
    let name = text(column, Part::Steps)?;
    let op = read_op(op)?;
    let a = read_operand(columns, a, Part::Steps)?;
    let b = read_operand(columns, b, Part::Steps)?;
    Ok(Step {
        column: column_named(columns, name.as_bytes()),
        op,
        a,
        b,
    })
}

fn read_op(item: &Toml) -> Result<Op, FormFault>
    ensures ok { IfOk result (λ op. op_of (view item.now) ≡ Ok op) }
    ensures fault { IfErr result (λ fault. op_of (view item.now) ≡ Err fault) }
{
    match text(item, Part::Steps)? {
        "add" => Ok(Op::Add),
        "sub" => Ok(Op::Sub),
        "mul" => Ok(Op::Mul),
        "min" => Ok(Op::Min),
        "max" => Ok(Op::Max),
        _ => Err(FormFault::Shape(Part::Steps)),
    }
}
