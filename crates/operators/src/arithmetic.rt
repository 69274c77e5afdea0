// What the steps of a map compute.
ghost use Rattle.std.specs.Prelude.{◌≡◌};
ghost use Rattle.operators.specs.Arithmetic.{after_step, after_steps, computed as computed_of};
ghost use Rattle.operators.specs.Arithmetic.{number_of as number_of_operand, result_of};

use crate::fields::{field_at, number_at};
use jobs::{Column, Op, Operand, Step};
use keyed_state::clamp;
use tuple_trace::{Items, Value};

/// Does all steps in order. Each reads what the earlier ones wrote. Takes no memory.
pub fn run_steps(columns: &[Column], steps: &[Step], fields: &mut Items<Value>)
    ensures { fields.new ≡ after_steps columns.now fields.old steps.now }
{
    for step in steps {
        run_step(columns, step, fields);
    }
}

fn run_step(columns: &[Column], step: &Step, fields: &mut Items<Value>)
    ensures { fields.new ≡ after_step columns.now fields.old step.now }
{
    let result = result_of(columns, step, fields.as_slice());
    if field_at(columns, fields.as_slice(), step.column).is_some() {
        fields.set(step.column as usize, Value::Num(result));
    }
}

fn result_of(columns: &[Column], step: &Step, fields: &[Value]) -> i64
    ensures { result ≡ result_of columns.now fields.now step.now }
{
    let a = number_of(columns, fields, step.a);
    let b = number_of(columns, fields, step.b);
    clamp(computed(step.op, a, b))
}

/// The number that an operand stands for.
pub fn number_of(columns: &[Column], fields: &[Value], operand: Operand) -> i64
    ensures { result ≡ number_of_operand columns.now fields.now operand }
{
    match operand {
        Operand::Number(number) => number,
        Operand::Column(column) => number_at(columns, fields, column),
    }
}

fn computed(op: Op, a: i64, b: i64) -> i128
    ensures { result ≡ computed_of op a b }
{
    match op {
        Op::Add => a as i128 + b as i128,
        Op::Sub => a as i128 - b as i128,
        Op::Mul => a as i128 * b as i128,
        Op::Min => a.min(b) as i128,
        Op::Max => a.max(b) as i128,
    }
}
