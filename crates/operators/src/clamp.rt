// Clamps. Out of memory, `out` is as before.
ghost use Rattle.std.specs.Prelude.{◌≡◌, ◌++◌, OnOk, OnErr};
ghost use Rattle.operators.specs.Clamp.{between as brought_between, clamped};

use crate::fields::{number_at, write_number};
use crate::output::{Output, Outs};
use jobs::{ClampBy, Column};
use tuple_trace::{NoMemory, Tuple, Visit};

/// Sends the tuple to port 0. The column `on` is written: it becomes `low` where it holds less, and
/// `high` where it holds more.
///
/// An `on` that the tuple doesn't have as a number isn't written. Where `high` is less than `low`,
/// what is less than `low` becomes `low`, and all else `high`.
pub fn clamp(
    columns: &[Column],
    visit: Visit,
    clamp: &ClampBy,
    tuple: &Tuple,
    out: &mut Outs,
) -> Result<(), NoMemory>
    ensures ok { OnOk result (out.new ≡ out.old ++ clamped columns.now visit clamp.now tuple.now) }
    ensures err { OnErr result (out.new ≡ out.old) }
{
    let number = number_at(columns, tuple.fields.as_slice(), clamp.on);
    let mut made = tuple.visiting(visit)?;
    let number = between(clamp.low, clamp.high, number);
    write_number(columns, &mut made, clamp.on, number)?;
    out.push(Output {
        port: 0,
        tuple: made,
    })
}

fn between(low: i64, high: i64, number: i64) -> i64
    ensures { result ≡ brought_between low high number }
{
    if number < low {
        low
    } else if high < number {
        high
    } else {
        number
    }
}
