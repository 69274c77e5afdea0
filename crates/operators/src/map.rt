// Maps. Out of memory, `out` is as before.
ghost use Rattle.std.specs.Prelude.{◌≡◌, ◌++◌, OnOk, OnErr};
ghost use Rattle.operators.specs.Map.{mapped};

use crate::arithmetic::run_steps;
use crate::output::{Changing, Output, Outs};
use jobs::{Column, Step};
use std::alloc::Global;
use tuple_trace::{NoMemory, Tuple, Visit};

/// Sends the tuple to port 0 after its steps. Each step writes the column that it names, and reads
/// what the earlier ones wrote.
///
/// A column that the tuple doesn't have in its kind is read as 0. A step that names one to be
/// written leaves the tuple as it is.
pub fn map(
    alloc: Global,
    columns: &[Column],
    visit: Visit,
    steps: &[Step],
    tuple: &Tuple,
    out: &mut Outs,
) -> Result<(), NoMemory>
    ensures ok { OnOk result (out.new ≡ out.old ++ mapped columns.now visit steps.now tuple.now) }
    ensures err { OnErr result (out.new ≡ out.old) }
{
    let mut made = Changing::copy_of(alloc, tuple, visit)?;
    run_steps(columns, steps, &mut made.fields);
    let tuple = made.into_tuple();
    out.push(Output { port: 0, tuple })
}
