// What is printed of a stream.
ghost use Rattle.std.specs.Prelude.{◌≡◌, IfOk};
ghost use Rattle.std.specs.Result.{result_err};
ghost use Rattle.fries_steps.specs.Effects.{Prints};
ghost use Rattle.stream_call.specs.Ended.{end_lines};

use crate::fault::StreamFault;
use fries_lines::{Fault, FileIs, Summary, push_refused, summary_line};
use fries_steps::{print, print_made};
use payments::Sink;
use std::alloc::Global;
use stream_turns::StreamInputs;
use tuple_trace::{Bytes, NoMemory};

/// Prints the requests that were refused since the call began, and the summary of so many rows.
pub(crate) fn print_end<O: Sink>(
    alloc: Global,
    inputs: &StreamInputs,
    rows: u64,
    out: &mut O,
) -> Result<(), Fault>
    ensures { Prints (end_lines inputs.now rows) (O.state out.old) (O.state out.new)
        (result_err result) }
{
    let lines = lines_of(alloc, inputs, rows)?;
    print(out, lines.as_slice())
}

fn lines_of(alloc: Global, inputs: &StreamInputs, rows: u64) -> Result<Bytes, NoMemory>
    ensures { IfOk result (λ lines. lines ≡ end_lines inputs.now rows) }
{
    let summary = Summary {
        rows: rows as usize,
        alerts: inputs.books.tally.shown as usize,
        requests: inputs.known.requests.len(),
        refused: inputs.refused.len(),
    };
    let mut lines = Bytes::new(alloc);
    push_refused(alloc, inputs.refused.as_slice(), &mut lines)?;
    let summary = summary_line(alloc, summary)?;
    lines.extend_from_slice(summary.as_bytes())?;
    Ok(lines)
}

/// Prints the line of a fault, unless it is the output that failed. What printing it comes to
/// changes no answer.
pub(crate) fn print_fault<O: Sink>(alloc: Global, fault: StreamFault, out: &mut O) {
    if fault != StreamFault::Call(Fault::Write(FileIs::Out)) {
        let _ = print_made(fault_line(alloc, fault), out);
    }
}

fn fault_line(alloc: Global, fault: StreamFault) -> Result<String, NoMemory> {
    let status = fault.status();
    Ok(format!(in alloc; "fault {status} {fault}\n")?)
}
