ghost use Rattle.std.specs.Prelude.{◌≡◌, IfErr, IfOk, List, None, OnErr, OnOk, Some};
ghost use Rattle.tuple_trace.specs.declared.row.Row.{Row};
ghost use Rattle.stream_run.specs.Growing.{Goes, GoesAndStops};
ghost use Rattle.stream_run.specs.Standing.{Stands};
ghost use Rattle.stream_turns.specs.Taken.{TakesTurns, at};
ghost use Rattle.stream_turns.specs.Turns.{IsGivenUp, CanTakeTurn};

use crate::inputs::StreamInputs;
use crate::turns::{End, turn};
use fries_lines::Fault;
use input_pieces::Tap;
use lane_core::Lanes;
use payments::GrowingShelf;
use std::sync::Wait;
use std::thread::Threads;
use stream_law::later_requests_are_judged_later;
use stream_run::{StreamCall, Watch};
use stream_step::Stream;
use tuple_trace::Gate;

/// A stream that takes no more rows, and why.
#[derive(Drop)]
pub struct Stopped {
    pub stream: Stream,
    pub end: End,
}

/// Takes turns until the input ends or has a fault.
pub fn run_stream<R, L: Lanes + Sync, G: Gate + Sync, T: Tap, S: GrowingShelf, W: Watch>(
    call: &StreamCall<'_, R, L, G>,
    stream: Stream,
    inputs: &mut StreamInputs,
    tap: &mut T,
    shelf: &mut S,
    watch: &mut W,
) -> Result<Stopped, Fault>
where
    R: Threads + Wait + Sync,
    requires ready { CanTakeTurn call.now.source call.now.every stream inputs.old }
    requires closed { (S.state shelf.old).draft ≡ None }
    requires stands { Stands call.now.behind call.now.names stream (S.state shelf.old).files }
    ensures ready { IfOk result (λ ran.
        CanTakeTurn call.now.source call.now.every ran.stream inputs.new) }
    ensures goes { IfOk result (λ ran. (rows : List Row) × Goes call.now.names rows stream
        (S.state shelf.old).files ran.stream (S.state shelf.new).files) }
    ensures stands { IfOk result (λ ran. Stands call.now.behind call.now.names ran.stream
        (S.state shelf.new).files) }
    ensures taken { IfOk result (λ ran. TakesTurns call.now.names
        (at stream (S.state shelf.old).files inputs.old (T.state tap.old)) (Some ran.end)
        (at ran.stream (S.state shelf.new).files inputs.new (T.state tap.new))) }
    ensures stopped { OnErr result (GoesAndStops call.now.names stream
        (S.state shelf.old).files (S.state shelf.new).files) }
    ensures closed { (S.state shelf.new).draft ≡ None }
    ensures writes { OnOk result
        ((S.state shelf.new).faults.writes ≡ (S.state shelf.old).faults.writes) }
    ensures cause { IfErr result (IsGivenUp call.now.names
        (S.state shelf.old).faults (S.state shelf.new).faults) }
{
    later_requests_are_judged_later();
    let mut stream = stream;
    for _ in 0..u64::MAX {
        let turned = turn(call, stream, inputs, tap, shelf, watch)?;
        stream = turned.stream;
        if let Some(end) = turned.end {
            return Ok(Stopped { stream, end });
        }
    }
    Err(Fault::NoMemory)
}
