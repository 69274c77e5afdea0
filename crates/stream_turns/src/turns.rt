ghost use Rattle.std.specs.Prelude.{◌≡◌, ◌++◌, IfErr, IfOk, ℕ, List, None, OnErr, OnOk};
ghost use Rattle.std.specs.Prelude.{unwrap_or};
ghost use Rattle.tuple_trace.specs.declared.row.Row.{Row};
ghost use Rattle.stream_run.specs.Growing.{Goes, GoesAndStops};
ghost use Rattle.stream_run.specs.Standing.{Stands};
ghost use Rattle.stream_run.specs.Unwritten.{IsUnwritten};
ghost use Rattle.csv.specs.Reading.{default_config};
ghost use Rattle.input_pieces.specs.Cut.{IsCut};
ghost use Rattle.input_pieces.specs.Taps.{TapState};
ghost use Rattle.jobs.specs.Job.{job_view};
ghost use Rattle.stream_rows.specs.Reader.{IsReadTo, end_fault};
ghost use Rattle.stream_turns.specs.Taken.{HasRunText, TakesTurns, at, end_for as end_by};
ghost use Rattle.stream_turns.specs.Turns.{IsGivenUp, IsPiece, CanTakeTurn};

use crate::inputs::StreamInputs;
use crate::later::take_later;
use fries_lines::{Fault, FileIs};
use input_pieces::{PieceFault, Pieces, Tap};
use lane_core::Lanes;
use payments::{GrowingShelf, PFault};
use std::sync::Wait;
use std::thread::Threads;
use stream_law::later_requests_are_judged_later;
use stream_parts::{rows_after, run_all, save_if_due};
use stream_rows::{RowReader, SoundRows};
use stream_run::{StreamCall, Watch};
use stream_step::Stream;
use tuple_trace::{Bytes, Gate, NoMemory};

/// A stream after a turn.
#[derive(Drop)]
pub struct Turned {
    pub stream: Stream,
    /// Why there is no next turn, if there is none.
    pub end: Option<End>,
}

/// Why a stream takes no more rows.
#[derive(Clone, Copy, Debug, PartialEq, Eq)]
pub enum End {
    /// Its input has ended.
    Input,
    /// Its input has this fault, behind all rows that were taken.
    Fault(Fault),
}

/// Takes what came of the input since the last turn, and waits for it if there is nothing yet.
///
/// First it takes what was appended to the requests, then it runs the rows. The savepoint is
/// written if it is due.
pub fn turn<R, L: Lanes + Sync, G: Gate + Sync, T: Tap, S: GrowingShelf, W: Watch>(
    call: &StreamCall<'_, R, L, G>,
    stream: Stream,
    inputs: &mut StreamInputs,
    tap: &mut T,
    shelf: &mut S,
    watch: &mut W,
) -> Result<Turned, Fault>
where
    R: Threads + Wait + Sync,
    requires ready { CanTakeTurn call.now.source call.now.every stream inputs.old }
    requires closed { (S.state shelf.old).draft ≡ None }
    requires stands { Stands call.now.behind call.now.names stream (S.state shelf.old).files }
    ensures ready { IfOk result (λ turned.
        CanTakeTurn call.now.source call.now.every turned.stream inputs.new) }
    ensures goes { IfOk result (λ turned. (rows : List Row) × Goes call.now.names rows stream
        (S.state shelf.old).files turned.stream (S.state shelf.new).files) }
    ensures stands { IfOk result (λ turned. Stands call.now.behind call.now.names turned.stream
        (S.state shelf.new).files) }
    ensures taken { IfOk result (λ turned. TakesTurns call.now.names
        (at stream (S.state shelf.old).files inputs.old (T.state tap.old)) turned.end
        (at turned.stream (S.state shelf.new).files inputs.new (T.state tap.new))) }
    ensures stopped { OnErr result (GoesAndStops call.now.names stream
        (S.state shelf.old).files (S.state shelf.new).files) }
    ensures closed { (S.state shelf.new).draft ≡ None }
    ensures writes { OnOk result
        ((S.state shelf.new).faults.writes ≡ (S.state shelf.old).faults.writes) }
    ensures cause { IfErr result (IsGivenUp call.now.names
        (S.state shelf.old).faults (S.state shelf.new).faults) }
{
    later_requests_are_judged_later();
    match read_piece(&mut inputs.pieces, tap)? {
        Piece::Bytes(bytes) => {
            let stream = take_later(call, stream, inputs, shelf, watch)?;
            run_piece(call, stream, inputs, bytes.as_slice(), shelf, watch)
        }
        Piece::End => Ok(Turned {
            stream,
            end: Some(end_of(&inputs.reader)),
        }),
        Piece::Fault(fault) => Ok(Turned {
            stream,
            end: Some(End::Fault(fault)),
        }),
    }
}

// What a read of the input gives.
#[derive(Drop)]
enum Piece {
    Bytes(Bytes),
    End,
    Fault(Fault),
}

fn read_piece<T: Tap>(pieces: &mut Pieces, tap: &mut T) -> Result<Piece, NoMemory>
    ensures { IfOk result (IsPiece (T.state tap.old) (T.state tap.new) pieces.old pieces.new) }
{
    if pieces.is_over() {
        return Ok(Piece::End);
    }
    match pieces.next_piece(tap) {
        Ok(Some(bytes)) => Ok(Piece::Bytes(bytes)),
        Ok(None) => Ok(Piece::End),
        Err(PieceFault::Failed) => Ok(Piece::Fault(Fault::Read(FileIs::Payments))),
        Err(PieceFault::Long) => Ok(Piece::Fault(Fault::Long(FileIs::Payments))),
        Err(PieceFault::NoMemory) => Err(NoMemory),
    }
}

// The end of an input: it has to have a header.
fn end_of(reader: &RowReader) -> End
    ensures { result ≡ unwrap_or (end_by (end_fault reader.now)) End.Input }
{
    end_for(reader.at_end()).unwrap_or(End::Input)
}

// The end of a stream after rows that this fault follows, if one does.
fn end_for(fault: Option<PFault>) -> Option<End>
    ensures { result ≡ end_by fault }
{
    fault.map(|why| End::Fault(Fault::Payments(why)))
}

// Runs the rows of a piece that weren't run before a savepoint.
fn run_piece<R, L: Lanes + Sync, G: Gate + Sync, S: GrowingShelf, W: Watch>(
    call: &StreamCall<'_, R, L, G>,
    stream: Stream,
    inputs: &mut StreamInputs,
    piece: &[u8],
    shelf: &mut S,
    watch: &mut W,
) -> Result<Turned, Fault>
where
    R: Threads + Wait + Sync,
    requires ready { CanTakeTurn call.now.source call.now.every stream inputs.old }
    requires closed { (S.state shelf.old).draft ≡ None }
    requires stands { Stands call.now.behind call.now.names stream (S.state shelf.old).files }
    ensures ready { IfOk result (λ turned.
        CanTakeTurn call.now.source call.now.every turned.stream inputs.new) }
    ensures goes { IfOk result (λ turned. (rows : List Row) × Goes call.now.names rows stream
        (S.state shelf.old).files turned.stream (S.state shelf.new).files) }
    ensures stands { IfOk result (λ turned. Stands call.now.behind call.now.names turned.stream
        (S.state shelf.new).files) }
    ensures ran { IfOk result (λ turned. (tap : TapState) (skipped : ℕ) (text : List ℕ)
        → IsReadTo (job_view stream.setup.job) skipped inputs.old.reader text
        → IsCut default_config text → HasRunText call.now.names skipped (text ++ piece.now)
        (at stream (S.state shelf.old).files inputs.old tap) turned.end
        (at turned.stream (S.state shelf.new).files inputs.new tap)) }
    ensures stopped { OnErr result (GoesAndStops call.now.names stream
        (S.state shelf.old).files (S.state shelf.new).files) }
    ensures closed { (S.state shelf.new).draft ≡ None }
    ensures faults { OnOk result ((S.state shelf.new).faults ≡ (S.state shelf.old).faults) }
    ensures cause { IfErr result (IsUnwritten call.now.names
        (S.state shelf.old).faults (S.state shelf.new).faults) }
{
    let fed = inputs.reader.fed();
    let SoundRows { rows, fault } = inputs
        .reader
        .read(call.host.alloc, &stream.setup.job, piece)?;
    let rows = rows_after(rows.as_slice(), fed, stream.start.row);
    let stream = run_all(call, stream, &mut inputs.books, rows, shelf, watch)?;
    let stream = save_if_due(call, stream, &mut inputs.books, shelf, watch)?;
    Ok(Turned {
        stream,
        end: end_for(fault),
    })
}
