// A later reading of the file of requests.
ghost use Rattle.std.specs.Prelude.{◌≡◌, IfOk};
ghost use Rattle.job_file.specs.RequestSizes.{AreUpTo};
ghost use Rattle.versions.specs.declared.limits.TheConstants.{MAX_STREAM_REQUESTS};
ghost use Rattle.stream_intake.specs.Intake.{IsKnownTo};
ghost use Rattle.stream_turns.specs.Later.{TakesBytes, TakesFile, TakesFound};

use crate::inputs::StreamInputs;
use fries_lines::{Fault, FileIs};
use fries_steps::read_file;
use job_file::{ReqFileFault, read_requests_up_to};
use payments::GrowingShelf;
use std::alloc::Global;
use stream_intake::{Taken, take};
use stream_run::{StreamCall, Watch};
use stream_step::Stream;
use tuple_trace::{Bytes, NoMemory};
use versions::{MAX_STREAM_REQUESTS, Requests};

/// Reads the file of requests again, and takes what it has beyond the known ones.
///
/// A reading with a fault is skipped, and told to the watch once. The one error is out of memory;
/// it gives up the stream.
pub fn take_later<R, L, G, S: GrowingShelf, W: Watch>(
    call: &StreamCall<'_, R, L, G>,
    stream: Stream,
    inputs: &mut StreamInputs,
    shelf: &mut S,
    watch: &mut W,
) -> Result<Stream, NoMemory>
    requires known { IsKnownTo inputs.old.known.requests stream }
    ensures taken { IfOk result (λ next. TakesFile (S.state shelf.old).files
        call.now.names.requests (S.state shelf.old).faults (S.state shelf.new).faults
        inputs.old stream inputs.new next) }
    ensures known { IfOk result (λ next. IsKnownTo inputs.new.known.requests next) }
    ensures setup { IfOk result (λ next. next.setup ≡ stream.setup) }
    ensures start { IfOk result (λ next. next.start ≡ stream.start) }
    ensures exact { IfOk result (λ next. next.exact ≡ stream.exact) }
    ensures pieces { inputs.new.pieces ≡ inputs.old.pieces }
    ensures reader { inputs.new.reader ≡ inputs.old.reader }
    ensures tally { inputs.new.books.tally ≡ inputs.old.books.tally }
    ensures files { (S.state shelf.new).files ≡ (S.state shelf.old).files }
    ensures draft { (S.state shelf.new).draft ≡ (S.state shelf.old).draft }
    ensures writes { (S.state shelf.new).faults.writes ≡ (S.state shelf.old).faults.writes }
{
    let alloc = call.host.alloc;
    match read_file(alloc, FileIs::Requests, call.names.requests, shelf) {
        Ok(bytes) => take_bytes(alloc, stream, inputs, bytes, watch),
        Err(Fault::NoMemory) => Err(NoMemory),
        Err(fault) => {
            watch.skipped(fault);
            Ok(stream)
        }
    }
}

// Takes what these bytes have, if they aren't those that were last looked at.
fn take_bytes<W: Watch>(
    alloc: Global,
    stream: Stream,
    inputs: &mut StreamInputs,
    bytes: Bytes,
    watch: &mut W,
) -> Result<Stream, NoMemory>
    requires known { IsKnownTo inputs.old.known.requests stream }
    ensures taken { IfOk result (λ next. TakesBytes bytes inputs.old stream inputs.new next) }
    ensures known { IfOk result (λ next. IsKnownTo inputs.new.known.requests next) }
    ensures setup { IfOk result (λ next. next.setup ≡ stream.setup) }
    ensures start { IfOk result (λ next. next.start ≡ stream.start) }
    ensures exact { IfOk result (λ next. next.exact ≡ stream.exact) }
    ensures pieces { inputs.new.pieces ≡ inputs.old.pieces }
    ensures reader { inputs.new.reader ≡ inputs.old.reader }
    ensures tally { inputs.new.books.tally ≡ inputs.old.books.tally }
{
    if bytes.as_slice() == inputs.seen.as_slice() {
        return Ok(stream);
    }
    let found = read_requests_up_to(
        alloc,
        &stream.setup.job,
        bytes.as_slice(),
        MAX_STREAM_REQUESTS,
    );
    inputs.seen = bytes;
    match found {
        Ok(found) => take_found(alloc, stream, inputs, found),
        Err(ReqFileFault::NoMemory) => Err(NoMemory),
        Err(fault) => {
            watch.skipped(Fault::Requests(fault));
            Ok(stream)
        }
    }
}

// Takes the requests of a reading that the known ones haven't.
fn take_found(
    alloc: Global,
    stream: Stream,
    inputs: &mut StreamInputs,
    found: Requests,
) -> Result<Stream, NoMemory>
    requires known { IsKnownTo inputs.old.known.requests stream }
    requires few { AreUpTo MAX_STREAM_REQUESTS found }
    ensures taken { IfOk result (λ next. TakesFound found inputs.old stream inputs.new next) }
    ensures known { IfOk result (λ next. IsKnownTo inputs.new.known.requests next) }
    ensures setup { IfOk result (λ next. next.setup ≡ stream.setup) }
    ensures start { IfOk result (λ next. next.start ≡ stream.start) }
    ensures exact { IfOk result (λ next. next.exact ≡ stream.exact) }
    ensures pieces { inputs.new.pieces ≡ inputs.old.pieces }
    ensures reader { inputs.new.reader ≡ inputs.old.reader }
    ensures tally { inputs.new.books.tally ≡ inputs.old.books.tally }
{
    let Taken { stream, refused } = take(alloc, stream, &mut inputs.known, found)?;
    inputs.note(alloc, &refused)?;
    Ok(stream)
}
