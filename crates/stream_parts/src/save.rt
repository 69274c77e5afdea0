ghost use Rattle.std.specs.Prelude.{◌≡◌, ◌<◌, [], IfErr, IfOk, IfSome, None, OnErr, OnOk, max};
ghost use Rattle.stream_run.specs.Growing.{Goes, IsBooked};
ghost use Rattle.stream_run.specs.Standing.{FileHolds, Stands, saved_text};
ghost use Rattle.stream_run.specs.Unwritten.{IsUnwritten};

use fries_lines::Fault;
use payments::GrowingShelf;
use stream_run::{Books, StreamCall, Watch, save_stream};
use stream_step::Stream;

/// Writes the savepoint of a stream if so many rows were run since the last one.
///
/// After an error the file is as before.
pub fn save_if_due<R, L, G, S: GrowingShelf, W: Watch>(
    call: &StreamCall<'_, R, L, G>,
    stream: Stream,
    books: &mut Books,
    shelf: &mut S,
    watch: &mut W,
) -> Result<Stream, Fault>
    requires closed { (S.state shelf.old).draft ≡ None }
    requires stands { Stands call.now.behind call.now.names stream (S.state shelf.old).files }
    ensures same { IfOk result (λ next. next ≡ stream) }
    ensures goes { IfOk result (λ next. (goes : Goes call.now.names [] stream
        (S.state shelf.old).files next (S.state shelf.new).files)
        × IsBooked goes.written books.old books.new) }
    ensures due { OnOk result (IfSome call.now.every (λ every.
        books.new.tally.unsaved < max every 1)) }
    ensures stopped { OnErr result ((S.state shelf.new).files ≡ (S.state shelf.old).files) }
    ensures closed { (S.state shelf.new).draft ≡ None }
    ensures read { books.new.read ≡ books.old.read }
    ensures refused { books.new.refused ≡ books.old.refused }
    ensures faults { OnOk result ((S.state shelf.new).faults ≡ (S.state shelf.old).faults) }
    ensures cause { IfErr result (λ why. IsUnwritten call.now.names
        (S.state shelf.old).faults (S.state shelf.new).faults why) }
{
    match call.every {
        Some(every) if books.tally.unsaved >= every => {
            save_stream(call, stream, books, shelf, watch)
        }
        _ => Ok(stream),
    }
}

/// Writes the savepoint of a stream if one is asked for.
///
/// After an error the file is as before.
pub fn save_if_asked<R, L, G, S: GrowingShelf, W: Watch>(
    call: &StreamCall<'_, R, L, G>,
    stream: Stream,
    books: &mut Books,
    shelf: &mut S,
    watch: &mut W,
) -> Result<Stream, Fault>
    requires closed { (S.state shelf.old).draft ≡ None }
    requires stands { Stands call.now.behind call.now.names stream (S.state shelf.old).files }
    ensures same { IfOk result (λ next. next ≡ stream) }
    ensures goes { IfOk result (λ next. (goes : Goes call.now.names [] stream
        (S.state shelf.old).files next (S.state shelf.new).files)
        × IsBooked goes.written books.old books.new) }
    ensures saved { IfOk result (λ next. IfSome call.now.every (λ every.
        FileHolds (S.state shelf.new).files call.now.names.save (saved_text next
        books.new.read books.new.tally.alerts books.new.tally.audit))) }
    ensures stopped { OnErr result ((S.state shelf.new).files ≡ (S.state shelf.old).files) }
    ensures closed { (S.state shelf.new).draft ≡ None }
    ensures read { books.new.read ≡ books.old.read }
    ensures refused { books.new.refused ≡ books.old.refused }
    ensures faults { OnOk result ((S.state shelf.new).faults ≡ (S.state shelf.old).faults) }
    ensures cause { IfErr result (λ why. IsUnwritten call.now.names
        (S.state shelf.old).faults (S.state shelf.new).faults why) }
{
    match call.every {
        Some(_) => save_stream(call, stream, books, shelf, watch),
        None => Ok(stream),
    }
}
