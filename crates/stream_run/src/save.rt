// The savepoint of a stream.
ghost use Rattle.std.specs.Prelude.{◌≡◌, [], IfErr, IfOk, None, OnErr, OnOk};
ghost use Rattle.flow_model.specs.Requests.{afters};
ghost use Rattle.stream_run.specs.Growing.{Goes, IsBooked};
ghost use Rattle.stream_run.specs.Standing.{FileHolds, Stands, saved_text};
ghost use Rattle.stream_run.specs.Unwritten.{IsUnwritten};

use crate::books::Books;
use crate::call::StreamCall;
use crate::files::store_save;
use crate::watch::Watch;
use fries_lines::Fault;
use payments::GrowingShelf;
use std::alloc::Global;
use stream_save::{StreamSave, stream_text};
use stream_step::Stream;
use tuple_trace::{Bytes, Items, NoMemory};
use versions::Request;

/// Writes where a stream is to the file of its savepoint. Then the watch is told.
///
/// After an error the file is as before.
pub fn save_stream<R, L, G, S: GrowingShelf, W: Watch>(
    call: &StreamCall<'_, R, L, G>,
    stream: Stream,
    books: &mut Books,
    shelf: &mut S,
    watch: &mut W,
) -> Result<Stream, Fault>
    requires closed { (S.state shelf.old).draft ≡ None }
    requires stands { Stands call.now.behind call.now.names stream (S.state shelf.old).files }
    ensures same { IfOk result (λ next. next ≡ stream) }
    ensures goes { IfOk result (λ next. (goes : Goes call.now.names [] stream
        (S.state shelf.old).files next (S.state shelf.new).files)
        × IsBooked goes.written books.old books.new) }
    ensures saved { IfOk result (λ next. FileHolds (S.state shelf.new).files call.now.names.save
        (saved_text next books.new.read books.new.tally.alerts books.new.tally.audit)) }
    ensures unsaved { OnOk result (books.new.tally.unsaved ≡ 0) }
    ensures stopped { OnErr result ((S.state shelf.new).files ≡ (S.state shelf.old).files) }
    ensures closed { (S.state shelf.new).draft ≡ None }
    ensures read { books.new.read ≡ books.old.read }
    ensures refused { books.new.refused ≡ books.old.refused }
    ensures faults { OnOk result ((S.state shelf.new).faults ≡ (S.state shelf.old).faults) }
    ensures cause { IfErr result (λ why. IsUnwritten call.now.names
        (S.state shelf.old).faults (S.state shelf.new).faults why) }
{
    let Saved { stream, text } = saved_by(call.host.alloc, stream, books)?;
    store_save(&call.names, text.as_slice(), shelf)?;
    books.tally.unsaved = 0;
    watch.saved(&*shelf, &call.end(&stream, books));
    Ok(stream)
}

// A stream, and the text of its savepoint.
#[derive(Drop)]
struct Saved {
    stream: Stream,
    text: Bytes,
}

fn saved_by(alloc: Global, stream: Stream, books: &Books) -> Result<Saved, NoMemory>
    ensures stream { IfOk result (λ saved. saved.stream ≡ stream) }
    ensures text { IfOk result (λ saved. saved.text
        ≡ saved_text stream books.now.read books.now.tally.alerts books.now.tally.audit) }
{
    let waits = waits_of(alloc, stream.setup.judged.accepted.as_slice())?;
    let Stream {
        setup,
        start,
        pending,
        exact,
    } = stream;
    let save = StreamSave {
        start,
        read: books.read,
        waits,
        alerts: books.tally.alerts,
        audit: books.tally.audit,
    };
    let text = stream_text(alloc, &setup.job, &save)?;
    let StreamSave { start, .. } = save;
    let stream = Stream {
        setup,
        start,
        pending,
        exact,
    };
    Ok(Saved { stream, text })
}

// The rows after which these requests are issued.
fn waits_of(alloc: Global, requests: &[Request]) -> Result<Items<u64>, NoMemory>
    ensures { IfOk result (λ waits. waits ≡ afters requests.now) }
{
    let mut waits = Items::new(alloc);
    for request in requests {
        waits.push(request.after)?;
    }
    Ok(waits)
}
