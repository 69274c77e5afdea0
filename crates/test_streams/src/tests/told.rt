// A part of a stream is run, written and told.
ghost use Rattle.std.specs.Prelude.{◌≡◌, ◌<◌, ◌^◌, None, Some, length};
ghost use Rattle.jobs.specs.Job.{job_view};
ghost use Rattle.jobs.specs.Nodes.{AreFromSources, IsSourceOf};
ghost use Rattle.payments.specs.Memory.{draft_of};
ghost use Rattle.tuple_trace.specs.FeedRows.{AreRowsAfter};

use crate::tests::parts::begun;
use fries_lines::Fault;
use lane_ring::RingLanes;
use payments::{Calls, GrowingShelf, MemoryShelf};
use std::alloc::Global;
use std::process::Abort;
use std::sync::Wait;
use std::thread::Threads;
use stream_rows::RowReader;
use stream_run::{
    Books, PartEnd, StreamCall, StreamHost, StreamNames, Tally, Watch, run_rows, save_stream,
};
use stream_step::Stream;
use tuple_trace::{OpenGate, Row, Word};

/// A source before a sink.
const JOB: &str = r#"columns = ["account:text"]
[[node]]
name = "card"
kind = "source"
[[node]]
name = "out"
kind = "sink"
columns = ["account"]
[[edge]]
from = "card"
to = "out"
"#;

/// Three payments.
const PAYMENTS: &str = "source,account\ncard,ann\ncard,bob\ncard,cid\n";

/// Counts what it is told.
#[derive(Drop)]
struct Counter {
    ended: u64,
    saved: u64,
    alerts: u64,
}

impl Watch for Counter {
    fn part_ended<S: GrowingShelf>(&mut self, _shelf: &S, end: &PartEnd<'_>) {
        self.ended = self.ended.saturating_add(1);
        self.alerts = end.alerts;
    }

    fn saved<S: GrowingShelf>(&mut self, _shelf: &S, _end: &PartEnd<'_>) {
        self.saved = self.saved.saturating_add(1);
    }

    fn skipped(&mut self, _fault: Fault) {}
}

/// The files of a stream, by their names.
#[derive(Drop)]
struct FileWords {
    requests: Word,
    alerts: Word,
    audit: Word,
    save: Word,
}

fn word(rt: &impl Abort, alloc: Global, text: &str) -> Word {
    Word::from_string(String::from_str(alloc, text).expect(rt, "memory"))
}

fn file_words(rt: &impl Abort, alloc: Global) -> FileWords {
    FileWords {
        requests: word(rt, alloc, "requests"),
        alerts: word(rt, alloc, "alerts"),
        audit: word(rt, alloc, "audit"),
        save: word(rt, alloc, "save"),
    }
}

/// Runs rows as one part, and writes a savepoint.
fn run_one<R>(
    call: &StreamCall<'_, R, RingLanes, OpenGate>,
    stream: Stream,
    rows: &[Row],
    shelf: &mut MemoryShelf,
    counter: &mut Counter,
)
where
    R: Threads + Wait + Abort + Sync,
    requires first { stream.start.row ≡ 0 }
    requires behind { call.now.behind ≡ Some 0 }
    requires numbered { AreRowsAfter 0 rows.now }
    requires few { length rows.now < 2 ^ 63 }
    requires sources { AreFromSources (job_view stream.setup.job) rows.now }
    requires source { IsSourceOf (job_view stream.setup.job) call.now.source }
    requires closed { draft_of shelf.old ≡ None }
{
    let rt = call.host.rt;
    let mut books = Books {
        refused: Vec::new(call.host.alloc),
        read: 0,
        tally: Tally {
            alerts: 0,
            audit: 0,
            unsaved: 0,
            shown: 0,
        },
    };
    let ran = run_rows(call, stream, &mut books, rows, shelf, counter).expect(rt, "a part");
    let _saved = save_stream(call, ran, &mut books, shelf, counter).expect(rt, "a savepoint");
}

/// Runs the three payments on two threads.
fn run_payments<'a, R>(
    rt: &'a R,
    alloc: Global,
    words: &'a FileWords,
    shelf: &mut MemoryShelf,
    counter: &mut Counter,
)
where
    R: Threads + Wait + Abort + Sync,
    requires closed { draft_of shelf.old ≡ None }
{
    let stream = begun(rt, alloc, JOB, "");
    let mut reader = RowReader::new();
    let sound = reader
        .read(alloc, &stream.setup.job, PAYMENTS.as_bytes())
        .expect(rt, "memory");
    let rows = sound.rows.as_slice();
    let source = rows.first().expect(rt, "a row").source;
    let call = StreamCall {
        host: StreamHost {
            rt,
            alloc,
            form: &RingLanes,
            gate: &OpenGate,
            threads: 2,
            capacity: 16,
        },
        names: StreamNames {
            requests: &words.requests,
            alerts: &words.alerts,
            audit: &words.audit,
            save: &words.save,
        },
        every: Some(1),
        behind: Some(0),
        source,
    };
    run_one(&call, stream, rows, shelf, counter);
}

/// Whether a file holds this text.
fn holds(shelf: &MemoryShelf, name: &Word, text: &str) -> bool {
    match shelf.get(name) {
        Some(bytes) => bytes.as_slice() == text.as_bytes(),
        None => false,
    }
}

/// What the feeder and the one worker did.
const AUDIT: &str = "fed,,,,1,\nfed,,,,2,\nfed,,,,3,\nstopped,,,,,\nmet,out,0,0,1,\n\
    met,out,0,0,2,\nmet,out,0,0,3,\nended,out,0,0,,\n";

/// Whether the shelf holds the alerts, the audit and the savepoint after the part. The watch was
/// told of both once, and that the file of the alerts has 30 bytes.
fn is_told(shelf: &MemoryShelf, words: &FileWords, counter: &Counter) -> bool {
    counter.ended == 1
        && counter.saved == 1
        && counter.alerts == 30
        && holds(shelf, &words.alerts, "out,1,ann\nout,2,bob\nout,3,cid\n")
        && holds(shelf, &words.audit, AUDIT)
        && holds(shelf, &words.save, "fries,stream,3,0,0,30,104\n")
}

#[test]
fn a_part_is_told(rt: HostRuntime) {
    let words = file_words(&rt, rt.alloc());
    let mut shelf = MemoryShelf::new(rt.alloc(), 5, Calls::new(rt.alloc()));
    let mut counter = Counter {
        ended: 0,
        saved: 0,
        alerts: 0,
    };
    run_payments(&rt, rt.alloc(), &words, &mut shelf, &mut counter);
    assert!(rt; is_told(&shelf, &words, &counter));
}
