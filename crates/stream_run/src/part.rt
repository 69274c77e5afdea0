// A part of a stream, run by an engine.
ghost use Rattle.std.specs.Prelude.{◌≡◌, ◌+◌, ◌++◌, ◌<◌, ◌^◌, IfOk, IsTrue, List, length, map};
ghost use Rattle.std.specs.Prelude.{nat_le};
ghost use Rattle.std.specs.List.{list_all};
ghost use Rattle.jobs.specs.Job.{job_view};
ghost use Rattle.jobs.specs.Nodes.{AreFromSources, IsSourceOf, worker_count};
ghost use Rattle.tuple_trace.specs.FeedRows.{AreRowsAfter, blanks};
ghost use Rattle.versions.specs.Judged.{AreAccepted};
ghost use Rattle.versions.specs.declared.request.Request.{Request};
ghost use Rattle.flow_model.specs.Record.{record_view};
ghost use Rattle.flow_model.specs.Workers.{workers_in};
ghost use Rattle.savepoint.specs.Parts.{start_of};
ghost use Rattle.stream_step.specs.Parts.{IsRunOn, due_in, left_by_parts};
ghost use Rattle.stream_step.specs.Pending.{AreAsked, SplitWithin, lifted};

use flow_engine::{Engine, run_from};
use flow_model::RunRecord;
use lane_core::Lanes;
use std::sync::Wait;
use std::thread::Threads;
use stream_step::{NextPart, Stream};
use tuple_trace::{FeedRows, Gate, NoMemory, Row};
use versions::Requests;

/// A part that was run: its record, and the requests that wait for a later part.
#[derive(Drop)]
pub struct PartRan {
    pub ran: RunRecord,
    /// The number of the part's last row, in the stream.
    pub last: u64,
    pub pending: Requests,
    /// How many requests were issued when the stream became exact, if it is.
    pub exact: Option<u64>,
    ghost due: { IsTrue (list_all (λ (request : Request). nat_le request.after last)
        ran.setup.judged.accepted) },
    ghost accepted: { AreAccepted (job_view ran.setup.job)
        (ran.setup.judged.accepted ++ map (lifted last) pending) },
    ghost splits: { SplitWithin ran.setup.splits pending },
    ghost states: { length ran.states ≡ length (workers_in (job_view ran.setup.job)) },
    ghost journals: { length ran.journals ≡ worker_count ran.setup.job.nodes },
}

impl PartRan {
    /// The stream after the part. Its counts are moved there. Takes no memory.
    pub fn go_on(self) -> Stream
        ensures setup { result.setup ≡ self.ran.setup }
        ensures start { result.start ≡ start_of self.last (record_view self.ran) }
        ensures pending { result.pending ≡ self.pending }
        ensures exact { result.exact ≡ self.exact }
    {
        let PartRan {
            ran,
            last,
            pending,
            exact,
        } = self;
        Stream::after_part(ran, last, pending, exact)
    }
}

/// Runs the next rows of a stream. They are numbered on after those that were fed, and enter by
/// sources of the job, of which one has the number `source`.
///
/// Whatever the stream has run before, it is one run with this part. The one error is out of
/// memory; it gives up the stream.
pub fn run_part<R, L: Lanes + Sync, G: Gate + Sync>(
    engine: &Engine<'_, R, L, G>,
    stream: Stream,
    rows: &[Row],
    source: u32,
) -> Result<PartRan, NoMemory>
where
    R: Threads + Wait + Sync,
    requires numbered { AreRowsAfter stream.start.row rows.now }
    requires few { stream.start.row + length rows.now < 2 ^ 63 }
    requires sources { AreFromSources (job_view stream.setup.job) rows.now }
    requires source { IsSourceOf (job_view stream.setup.job) source }
    ensures run { IfOk result (λ part. IsRunOn stream
        (map (lifted stream.start.row) (due_in stream part.last))
        (blanks source stream.start.row ++ rows.now) part.ran.setup (record_view part.ran)) }
    ensures last { IfOk result (λ part. part.last ≡ stream.start.row + length rows.now) }
    ensures pending { IfOk result (λ part.
        part.pending ≡ left_by_parts stream part.last) }
    ensures exact { IfOk result (λ part. part.exact ≡ stream.exact) }
    ensures refused { IfOk result (λ part.
        part.ran.setup.judged.refused ≡ stream.setup.judged.refused) }
    ensures asked { IfOk result (λ part. (all : List Request)
        → AreAsked (job_view stream.setup.job) stream.setup.judged.accepted stream.pending all
        → AreAsked (job_view part.ran.setup.job) part.ran.setup.judged.accepted part.pending
        all) }
{
    let fed = stream.start.row;
    let exact = stream.exact;
    let last = fed + rows.len() as u64;
    let NextPart {
        setup,
        start,
        pending,
        last,
    } = stream.next_part(engine.alloc, last)?;
    let rows = FeedRows::behind(rows, fed as usize, source);
    rows.are_numbered();
    let flown = run_from(engine, setup, &rows, start)?;
    let ran = flown.record(engine.alloc)?;
    Ok(PartRan {
        ran,
        last,
        pending,
        exact,
    })
}
