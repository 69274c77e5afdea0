ghost use Rattle.std.specs.Prelude.{◌≡◌, ◌↔◌, ◌<◌, ◌≤◌, ◌++◌, ◌&&◌, ◌||◌, ℕ, [], IfOk, IfSome};
ghost use Rattle.std.specs.Prelude.{IsTrue, List, None, is_some, length, map, nat_le};
ghost use Rattle.std.specs.Prelude.{slice_get};
ghost use Rattle.std.specs.List.{list_all, list_any};
ghost use Rattle.flow_dag.specs.Masks.{Has};
ghost use Rattle.jobs.specs.Job.{job_view};
ghost use Rattle.versions.specs.Judged.{AreAccepted};
ghost use Rattle.versions.specs.declared.request.Request.{Request as RequestIs};
ghost use Rattle.flow_model.specs.Begin.{at_first};
ghost use Rattle.flow_model.specs.Planned.{may_become_split, splits_at};
ghost use Rattle.flow_model.specs.Setup.{setup_view};
ghost use Rattle.flow_model.specs.Workers.{workers_in};
ghost use Rattle.stream_step.specs.Pending.{AreAsked, SplitWithin, is_due_by, lifted};
ghost use Rattle.stream_step.specs.Pending.{exact_from as exact_from_of};
ghost use Rattle.stream_step.specs.Pending.{first_wait as first_wait_of};

use crate::mode::{StreamMode, exact_from};
use crate::pending::{first_wait, some_due};
use flow_model::{Setup, Start};
use operators::Job;
use savepoint::first_of;
use std::alloc::Global;
use tuple_trace::NoMemory;
use versions::{
    Judged, Request, Requests, accepted_requests_are_in_order, accepted_requests_may_wait,
};

/// What a stream has between two parts.
///
/// Its type keeps that each request of the setup was issued: it waits for no later row than the
/// last that was fed, and the start has turned it. The start has counts for each worker. The
/// pending requests are accepted after those of the setup, also if each waits for the last row that
/// was fed or a later one. They make splits only of nodes that the setup's mask holds.
#[derive(Drop)]
pub struct Stream {
    /// The setup, with the accepted requests that were issued so far.
    pub setup: Setup,
    /// Where the run goes on. Its row is the number of rows that were fed so far.
    pub start: Start,
    /// The accepted requests that weren't issued yet, as they were asked.
    pub pending: Requests,
    /// How many requests were issued when the stream became exact; `None` if it isn't. In an exact
    /// stream, each later request parts the rows: it is issued in a part without a row.
    pub exact: Option<u64>,
    ghost turned: { start.turned ≡ length setup.judged.accepted },
    ghost states: { length start.states ≡ length (workers_in (job_view setup.job)) },
    ghost due: { IsTrue (list_all (λ (request : RequestIs). nat_le request.after start.row)
        setup.judged.accepted) },
    ghost accepted: { AreAccepted (job_view setup.job)
        (setup.judged.accepted ++ map (lifted start.row) pending) },
    ghost within: { SplitWithin setup.splits pending },
}

impl Stream {
    /// A stream of which no row was fed, with the requests of its first reading. All of them are
    /// pending. The one error is out of memory; it gives up the job and its requests.
    ///
    /// The mask of splits is that of a stream: it holds the splits of the job and of these
    /// requests, and the nodes that later requests may make splits.
    pub fn begin(
        alloc: Global,
        job: Job,
        judged: Judged,
        mode: StreamMode,
    ) -> Result<Stream, NoMemory>
        requires { AreAccepted (job_view job) judged.accepted }
        ensures job { IfOk result (λ stream. stream.setup.job ≡ job) }
        ensures ordered { IfOk result (λ stream. stream.setup.ordered ≡ mode.ordered) }
        ensures refused { IfOk result (λ stream.
            stream.setup.judged.refused ≡ judged.refused) }
        ensures none { IfOk result (λ stream. stream.setup.judged.accepted ≡ []) }
        ensures first { IfOk result (λ stream.
            stream.start ≡ at_first (setup_view stream.setup)) }
        ensures pending { IfOk result (λ stream. stream.pending ≡ judged.accepted) }
        ensures exact { IfOk result (λ stream. stream.exact
            ≡ exact_from_of mode.exact stream.start.turned) }
        ensures splits { IfOk result (λ stream. (node : ℕ) → Has stream.setup.splits node
            ↔ IsTrue (splits_at job.nodes judged.accepted node
            || may_become_split (slice_get job.nodes node))) }
    {
        let setup = Setup::make_for_stream(alloc, job, judged, mode.ordered)?;
        let pending = copies(alloc, setup.judged.accepted.as_slice())?;
        let start = Start::first(alloc, &setup)?;
        let exact = exact_from(mode.exact, start.turned);
        Ok(Stream {
            setup: first_of(setup, 0),
            start,
            pending,
            exact,
        })
    }

    /// The stream with more accepted requests, which come after all that it was given before. They
    /// are pending. The one error is out of memory; it gives up the stream.
    ///
    /// They are accepted after the others as all of them were asked.
    pub fn add(self, later: Requests) -> Result<Stream, NoMemory>
        requires accepted { (all : List RequestIs) × AreAsked (job_view self.setup.job)
            self.setup.judged.accepted self.pending all
            × AreAccepted (job_view self.setup.job) (all ++ later) }
        requires splits { SplitWithin self.setup.splits later }
        ensures setup { IfOk result (λ stream. stream.setup ≡ self.setup) }
        ensures start { IfOk result (λ stream. stream.start ≡ self.start) }
        ensures pending { IfOk result (λ stream. stream.pending ≡ self.pending ++ later) }
        ensures exact { IfOk result (λ stream. stream.exact ≡ self.exact) }
        ensures asked { IfOk result (λ stream. (all : List RequestIs)
            → AreAsked (job_view self.setup.job) self.setup.judged.accepted self.pending all
            → AreAccepted (job_view self.setup.job) (all ++ later)
            → AreAsked (job_view stream.setup.job) stream.setup.judged.accepted stream.pending
            (all ++ later)) }
    {
        accepted_requests_are_in_order();
        accepted_requests_may_wait();
        let Stream {
            setup,
            start,
            pending,
            exact,
        } = self;
        let pending = appended(pending, later)?;
        Ok(Stream {
            setup,
            start,
            pending,
            exact,
        })
    }

    /// Whether the next part has to be without a row: the stream is exact, and a pending request
    /// asks for no later row than the last that was fed.
    pub fn has_due(&self) -> bool
        ensures { result ≡ (is_some self.now.exact
            && list_any (is_due_by self.now.start.row) self.now.pending) }
    {
        self.exact.is_some() && some_due(self.pending.as_slice(), self.start.row)
    }

    /// The row up to which the next part goes, of rows up to `last`. In an exact stream it ends at
    /// the first later row that a pending request asks for.
    pub fn part_end(&self, last: u64) -> u64
        ensures any { self.now.exact ≡ None → result ≡ last }
        ensures exact { IfSome self.now.exact (λ base.
            result ≡ first_wait_of self.now.start.row last self.now.pending) }
        ensures later { self.now.start.row < last → self.now.start.row < result }
        ensures within { result ≤ last }
    {
        if self.exact.is_none() {
            return last;
        }
        first_wait(self.pending.as_slice(), self.start.row, last)
    }
}

/// The requests of both lists, one after the other. The one error is out of memory.
pub fn appended(first: Requests, second: Requests) -> Result<Requests, NoMemory>
    ensures { IfOk result (λ both. both ≡ first ++ second) }
{
    let mut both = first.into_vec();
    both.append(&mut second.into_vec())?;
    Ok(Requests::from_vec(both))
}

/// Equal requests. The one error is out of memory.
pub(crate) fn copies(alloc: Global, requests: &[Request]) -> Result<Requests, NoMemory>
    ensures { IfOk result (λ copies. copies ≡ requests.now) }
{
    let mut copies = Requests::new(alloc);
    for request in requests {
        copies.push(request.copy(alloc)?)?;
    }
    Ok(copies)
}
