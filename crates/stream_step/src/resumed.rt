// A stream that goes on from its savepoint.
ghost use Rattle.std.specs.Prelude.{◌≡◌, ◌≢◌, ◌<◌, ◌≤◌, ◌+◌, IfErr, IfOk, OnOk, drop};
ghost use Rattle.std.specs.Prelude.{length, take};
ghost use Rattle.jobs.specs.Job.{job_view};
ghost use Rattle.versions.specs.Judged.{AreAccepted};
ghost use Rattle.versions.specs.Kept.{AreInOrder};
ghost use Rattle.flow_model.specs.Setup.{setup_view};
ghost use Rattle.flow_model.specs.Waiting.{waiting_for, with_afters};
ghost use Rattle.flow_model.specs.Workers.{workers_in};
ghost use Rattle.savepoint.specs.Parts.{first_of as first_of_is};
ghost use Rattle.stream_save.specs.StreamReading.{AreWaits, CanSaveStream};
ghost use Rattle.stream_step.specs.Pending.{AreAsked, exact_from};
ghost use Rattle.stream_step.specs.Resumed.{IsResumed};

use crate::mode::{StreamMode, exact_from as from_here};
use crate::stream::{Stream, copies};
use flow_model::{Setup, Start};
use operators::Job;
use savepoint::first_of;
use std::alloc::Global;
use std::mem;
use stream_save::{StreamSave, StreamSaveFault};
use versions::{
    Judged, Refusals, Requests, accepted_requests_are_in_order, accepted_requests_may_wait,
};

impl Stream {
    /// The stream that goes on from its savepoint.
    ///
    /// `judged` is the judging of the requests that the savepoint counts as read. Of the accepted
    /// ones, the first were issued, as many as the savepoint turned, each after the row of its
    /// wait. The others are pending, as they were asked.
    ///
    /// # Errors
    ///
    /// [`StreamSaveFault::Count`] if the savepoint turned more requests than were accepted. It
    /// names the record of the first wait that has no request. Else out of memory. Both give up the
    /// job, its requests and the savepoint.
    pub fn resume(
        alloc: Global,
        job: Job,
        judged: Judged,
        mode: StreamMode,
        save: StreamSave,
    ) -> Result<Stream, StreamSaveFault>
        requires accepted { AreAccepted (job_view job) judged.accepted }
        requires saved { CanSaveStream (job_view job) save }
        ensures resumed { IfOk result (λ stream. IsResumed (job_view job) judged.accepted mode.ordered
            save (setup_view stream.setup)) }
        ensures refused { IfOk result (λ stream.
            stream.setup.judged.refused ≡ judged.refused) }
        ensures start { IfOk result (λ stream. stream.start ≡ save.start) }
        ensures pending { IfOk result (λ stream.
            stream.pending ≡ drop save.start.turned judged.accepted) }
        ensures exact { IfOk result (λ stream. stream.exact
            ≡ exact_from mode.exact stream.start.turned) }
        ensures asked { IfOk result (λ stream. AreAsked (job_view stream.setup.job)
            stream.setup.judged.accepted stream.pending judged.accepted) }
        ensures enough { OnOk result (save.start.turned ≤ length judged.accepted) }
        ensures fault { IfErr result (λ fault. fault ≢ StreamSaveFault.NoMemory →
            (length judged.accepted < save.start.turned)
            × (fault ≡ StreamSaveFault.Count (length judged.accepted + 1))) }
    {
        let StreamSave { start, waits, .. } = save;
        let accepted = judged.accepted.len() as u64;
        if start.turned > accepted {
            return Err(StreamSaveFault::Count(accepted + 1));
        }
        let setup = Setup::make_for_stream(alloc, job, judged, mode.ordered)?;
        let later = &setup.judged.accepted.as_slice()[start.turned as usize..];
        let pending = copies(alloc, later)?;
        let exact = from_here(mode.exact, start.turned);
        Ok(resumed(alloc, setup, start, waits.as_slice(), pending, exact))
    }
}

// The stream with the first requests of a setup, which wait for these rows, and the others pending.
// Takes no memory.
fn resumed(
    alloc: Global,
    setup: Setup,
    start: Start,
    waits: &[u64],
    pending: Requests,
    exact: Option<u64>,
) -> Stream
    requires turned { start.turned ≤ length setup.judged.accepted }
    requires states { length start.states ≡ length (workers_in (job_view setup.job)) }
    requires one_each { start.turned ≡ length waits.now }
    requires waits { AreWaits start.row 0 waits.now }
    requires pending { pending ≡ drop start.turned setup.judged.accepted }
    ensures setup { setup_view result.setup
        ≡ waiting_for waits.now (first_of_is (setup_view setup) start.turned) }
    ensures refused { result.setup.judged.refused ≡ setup.judged.refused }
    ensures start { result.start ≡ start }
    ensures pending { result.pending ≡ pending }
    ensures exact { result.exact ≡ exact }
    ensures asked { AreAsked (job_view result.setup.job) result.setup.judged.accepted
        result.pending setup.judged.accepted }
{
    accepted_requests_are_in_order();
    accepted_requests_may_wait();
    Stream {
        setup: issued(alloc, setup, start.turned, waits),
        start,
        pending,
        exact,
    }
}

// The setup with its first requests, which wait for these rows. Takes no memory.
fn issued(alloc: Global, setup: Setup, turned: u64, waits: &[u64]) -> Setup
    requires turned { turned ≤ length setup.judged.accepted }
    requires one_each { turned ≡ length waits.now }
    requires in_order { AreInOrder 0
        (with_afters waits.now (take turned setup.judged.accepted)) }
    ensures view { setup_view result
        ≡ waiting_for waits.now (first_of_is (setup_view setup) turned) }
    ensures refused { result.judged.refused ≡ setup.judged.refused }
{
    let mut cut = first_of(setup, turned);
    let refused = mem::replace(&mut cut.judged.refused, Refusals::new(alloc));
    let mut made = cut.waiting_for(waits);
    made.judged.refused = refused;
    made
}
