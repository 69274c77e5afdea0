// A run whose requests are released by an input, while rows flow.
ghost use Rattle.std.specs.Prelude.{◌≡◌, ◌≤◌, IfOk, IfSome, None, Option, Some, length};
ghost use Rattle.std.specs.Prelude.{option_copied};
ghost use Rattle.std.specs.Result.{result_err};
ghost use Rattle.jobs.specs.Job.{job_view};
ghost use Rattle.jobs.specs.Nodes.{AreFromSources, worker_count};
ghost use Rattle.job_file.specs.RequestSizes.{AreFew};
ghost use Rattle.flow_model.specs.Setup.{setup_view};
ghost use Rattle.live_control.specs.Hearing.{IsHeard};
ghost use Rattle.fries_words.specs.Asked.{IsSize};
ghost use Rattle.payments.specs.World.{world};
ghost use Rattle.fries_steps.specs.Outcomes.{EndsAfterRun};
ghost use Rattle.fries_steps.specs.Live.{IsLiveRun, live_fault as live_fault_of};
ghost use Rattle.fries_steps.specs.Live.{live_lines as live_lines_of};
ghost use Rattle.fries_steps.specs.Parts.{HasWorkers};
ghost use Rattle.fries_steps.specs.Running.{files_written};
ghost use Rattle.fries_steps.specs.inner.Beside.{IsFlownLive};
ghost use Rattle.fries_lines.specs.declared.fault.Fault.{Fault as FaultIs};

use crate::answer::Answer;
use crate::host::Host;
use crate::running::{Done, Outputs, done_of, files_in, run_lines};
use crate::setup::setup_of;
use crate::writing::{Texts, write_texts};
use flow_engine::{Engine, Flown, run_with};
use flow_model::{Setup, ordered_runs_are_serial, runs_are_consistent};
use fries_lines::{Fault, FileIs, push_refused};
use fries_words::EngineSize;
use jobs::Job;
use lane_ring::RingLanes;
use live_control::{Asks, Heard, Inbox, LiveFeeder, Teller, hear, line, meet};
use payments::{Shelf, Sink};
use std::alloc::Global;
use std::sync::Wait;
use std::thread::{Threads, join_mut};
use text_threads::Team;
use tuple_trace::{Bytes, FeedRows, Gate, NoMemory, Rows};
use versions::{MAX_REQUESTS, Requests};

/// What was run live, and what the reader of releases took.
#[derive(Drop)]
pub struct LiveDone {
    pub done: Done,
    pub heard: Heard,
}

/// Judges the requests, and runs the rows with those that are accepted. Each line feed of the input
/// releases the next of them, while the rows flow.
///
/// The reader stands beside the engine. If no thread can be made for the engine, the reader takes
/// all that it takes before the first row. The one error is out of memory; the reader has taken
/// what it takes then too, or nothing.
pub fn run_live<R, G, Q>(
    host: &Host<'_, R, G>,
    size: EngineSize,
    job: Job,
    requests: &Requests,
    rows: &Rows,
    asks: &mut Q,
) -> Result<LiveDone, NoMemory>
where
    R: Threads + Wait + Copy + Send + Sync + 'static,
    G: Gate + Sync,
    Q: Asks,
    requires size { IsSize size }
    requires few { AreFew requests.now }
    requires sources { AreFromSources (job_view job) rows.now }
    ensures run { IfOk result (IsLiveRun (job_view job) requests.now rows.now (Q.state asks.old)
        (Q.state asks.new)) }
    ensures workers { IfOk result (λ live. HasWorkers live.done) }
{
    let alloc = host.alloc;
    let (mut teller, inbox) = line(alloc)?;
    let setup = setup_of(alloc, job, requests, false)?;
    let most = setup.request_count() as u32;
    let work = Box::new(alloc, Work { setup, inbox })?;
    let mut work = Some(work);
    let lanes = RingLanes;
    let engine = host.engine(&lanes, size);
    let fed = FeedRows::all(rows);
    let (flown, heard) = run_beside(&engine, &mut work, &fed, asks, &mut teller, most);
    let (flown, inbox) = flown?;
    let _met = meet(teller, inbox);
    let ran = flown.record(alloc)?;
    rows.are_numbered();
    runs_are_consistent(&ran.setup);
    ordered_runs_are_serial(&ran.setup, rows);
    let done = done_of(alloc, ran, requests, rows)?;
    Ok(LiveDone { done, heard })
}

/// What an engine runs beside a reader.
#[derive(Drop)]
struct Work {
    setup: Setup,
    inbox: Inbox,
}

type Run = Result<(Flown<RingLanes>, Inbox), NoMemory>;

// The engine on another thread, and the reader on this one. If no thread can be made, the reader
// comes first. The engine takes its work.
fn run_beside<R, G: Gate + Sync, Q: Asks>(
    engine: &Engine<'_, R, RingLanes, G>,
    work: &mut Option<Box<Work>>,
    rows: &FeedRows<'_>,
    asks: &mut Q,
    teller: &mut Teller,
    most: u32,
) -> (Run, Heard)
where
    R: Threads + Wait + Sync,
    requires rows { IfSome work.old (λ w. AreFromSources (setup_view w.value.setup).job rows.now) }
    requires most { most ≤ MAX_REQUESTS }
    requires untold { teller.old.told ≡ 0 }
    ensures flown { IfSome work.old (λ w. IfOk result.0 (λ (flown, rest). IsFlownLive
        w.value.setup w.value.inbox rows.now flown.setup flown.feeds flown.crew.items rest)) }
    ensures heard { IsHeard most (Q.state asks.old) (Q.state asks.new) result.1 }
    ensures told { teller.new ≡ record teller.old { told = result.1.releases } }
{
    join_mut(
        engine.rt,
        &mut || -> Run
            requires rows { IfSome work.now (λ w. AreFromSources
                (setup_view w.value.setup).job rows.now) }
            ensures { IfSome work.entry.now (λ w. IfOk result (λ (flown, rest). IsFlownLive
                w.value.setup w.value.inbox rows.entry.now flown.setup flown.feeds
                flown.crew.items rest)) }
        {
            match work.take() {
                Some(work) => {
                    let Work { setup, inbox } = Box::into_inner(work);
                    run_with::<R, RingLanes, G, LiveFeeder<RingLanes>>(engine, setup, inbox, rows)
                }
                None => Err(NoMemory),
            }
        },
        &mut || -> Heard
            requires most { most ≤ MAX_REQUESTS }
            requires untold { teller.now.told ≡ 0 }
            ensures heard { IsHeard most (Q.state asks.entry.now) (Q.state asks.exit.now)
                result }
            ensures told { teller.exit.now ≡ record teller.entry.now { told = result.releases } }
        { hear(asks, teller, most) },
    )
}

/// Stores the files of a live run, whose texts the team makes, and then prints its lines. The first
/// fault ends it. If the input failed, that comes after all others, and in place of the summary.
pub fn leave_live<R: Threads + Sync, S: Shelf, O: Sink>(
    team: &Team<'_, R>,
    live: LiveDone,
    names: Outputs<'_>,
    shelf: &mut S,
    out: &mut O,
) -> Answer
    requires { HasWorkers live.done }
    ensures outcome { (written : Option FaultIs)
        × EndsAfterRun (files_written names.entry.alerts.now (option_copied names.entry.audit)
        (option_copied names.entry.save) live.done) (live_lines_of live)
        (world (S.state shelf.old) (O.state out.old))
        (world (S.state shelf.new) (O.state out.new)) written
        × (result.fault ≡ live_fault_of live.heard.failed written) }
    ensures refused { result.refused ≡ live.done.refused }
    ensures ran { result.ran ≡ Some live.done.ran }
    ensures start { result.start ≡ None }
{
    let written = write_live(team, &live, names, shelf, out).err();
    let fault = live_fault(live.heard.failed, written);
    Answer::of_run(live.done, fault)
}

// The fault of the input comes last.
fn live_fault(failed: bool, written: Option<Fault>) -> Option<Fault>
    ensures { result ≡ live_fault_of failed written }
{
    match written {
        Some(fault) => Some(fault),
        None if failed => Some(Fault::Read(FileIs::Asks)),
        None => None,
    }
}

fn write_live<R: Threads + Sync, S: Shelf, O: Sink>(
    team: &Team<'_, R>,
    live: &LiveDone,
    names: Outputs<'_>,
    shelf: &mut S,
    out: &mut O,
) -> Result<(), Fault>
    requires { HasWorkers live.now.done }
    ensures { EndsAfterRun
        (files_written names.entry.alerts.now (option_copied names.entry.audit)
        (option_copied names.entry.save) live.now.done) (live_lines_of live.now)
        (world (S.state shelf.old) (O.state out.old))
        (world (S.state shelf.new) (O.state out.new))
        (result_err result) }
{
    let texts = texts_of(team, live, names)?;
    write_texts(&texts, shelf, out)
}

fn texts_of<'a, R: Threads + Sync>(
    team: &Team<'_, R>,
    live: &LiveDone,
    names: Outputs<'a>,
) -> Result<Texts<'a>, NoMemory>
    requires { HasWorkers live.now.done }
    ensures files { IfOk result (λ texts. texts.files.items ≡
        files_written names.entry.alerts.now (option_copied names.entry.audit)
        (option_copied names.entry.save) live.now.done) }
    ensures lines { IfOk result (λ texts. texts.lines ≡ live_lines_of live.now) }
{
    Ok(Texts {
        files: files_in(team, &live.done, names)?,
        lines: live_lines(team.alloc, live)?,
    })
}

// What is printed of a live run: without a summary if the input failed.
fn live_lines(alloc: Global, live: &LiveDone) -> Result<Bytes, NoMemory>
    requires { length live.now.done.ran.journals ≡ worker_count live.now.done.ran.setup.job.nodes }
    ensures { IfOk result (λ lines. lines ≡ live_lines_of live.now) }
{
    if !live.heard.failed {
        return run_lines(alloc, &live.done);
    }
    let mut lines = Bytes::new(alloc);
    push_refused(alloc, live.done.refused.as_slice(), &mut lines)?;
    Ok(lines)
}
