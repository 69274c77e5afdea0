// A whole run on one thread: the feeder first, and then one worker after another.
ghost use Rattle.std.specs.Prelude.{◌≡◌, IfOk, IfSome, IsTrue, false, map};
ghost use Rattle.jobs.specs.Nodes.{AreFromSources};
ghost use Rattle.flow_model.specs.Begin.{at_first};
ghost use Rattle.flow_model.specs.Run.{IsRun};
ghost use Rattle.flow_model.specs.Setup.{setup_view};
ghost use Rattle.flow_worker.specs.Pairs.{EachOne};
ghost use Rattle.flow_worker.specs.Turning.{IsDone};
ghost use Rattle.flow_worker.specs.Worker.{IsWorker, WorkerIs};
ghost use Rattle.coordinator.specs.Feeding.{IsFeeder};
ghost use Rattle.coordinator.specs.Views.{FeederIs};
ghost use Rattle.lane_core.specs.Lane.{end_of};
ghost use Rattle.flow_crew.specs.Ended.{record_of};
ghost use Rattle.flow_crew.specs.Sides.{lane_ids};

use crate::tests::feeds::inputs;
use coordinator::{FeedTurn, Feeder, Feeding};
use flow_crew::{Crew, Ended, end_run};
use flow_model::Setup;
use flow_worker::{Turn, Worker};
use lane_core::{Lanes, QueueLanes};
use sink_journal::Feed;
use std::alloc::Global;
use test_runs::Case;
use tuple_trace::{FeedRows, NoMemory, OpenGate};

/// Lets the feeder take turns until it has stopped, but at most `turns`.
fn until_stopped<L: Lanes>(
    feeder: Feeder<L>,
    need: &mut L::Need,
    setup: &Setup,
    rows: &FeedRows<'_>,
    turns: u32,
) -> Option<Feeder<L>>
    requires law { IsFeeder false (setup_view setup.now) (at_first (setup_view setup.now)) rows.now
        feeder }
    requires rows { AreFromSources (setup_view setup.now).job rows.now }
    ensures law { IfSome result (IsFeeder false (setup_view setup.now)
        (at_first (setup_view setup.now)) rows.now) }
    ensures stopped { IfSome result (λ (f : FeederIs). IsTrue f.stopped) }
    ensures endpoints { IfSome result (λ (f : FeederIs).
        map end_of f.outs ≡ map end_of feeder.outs) }
{
    let mut feeder = feeder;
    for _turn in 0..turns {
        match feeder.turn(need, setup, rows, &OpenGate) {
            FeedTurn::Done => return Some(feeder),
            FeedTurn::Moved | FeedTurn::Idle | FeedTurn::NoMemory => {}
        }
    }
    None
}

/// Lets a worker take turns until it is done, but at most `turns`.
fn until_done<L: Lanes>(
    worker: Worker<L>,
    need: &mut L::Need,
    setup: &Setup,
    turns: u32,
) -> Option<Worker<L>>
    requires { IsWorker (setup_view setup.now) (at_first (setup_view setup.now)) worker }
    ensures law { IfSome result (IsWorker (setup_view setup.now)
        (at_first (setup_view setup.now))) }
    ensures done { IfSome result IsDone }
    ensures number { IfSome result (λ (w : WorkerIs). w.number ≡ worker.number) }
    ensures lanes { IfSome result (λ (w : WorkerIs). lane_ids w ≡ lane_ids worker) }
{
    let mut worker = worker;
    for _turn in 0..turns {
        match worker.turn(need, setup, &OpenGate) {
            Turn::Done => return Some(worker),
            Turn::Moved | Turn::Idle | Turn::NoMemory => {}
        }
    }
    None
}

/// Lets one worker after another take turns until it is done. Out of memory is `None`, too.
fn all_done<L: Lanes>(
    alloc: Global,
    workers: Vec<Worker<L>>,
    need: &mut L::Need,
    setup: &Setup,
    turns: u32,
) -> Option<Vec<Worker<L>>>
    requires { EachOne (IsWorker (setup_view setup.now) (at_first (setup_view setup.now)))
        workers.items }
    ensures law { IfSome result (λ done.
        EachOne (IsWorker (setup_view setup.now) (at_first (setup_view setup.now))) done.items) }
    ensures done { IfSome result (λ done. EachOne IsDone done.items) }
    ensures number { IfSome result (λ done. map (λ (w : WorkerIs). w.number) done.items
        ≡ map (λ (w : WorkerIs). w.number) workers.items) }
    ensures lanes { IfSome result (λ done. map lane_ids done.items
        ≡ map lane_ids workers.items) }
{
    let mut done = Vec::new(alloc);
    for worker in workers {
        let worker = until_done(worker, need, setup, turns)?;
        let Ok(()) = done.push(worker) else {
            return None;
        };
    }
    Some(done)
}

type Whole<L> = Option<Ended<L>>;

/// What a whole run leaves, if `turns` turns of each are enough.
fn whole<L: Lanes>(
    alloc: Global,
    form: &L,
    setup: &Setup,
    rows: &FeedRows<'_>,
    turns: u32,
) -> Result<Whole<L>, NoMemory>
    requires { AreFromSources (setup_view setup.now).job rows.now }
    ensures { IfOk result (λ whole. IfSome whole (λ ended. IsRun (setup_view setup.now) rows.now
        (record_of (setup_view setup.now) ended.feeds ended.workers.items))) }
{
    let Crew {
        workers,
        posters,
        outs,
    } = Crew::make(alloc, form, setup, 64)?;
    let feeder: Feeder<L> = Feeder::make(alloc, setup, outs, posters, ())?;
    let mut need = form.need();
    let Some(feeder) = until_stopped(feeder, &mut need, setup, rows, turns) else {
        return Ok(None);
    };
    let Some(workers) = all_done(alloc, workers, &mut need, setup, turns) else {
        return Ok(None);
    };
    let (parts, ()) = feeder.finish();
    let ended = end_run(alloc, form, &mut need, setup, workers, parts)?;
    Ok(Some(ended))
}

/// The lengths of the journals that four payments leave: two of them pass the filter.
const LENGTHS: [usize; 2] = [5, 3];

fn leaves_all<L: Lanes>(ended: Ended<L>) -> bool {
    let feed = [
        Feed::Fed(1),
        Feed::Fed(2),
        Feed::Fed(3),
        Feed::Fed(4),
        Feed::Stopped,
    ];
    let Ended { feeds, workers } = ended;
    let mut lengths = LENGTHS.iter();
    let mut same = feeds.as_slice() == feed.as_slice();
    for worker in workers {
        same &= lengths.next() == Some(&worker.open().journal.len());
    }
    same && lengths.next().is_none()
}

fn runs<L: Lanes>(alloc: Global, form: &L) -> bool {
    match inputs("").read(alloc) {
        Some(case) => runs_case(alloc, form, &case),
        None => false,
    }
}

fn runs_case<L: Lanes>(alloc: Global, form: &L, case: &Case) -> bool {
    let rows = FeedRows::all(&case.rows);
    match whole(alloc, form, &case.setup, &rows, 100) {
        Ok(Some(ended)) => leaves_all(ended),
        Ok(None) | Err(_) => false,
    }
}

#[test]
fn four_payments_leave_a_run(rt: HostRuntime) {
    assert!(rt; runs(rt.alloc(), &QueueLanes::new(rt)));
}
