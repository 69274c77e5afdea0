// The end of a run: workers are taken apart, and lanes are settled.
ghost use Rattle.std.specs.Prelude.{◌≡◌, ◌≤◌, IfOk, List, length, map};
ghost use Rattle.tuple_trace.specs.declared.row.Row.{Row as RowIs};
ghost use Rattle.flow_model.specs.Begin.{Begin};
ghost use Rattle.flow_model.specs.SetupView.{SetupView};
ghost use Rattle.flow_model.specs.Run.{IsRunSince};
ghost use Rattle.flow_model.specs.Setup.{setup_view};
ghost use Rattle.flow_worker.specs.Pairs.{EachOne};
ghost use Rattle.flow_worker.specs.Turning.{IsDone};
ghost use Rattle.flow_worker.specs.Worker.{WorkerIs};
ghost use Rattle.flow_crew.specs.Ended.{IsOver, record_of, worked_of};
ghost use Rattle.flow_crew.specs.Sides.{worker_side};

use crate::{Side, settle_all};
use coordinator::FeedParts;
use flow_model::Setup;
use flow_worker::{Parts, Worked, Worker};
use lane_core::Lanes;
use sink_journal::Feeds;
use std::alloc::Global;
use tuple_trace::NoMemory;

/// What a run leaves.
#[derive(Drop)]
pub struct Ended<L: Lanes> {
    /// What the feeder did, in order.
    pub feeds: Feeds,
    /// What the workers leave, by their numbers.
    pub workers: Vec<Worked<L>>,
}

/// Takes apart the workers of a run, which are done, and settles each lane. `setup` is that of the
/// run. `workers` stand in the order of their numbers. `feeder` is what the feeder leaves, which
/// has stopped.
///
/// The one error is out of memory. It gives workers and endpoints up.
pub fn end_run<L: Lanes>(
    alloc: Global,
    form: &L,
    need: &mut L::Need,
    setup: &Setup,
    workers: Vec<Worker<L>>,
    feeder: FeedParts<L>,
) -> Result<Ended<L>, NoMemory>
    requires over { (ran : SetupView) × (begin : Begin) × (rows : List RowIs)
        × (ran.job ≡ (setup_view setup.now).job)
        × IsOver ran begin rows workers.items feeder.feeds (map L.Tx.state feeder.outs.items) }
    ensures feeds { IfOk result (λ ended. ended.feeds ≡ feeder.feeds) }
    ensures workers { IfOk result (λ ended. ended.workers.items ≡ map worked_of workers.items) }
    ensures run { IfOk result (λ ended. (ran : SetupView) (begin : Begin) (rows : List RowIs)
        → ran.job ≡ (setup_view setup.now).job
        → IsOver ran begin rows workers.items feeder.feeds (map L.Tx.state feeder.outs.items)
        → IsRunSince begin ran rows (record_of ran ended.feeds ended.workers.items)) }
{
    let FeedParts { feeds, outs } = feeder;
    let (workers, sides) = finish_all(alloc, workers)?;
    settle_all(alloc, form, need, setup, sides, outs)?;
    Ok(Ended { feeds, workers })
}

type Finished<L> = (Vec<Worked<L>>, Vec<Side<L>>);

// Takes workers apart that are done.
fn finish_all<L: Lanes>(alloc: Global, workers: Vec<Worker<L>>) -> Result<Finished<L>, NoMemory>
    requires done { EachOne IsDone workers.items }
    requires room_in { EachOne (λ (w : WorkerIs). length w.ins ≤ w.spare_in) workers.items }
    requires room_out { EachOne (λ (w : WorkerIs). length w.outs ≤ w.spare_out) workers.items }
    ensures workers { IfOk result (λ all. all.0.items ≡ map worked_of workers.items) }
    ensures sides { IfOk result (λ all. all.1.items ≡ map worker_side workers.items) }
{
    let mut finished = Vec::new(alloc);
    let mut sides = Vec::new(alloc);
    for worker in workers {
        let Parts { worked, ins, outs } = worker.finish();
        finished.push(worked)?;
        sides.push(Side::of(ins, outs))?;
    }
    Ok((finished, sides))
}
