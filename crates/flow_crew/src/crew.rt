// The workers of a setup, each over its endpoints and with its box.
ghost use Rattle.std.specs.Prelude.{◌≡◌, ℕ, ◌<◌, ◌≤◌, ◌+◌, ◌∷◌, All, IfOk, Some, length, map};
ghost use Rattle.std.specs.Prelude.{slice_get};
ghost use Rattle.std.specs.Vec.Iter.{into_iter_items, into_iter_len};
ghost use Rattle.control_box.specs.Endpoints.{ShareBoxes};
ghost use Rattle.flow_model.specs.Begin.{at_first};
ghost use Rattle.flow_model.specs.Setup.{setup_view};
ghost use Rattle.flow_model.specs.Workers.{workers_in};
ghost use Rattle.flow_worker.specs.Parts.{AreNewEndpoints};
ghost use Rattle.flow_worker.specs.Worker.{WorkerIs};
ghost use Rattle.coordinator.specs.Starts.{AreNewOuts, AreUnused};
ghost use Rattle.flow_crew.specs.Crews.{IsCrew};
ghost use Rattle.flow_crew.specs.Sides.{AreMatched, HoldAtMost, SideIs, worker_side};

use crate::{AllEndpoints, Side};
use control_box::{Poster, make_box};
use flow_model::{Setup, SetupWorker, Start};
use flow_worker::{Worker, WorkerStart};
use keyed_state::Keyed;
use lane_core::Lanes;
use std::alloc::Global;
use std::vec::IntoIter;
use tuple_trace::{MAX_CAPACITY, NoMemory};

/// The workers of a setup, and what its feeder is made of.
#[derive(Drop)]
pub struct Crew<L: Lanes> {
    /// By their numbers.
    pub workers: Vec<Worker<L>>,
    /// The feeder's end of each worker's box, by worker.
    pub posters: Vec<Poster>,
    /// The feeder's sending endpoints, in the order of the lanes' numbers.
    pub outs: Vec<L::Tx>,
}

impl<L: Lanes> Crew<L> {
    /// Makes each worker at the beginning of all, over lanes of this form that hold at most `cap`
    /// items, 1 to 64. The one error is out of memory.
    pub fn make(alloc: Global, form: &L, setup: &Setup, cap: u32) -> Result<Crew<L>, NoMemory>
        requires some { 1 ≤ cap }
        requires few { cap ≤ MAX_CAPACITY }
        ensures workers { IfOk result (λ crew. IsCrew (setup_view setup.now)
            (at_first (setup_view setup.now)) crew.workers.items) }
        ensures posters { IfOk result (λ crew. AreUnused (setup_view setup.now)
            crew.posters.items) }
        ensures boxes { IfOk result (λ crew. ShareBoxes crew.posters.items
            (map (λ (w : WorkerIs). w.owner) crew.workers.items)) }
        ensures outs { IfOk result (λ crew. AreNewOuts (setup_view setup.now).job
            (map L.Tx.state crew.outs.items)) }
        ensures capacity { IfOk result (λ crew. All (λ end. (L.Tx.state end).lane.capacity ≡ cap)
            crew.outs.items) }
        ensures hold { IfOk result (λ crew. HoldAtMost cap
            (map worker_side crew.workers.items)) }
        ensures matched { IfOk result (λ crew. AreMatched (map worker_side crew.workers.items)
            (map L.Tx.state crew.outs.items)) }
    {
        let start = Start::first(alloc, setup)?;
        Crew::make_from(alloc, form, setup, cap, start)
    }

    /// Makes each worker at this beginning, over lanes of this form that hold at most `cap` items,
    /// 1 to 64. The beginning has counts for each worker, and has turned no more requests than the
    /// setup has. The counts are moved into the workers. The one error is out of memory; it gives
    /// the beginning up.
    pub fn make_from(
        alloc: Global,
        form: &L,
        setup: &Setup,
        cap: u32,
        start: Start,
    ) -> Result<Crew<L>, NoMemory>
        requires some { 1 ≤ cap }
        requires few { cap ≤ MAX_CAPACITY }
        requires turned { start.turned ≤ length (setup_view setup.now).requests }
        requires states { length start.states ≡ length (workers_in (setup_view setup.now).job) }
        ensures workers { IfOk result (λ crew. IsCrew (setup_view setup.now) start
            crew.workers.items) }
        ensures posters { IfOk result (λ crew. AreUnused (setup_view setup.now)
            crew.posters.items) }
        ensures boxes { IfOk result (λ crew. ShareBoxes crew.posters.items
            (map (λ (w : WorkerIs). w.owner) crew.workers.items)) }
        ensures outs { IfOk result (λ crew. AreNewOuts (setup_view setup.now).job
            (map L.Tx.state crew.outs.items)) }
        ensures capacity { IfOk result (λ crew. All (λ end. (L.Tx.state end).lane.capacity ≡ cap)
            crew.outs.items) }
        ensures hold { IfOk result (λ crew. HoldAtMost cap
            (map worker_side crew.workers.items)) }
        ensures matched { IfOk result (λ crew. AreMatched (map worker_side crew.workers.items)
            (map L.Tx.state crew.outs.items)) }
    {
        let AllEndpoints { workers, feeder } = AllEndpoints::make(alloc, form, setup, cap)?;
        let (workers, posters) = make_workers(alloc, setup, workers, start)?;
        Ok(Crew {
            workers,
            posters,
            outs: feeder,
        })
    }
}

type Made<L> = (Vec<Worker<L>>, Vec<Poster>);

// Takes the counts of the next worker.
fn take_counts(left: &mut IntoIter<Keyed, Global>) -> Keyed
    requires { 0 < into_iter_len left.old }
    ensures items { into_iter_items left.old ≡ result ∷ into_iter_items left.new }
    ensures fewer { into_iter_len left.new + 1 ≡ into_iter_len left.old }
{
    match left.next() {
        Some(counts) => counts,
        None => unreachable!(),
    }
}

fn make_workers<L: Lanes>(
    alloc: Global,
    setup: &Setup,
    sides: Vec<Side<L>>,
    start: Start,
) -> Result<Made<L>, NoMemory>
    requires many { length sides.items ≡ length (workers_in (setup_view setup.now).job) }
    requires sides { (w : ℕ) (side : SideIs) → slice_get sides.items w ≡ Some side
        → AreNewEndpoints (setup_view setup.now).job w side.ins side.outs }
    requires turned { start.turned ≤ length (setup_view setup.now).requests }
    requires states { length start.states ≡ length (workers_in (setup_view setup.now).job) }
    ensures workers { IfOk result (λ made. IsCrew (setup_view setup.now) start made.0.items) }
    ensures posters { IfOk result (λ made. AreUnused (setup_view setup.now) made.1.items) }
    ensures boxes { IfOk result (λ made. ShareBoxes made.1.items
        (map (λ (w : WorkerIs). w.owner) made.0.items)) }
    ensures sides { IfOk result (λ made. map worker_side made.0.items ≡ sides.items) }
{
    let Start { turned, states, .. } = start;
    let mut left = states.into_iter();
    let mut workers = Vec::new(alloc);
    let mut posters = Vec::new(alloc);
    for side in sides {
        let (poster, owner) = make_box(alloc)?;
        let (ins, outs) = side.open();
        let number = workers.len() as u32;
        let counts = take_counts(&mut left);
        let who = SetupWorker { setup, number };
        let from = WorkerStart { turned, counts };
        let worker = Worker::make_from(alloc, who, ins, outs, owner, from)?;
        workers.push(worker)?;
        posters.push(poster)?;
    }
    Ok((workers, posters))
}
