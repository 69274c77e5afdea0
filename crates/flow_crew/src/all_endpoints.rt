// The endpoints of all lanes of a job, made one lane after another.
ghost use Rattle.std.specs.Prelude.{◌≡◌, ℕ, ◌<◌, ◌≤◌, ◌∷◌, [], IfOk, IfSome, OnOk, Some, length};
ghost use Rattle.std.specs.Prelude.{All, replicate, slice_get, map};
ghost use Rattle.flow_model.specs.Lanes.{lanes};
ghost use Rattle.flow_model.specs.Setup.{setup_view};
ghost use Rattle.flow_model.specs.Workers.{workers_in};
ghost use Rattle.flow_worker.specs.Parts.{AreNewEndpoints};
ghost use Rattle.coordinator.specs.Starts.{AreNewOuts};
ghost use Rattle.flow_crew.specs.Sides.{AreMatched, HoldAtMost, SideIs, empty_side};
ghost use Rattle.flow_crew.specs.Sorted.{AreNewAt, changed_at, more_in, more_out, with_fed};
ghost use Rattle.flow_crew.specs.Sorted.{with_out};

use crate::Side;
use flow_dag::Graph;
use flow_model::Setup;
use lane_core::{Lanes, Origin};
use std::alloc::Global;
use tuple_trace::{MAX_CAPACITY, NoMemory};

/// The endpoints of all lanes of a job, sorted.
#[derive(Drop)]
pub struct AllEndpoints<L: Lanes> {
    /// Those of the workers, by worker.
    pub workers: Vec<Side<L>>,
    /// The sending endpoints of the feeder, in the order of the lanes' numbers.
    pub feeder: Vec<L::Tx>,
}

impl<L: Lanes> AllEndpoints<L> {
    /// Makes each lane of the setup's job, which holds at most `cap` items, 1 to 64. The one error
    /// is out of memory.
    pub fn make(
        alloc: Global,
        form: &L,
        setup: &Setup,
        cap: u32,
    ) -> Result<AllEndpoints<L>, NoMemory>
        requires some { 1 ≤ cap }
        requires few { cap ≤ MAX_CAPACITY }
        ensures many { IfOk result (λ made. length made.workers.items
            ≡ length (workers_in (setup_view setup.now).job)) }
        ensures workers { IfOk result (λ made. (w : ℕ) (side : SideIs)
            → slice_get made.workers.items w ≡ Some side
            → AreNewEndpoints (setup_view setup.now).job w side.ins side.outs) }
        ensures feeder { IfOk result (λ made. AreNewOuts (setup_view setup.now).job
            (map L.Tx.state made.feeder.items)) }
        ensures capacity { IfOk result (λ made. All (λ end. (L.Tx.state end).lane.capacity ≡ cap)
            made.feeder.items) }
        ensures hold { IfOk result (λ made. HoldAtMost cap made.workers.items) }
        ensures matched { IfOk result (λ made. AreMatched made.workers.items
            (map L.Tx.state made.feeder.items)) }
    {
        let graph = setup.job.dag.graph();
        let mut workers = new_sides(alloc, setup.workers() as usize)?;
        let mut feeder = Vec::new(alloc);
        let count = setup.topology.lanes.len() as u32;
        for number in 0..count {
            let lane = setup.lane(number);
            let (tx, rx) = make_lane(alloc, form, setup, graph, number, cap)?;
            add_out(&mut workers, &mut feeder, lane.sender, tx)?;
            add_in(&mut workers, lane.receiver, rx)?;
        }
        Ok(AllEndpoints { workers, feeder })
    }
}

// Makes the lane of the job with this number.
fn make_lane<L: Lanes>(
    alloc: Global,
    form: &L,
    setup: &Setup,
    graph: Graph,
    number: u32,
    cap: u32,
) -> Result<(L::Tx, L::Rx), NoMemory>
    requires there { number < length (lanes (setup_view setup.now).job) }
    requires some { 1 ≤ cap }
    requires few { cap ≤ MAX_CAPACITY }
    ensures tx { IfOk result (λ (tx, rx). AreNewAt (setup_view setup.now).job graph number
        (L.Tx.state tx ∷ [])) }
    ensures rx { IfOk result (λ (tx, rx). AreNewAt (setup_view setup.now).job graph number
        (L.Rx.state rx ∷ [])) }
    ensures holds { IfOk result (λ (tx, rx). (L.Tx.state tx).lane.capacity ≡ cap) }
    ensures lane { IfOk result (λ (tx, rx). (L.Tx.state tx).lane ≡ (L.Rx.state rx).lane) }
{
    let lane = setup.lane(number);
    let from = setup.job.dag.edge(lane.edge).from;
    form.make(alloc, number, cap, Origin { graph, from })
}

// Adds a sending endpoint to its worker's side, or to the feeder's.
#[tactic(auto, using(crate::proofs::Making::hold_more))]
fn add_out<L: Lanes>(
    workers: &mut [Side<L>],
    feeder: &mut Vec<L::Tx>,
    sender: Option<u32>,
    tx: L::Tx,
) -> Result<(), NoMemory>
    requires { IfSome sender (λ worker. worker < length workers.old) }
    ensures workers { OnOk result (workers.new
        ≡ with_out sender (L.Tx.state tx ∷ []) workers.old) }
    ensures feeder { OnOk result (map L.Tx.state feeder.new.items
        ≡ with_fed sender (L.Tx.state tx ∷ []) (map L.Tx.state feeder.old.items)) }
    ensures capacity { OnOk result ((n : ℕ) → (L.Tx.state tx).lane.capacity ≡ n
        → All (λ end. (L.Tx.state end).lane.capacity ≡ n) feeder.old.items
        → All (λ end. (L.Tx.state end).lane.capacity ≡ n) feeder.new.items) }
{
    match sender {
        Some(worker) => add_out_at(workers, worker, tx),
        None => {
            feeder.push(tx)?;
            Ok(())
        }
    }
}

fn add_out_at<L: Lanes>(workers: &mut [Side<L>], worker: u32, tx: L::Tx) -> Result<(), NoMemory>
    requires { worker < length workers.old }
    ensures { OnOk result (workers.new
        ≡ changed_at (more_out (L.Tx.state tx ∷ [])) worker workers.old) }
{
    workers[worker as usize].push_out(tx)
}

fn add_in<L: Lanes>(workers: &mut [Side<L>], worker: u32, rx: L::Rx) -> Result<(), NoMemory>
    requires { worker < length workers.old }
    ensures { OnOk result (workers.new
        ≡ changed_at (more_in (L.Rx.state rx ∷ [])) worker workers.old) }
{
    workers[worker as usize].push_in(rx)
}

fn new_sides<L: Lanes>(alloc: Global, workers: usize) -> Result<Vec<Side<L>>, NoMemory>
    ensures { IfOk result (λ sides. sides.items ≡ replicate workers empty_side) }
{
    let mut sides = Vec::new(alloc);
    for _worker in 0..workers {
        sides.push(Side::new(alloc))?;
    }
    Ok(sides)
}
