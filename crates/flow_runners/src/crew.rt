ghost use Rattle.std.specs.Prelude.{◌≡◌, [], IfOk, OnOk, length, map};
ghost use Rattle.std.specs.List.{All, range_with_len};
ghost use Rattle.std.specs.List.Sorted.{IsNonDecreasingBy, IsPermutation};
ghost use Rattle.crossbeam_queue.specs.SegTies.{IsSegPassOf};
ghost use Rattle.flow_model.specs.Setup.{setup_view};
ghost use Rattle.flow_worker.specs.Turning.{IsDone};
ghost use Rattle.flow_worker.specs.Worker.{IsWorker};
ghost use Rattle.flow_runners.specs.Crew.{fixed_in, crew_number, runner_of};
ghost use Rattle.flow_runner.specs.Rule.{HasItsEndpoints, AreListed, HasEachOf, HasEnded, fixed_of};
ghost use Rattle.flow_runner.specs.Rule.{numbers};

use crossbeam_queue::SegPass;
use flow_model::Setup;
use flow_runner::{Charter, Engine, Held, Queue, Runner, Tally, give, round, take};
use flow_worker::{Turn, Worker};
use lane_core::Lanes;
use std::alloc::Global;
use std::sync::Wait;
use tuple_trace::{Gate, MAX_THREADS, NoMemory};

/// Pushes the runner of each worker, from the last to the first. A refused push ends the run. The
/// one error is out of memory.
pub fn push_all<'s, R: Wait, L: Lanes, C: Charter>(
    rt: &R,
    alloc: Global,
    setup: &'s Setup,
    queue: &Queue<'s, L, C>,
    pass: &mut SegPass<Runner<'s, L, C>, Tally>,
    mut workers: Vec<Worker<L>>,
) -> Result<(), NoMemory>
    requires queue { IsSegPassOf queue.now pass.old }
    requires parts { pass.old.me.view.client.parts ≡ MAX_THREADS }
    requires listed { AreListed C.endpoints (map runner_of workers.items)
        pass.old.me.view.client.list }
    requires setup { setup_view setup.now ≡ C.setup }
    requires numbers { map crew_number workers.items ≡ range_with_len 0 (length workers.items) }
    requires law { All (IsWorker (setup_view setup.now) C.begin) workers.items }
    ensures queue { IsSegPassOf queue.now pass.new }
    ensures parts { pass.new.me.view.client.parts ≡ MAX_THREADS }
    ensures listed { OnOk result (AreListed C.endpoints [] pass.new.me.view.client.list) }
{
    while let Some(worker) = workers.pop() {
        let number = workers.len() as u32;
        let runner = Runner::new(alloc, setup, number, worker)?;
        match give(rt, queue, pass, runner) {
            Ok(()) => {}
            Err(_) => return Err(NoMemory),
        }
    }
    Ok(())
}

/// Pops all runners that are still in the queue. Each number is then here once. The one error is
/// out of memory.
pub fn drain<'s, R: Wait, L: Lanes, C: Charter>(
    rt: &R,
    queue: &Queue<'s, L, C>,
    own: &mut Held<'s, L, C>,
) -> Result<(), NoMemory>
    requires queue { IsSegPassOf queue.now own.old.pass }
    requires parts { own.old.pass.me.view.client.parts ≡ MAX_THREADS }
    requires listed { AreListed C.endpoints own.old.runners.items
        own.old.pass.me.view.client.list }
    ensures once { OnOk result (HasEachOf (length C.endpoints) (numbers own.new.runners.items)) }
    ensures agree { OnOk result (All (HasItsEndpoints C.endpoints) own.new.runners.items) }
{
    for _ in rt.forever() {
        own.runners.reserve(1)?;
        let Some(runner) = take(rt, queue, &mut own.pass) else {
            return Ok(());
        };
        own.runners.push_reserved(runner);
    }
    Err(NoMemory)
}

/// Visits all runners until each is done. No other thread has any, so it yields to none. The one
/// error is out of memory.
pub fn rounds<'s, R: Wait, L: Lanes, G: Gate, C: Charter>(
    engine: &Engine<'_, R, L, G>,
    need: &mut L::Need,
    runners: &mut Vec<Runner<'s, L, C>>,
) -> Result<(), NoMemory>
    ensures fixed { OnOk result (map fixed_of runners.new.items
        ≡ map fixed_of runners.old.items) }
    ensures done { OnOk result (All HasEnded runners.new.items) }
{
    for _ in engine.rt.forever() {
        if engine.is_stopped() {
            break;
        }
        match round(need, engine.gate, runners) {
            Turn::Done => return Ok(()),
            Turn::Moved | Turn::Idle => {}
            Turn::NoMemory => break,
        }
    }
    Err(NoMemory)
}

/// Sorts the runners by their numbers.
pub fn sort_by_number<'s, L: Lanes, C: Charter>(runners: &mut Vec<Runner<'s, L, C>>)
    ensures permutation { IsPermutation runners.old.items runners.new.items }
    ensures order { IsNonDecreasingBy (λ r. r.number) runners.new.items }
{
    runners.sort_unstable_by_key(|r| r.number());
}

/// Returns the workers of runners that are done, in order.
pub fn to_workers<'s, L: Lanes, C: Charter>(
    alloc: Global,
    runners: Vec<Runner<'s, L, C>>,
) -> Result<Vec<Worker<L>>, NoMemory>
    requires { All HasEnded runners.items }
    ensures fixed { IfOk result (λ ws. map fixed_in ws.items ≡ map fixed_of runners.entry.items) }
    ensures law { IfOk result (λ ws. All (IsWorker C.setup C.begin) ws.items) }
    ensures done { IfOk result (λ ws. All IsDone ws.items) }
{
    let mut workers = Vec::with_capacity(alloc, runners.len())?;
    for runner in runners {
        workers.push_reserved(runner.into_worker());
    }
    Ok(workers)
}
