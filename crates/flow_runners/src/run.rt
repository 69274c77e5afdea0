ghost use Rattle.std.specs.Prelude.{◌≡◌, ◌<◌, ◌+◌, ◌≤◌, IfOk, IsTrue, OnOk, length, map, vec_len};
ghost use Rattle.std.specs.List.{All, range_with_len};
ghost use Rattle.control_box.specs.Endpoints.{ShareBoxes};
ghost use Rattle.crossbeam_queue.specs.SegTies.{IsSegPassOf};
ghost use Rattle.flow_worker.specs.Pairs.{EachOne};
ghost use Rattle.flow_worker.specs.Turning.{IsDone};
ghost use Rattle.flow_worker.specs.Worker.{IsWorker, WorkerIs};
ghost use Rattle.flow_runners.specs.Crew.{AreBack, AreWorkers, HasFed, IsFeederOf, fixed_in};
ghost use Rattle.flow_runners.specs.Crew.{crew_number, runner_of, setup_in};
ghost use Rattle.flow_runner.specs.Rule.{AreListed};
ghost use Rattle.flow_runner.specs.Runner.{endpoints_of};

use crate::alone::run_alone;
use crate::crew::{drain, push_all, rounds, sort_by_number, to_workers};
use crate::flow::Flow;
use crate::lead::lead;
use crate::threads::{Handle, join_all, start_all};
use coordinator::Feeding;
use crossbeam_queue::SegPass;
use flow_runner::{Beginning, Charter, Engine, Held, Queue, Runner, Tally, open};
use flow_worker::Worker;
use lane_core::Lanes;
use std::alloc::Global;
use std::marker::Brand;
use std::sync::Wait;
use std::sync::atomic::AtomicBool;
use std::thread;
use std::thread::{Scope, Threads};
use tuple_trace::{Gate, MAX_THREADS, NoMemory};

/// What a run leaves: its workers in the order of their numbers, and its feeder.
#[derive(Drop)]
pub struct Ran<L: Lanes, F: Drop> {
    pub workers: Vec<Worker<L>>,
    pub feeder: F,
}

/// What the threads leave: the runners in any order, and the feeder.
#[derive(Drop)]
pub struct Finished<'s, L: Lanes, F: Drop, C: Charter> {
    pub runners: Vec<Runner<'s, L, C>>,
    pub feeder: F,
}

/// What a run begins with: the queue, which has all runners, and the caller's part of it.
#[derive(Drop)]
pub struct Load<'q, 's: 'q, L: Lanes + 'q, F: Drop, C: Charter + 'q> {
    pub queue: &'q Queue<'s, L, C>,
    pub own: Held<'s, L, C>,
    pub feeder: F,
}

/// Runs workers and a feeder on the threads of an engine, until all are done.
///
/// A worker is a runner, which moves between threads by a queue. A thread pops a runner, gives it
/// up to 64 turns while they move something, and pushes it back unless it is done. The caller does
/// so too, after each visit of the feeder. If a thread can't be started, the others do its work. If
/// none was started, the caller keeps all runners, and yields to nobody.
///
/// `workers` stand in the order of their numbers, and come back so. The feeder's boxes are theirs.
/// The one error is out of memory; it gives up the workers and the feeder.
pub fn run_all<R, L: Lanes + Sync, G: Gate + Sync, F: Feeding<L> + Drop, B: Beginning>(
    engine: &Engine<'_, R, L, G>,
    flow: &Flow<'_>,
    workers: Vec<Worker<L>>,
    feeder: F,
) -> Result<Ran<L, F>, NoMemory>
where
    R: Threads + Wait + Sync,
    requires workers { AreWorkers (setup_in flow.now) B.begin workers.items }
    requires feeder { IsFeederOf F.LIVE flow.now B.begin (F.feeder feeder) }
    requires boxes { ShareBoxes (F.feeder feeder).boxes.posters
        (map (λ (w : WorkerIs). w.owner) workers.items) }
    ensures workers { IfOk result (λ r. AreWorkers (setup_in flow.now) B.begin r.workers.items) }
    ensures done { IfOk result (λ r. EachOne IsDone r.workers.items) }
    ensures fixed { IfOk result (λ r. map fixed_in r.workers.items ≡ map fixed_in workers.items) }
    ensures feeder { IfOk result (λ r. HasFed F.LIVE flow.now B.begin F.kept (F.feeder feeder)
        (F.rest feeder) (F.feeder r.feeder) (F.rest r.feeder)) }
    ensures stopped { IfOk result (λ r. IsTrue (F.feeder r.feeder).stopped) }
{
    under::<R, L, G, F, Brand>(engine, flow, workers, feeder)
}

// Runs them under a charter: opens a queue, runs, ends the queue, and sorts the workers.
fn under<R, L: Lanes + Sync, G: Gate + Sync, F: Feeding<L> + Drop, C: Charter + Send + Sync>(
    engine: &Engine<'_, R, L, G>,
    flow: &Flow<'_>,
    workers: Vec<Worker<L>>,
    feeder: F,
) -> Result<Ran<L, F>, NoMemory>
where
    R: Threads + Wait + Sync,
    requires setup { setup_in flow.now ≡ C.setup }
    requires endpoints { C.endpoints ≡ map endpoints_of workers.items }
    requires numbers { map crew_number workers.items ≡ range_with_len 0 (length workers.items) }
    requires law { All (IsWorker (setup_in flow.now) C.begin) workers.items }
    requires feeder { IsFeederOf F.LIVE flow.now C.begin (F.feeder feeder) }
    ensures law { IfOk result (λ r. All (IsWorker (setup_in flow.now) C.begin) r.workers.items) }
    ensures done { IfOk result (λ r. All IsDone r.workers.items) }
    ensures fixed { IfOk result (λ r. map fixed_in r.workers.items ≡ map fixed_in workers.items) }
    ensures feeder { IfOk result (λ r. HasFed F.LIVE flow.now C.begin F.kept (F.feeder feeder)
        (F.rest feeder) (F.feeder r.feeder) (F.rest r.feeder)) }
    ensures stopped { IfOk result (λ r. IsTrue (F.feeder r.feeder).stopped) }
{
    let Ok((queue, pass)) = open::<L, C>(engine.alloc) else {
        return Err(NoMemory);
    };
    let ran = filled(engine, flow, &queue, pass, workers, feeder);
    queue.destroy();
    let Finished {
        mut runners,
        feeder,
    } = ran?;
    sort_by_number(&mut runners);
    let workers = to_workers(engine.alloc, runners)?;
    Ok(Ran { workers, feeder })
}

// Pushes all runners into the queue, and runs them.
fn filled<'s, R, L: Lanes + Sync, G: Gate + Sync, F: Feeding<L> + Drop, C>(
    engine: &Engine<'_, R, L, G>,
    flow: &Flow<'s>,
    queue: &Queue<'s, L, C>,
    mut pass: SegPass<Runner<'s, L, C>, Tally>,
    workers: Vec<Worker<L>>,
    feeder: F,
) -> Result<Finished<'s, L, F, C>, NoMemory>
where
    R: Threads + Wait + Sync,
    C: Charter + Send + Sync,
    requires queue { IsSegPassOf queue.now pass }
    requires parts { pass.me.view.client.parts ≡ MAX_THREADS }
    requires listed { AreListed C.endpoints (map runner_of workers.items) pass.me.view.client.list }
    requires setup { setup_in flow.now ≡ C.setup }
    requires numbers { map crew_number workers.items ≡ range_with_len 0 (length workers.items) }
    requires law { All (IsWorker (setup_in flow.now) C.begin) workers.items }
    requires feeder { IsFeederOf F.LIVE flow.now C.begin (F.feeder feeder) }
    ensures back { IfOk result (λ r. AreBack C.endpoints r.runners.items) }
    ensures feeder { IfOk result (λ r. HasFed F.LIVE flow.now C.begin F.kept (F.feeder feeder)
        (F.rest feeder) (F.feeder r.feeder) (F.rest r.feeder)) }
    ensures stopped { IfOk result (λ r. IsTrue (F.feeder r.feeder).stopped) }
{
    push_all(
        engine.rt,
        engine.alloc,
        flow.setup,
        queue,
        &mut pass,
        workers,
    )?;
    let own = Held {
        runners: Vec::new(engine.alloc),
        pass,
    };
    scoped(engine, flow, queue, own, feeder)
}

// Runs the queue on this thread and those that can be started.
fn scoped<'s, R, L: Lanes + Sync, G: Gate + Sync, F: Feeding<L> + Drop, C>(
    engine: &Engine<'_, R, L, G>,
    flow: &Flow<'_>,
    queue: &Queue<'s, L, C>,
    own: Held<'s, L, C>,
    feeder: F,
) -> Result<Finished<'s, L, F, C>, NoMemory>
where
    R: Threads + Wait + Sync,
    C: Charter + Send + Sync,
    requires queue { IsSegPassOf queue.now own.pass }
    requires parts { own.pass.me.view.client.parts ≡ MAX_THREADS }
    requires listed { AreListed C.endpoints own.runners.items own.pass.me.view.client.list }
    requires feeder { IsFeederOf F.LIVE flow.now C.begin (F.feeder feeder) }
    ensures back { IfOk result (λ r. AreBack C.endpoints r.runners.items) }
    ensures feeder { IfOk result (λ r. HasFed F.LIVE flow.now C.begin F.kept (F.feeder feeder)
        (F.rest feeder) (F.feeder r.feeder) (F.rest r.feeder)) }
    ensures stopped { IfOk result (λ r. IsTrue (F.feeder r.feeder).stopped) }
{
    let words = cleared(engine.alloc, engine.threads)?;
    let words = words.as_slice();
    let load = Load { queue, own, feeder };
    thread::scope(
        thread::scope_env(),
        engine.rt,
        move |scope|
            requires queue { IsSegPassOf load.queue.now load.own.pass }
            requires words { length words.now ≤ 15 }
            requires parts { load.own.pass.me.view.client.parts ≡ MAX_THREADS }
            requires listed { AreListed C.endpoints load.own.runners.items
                load.own.pass.me.view.client.list }
            requires feeder { IsFeederOf F.LIVE flow.now C.begin (F.feeder load.feeder) }
            ensures back { IfOk result (λ r. AreBack C.endpoints r.runners.items) }
            ensures feeder { IfOk result (λ r. HasFed F.LIVE flow.entry.now C.begin F.kept
                (F.feeder load.entry.feeder) (F.rest load.entry.feeder) (F.feeder r.feeder)
                (F.rest r.feeder)) }
            ensures stopped { IfOk result (λ r. IsTrue (F.feeder r.feeder).stopped) }
        { inside(scope, engine, words, flow, load) },
    )
}

// A word for each thread but the caller's.
fn cleared(alloc: Global, threads: u32) -> Result<Vec<AtomicBool>, NoMemory>
    requires some { 1 ≤ threads }
    requires few { threads ≤ MAX_THREADS }
    ensures { IfOk result (λ v. vec_len v ≤ 15) }
{
    let mut words = Vec::new(alloc);
    for _ in 1..threads {
        if words.push(AtomicBool::new(false)).is_err() {
            return Err(NoMemory);
        }
    }
    Ok(words)
}

// Starts the threads, does the caller's part, joins them, and does what is left.
fn inside<'q, 'a: 'q, 's: 'q, E, R, L: Lanes + Sync + 'q, G: Gate + Sync + 'q, F, C>(
    scope: &'q Scope<'q, E>,
    engine: &'q Engine<'a, R, L, G>,
    words: &'q [AtomicBool],
    flow: &Flow<'_>,
    load: Load<'q, 's, L, F, C>,
) -> Result<Finished<'s, L, F, C>, NoMemory>
where
    R: Threads + Wait + Sync + 'q,
    F: Feeding<L> + Drop,
    C: Charter + Send + Sync + 'q,
    requires queue { IsSegPassOf load.queue.now load.own.pass }
    requires words { length words.now ≤ 15 }
    requires parts { load.own.pass.me.view.client.parts ≡ MAX_THREADS }
    requires listed { AreListed C.endpoints load.own.runners.items
        load.own.pass.me.view.client.list }
    requires feeder { IsFeederOf F.LIVE flow.now C.begin (F.feeder load.feeder) }
    ensures back { IfOk result (λ r. AreBack C.endpoints r.runners.items) }
    ensures feeder { IfOk result (λ r. HasFed F.LIVE flow.now C.begin F.kept
        (F.feeder load.entry.feeder) (F.rest load.entry.feeder) (F.feeder r.feeder)
        (F.rest r.feeder)) }
    ensures stopped { IfOk result (λ r. IsTrue (F.feeder r.feeder).stopped) }
{
    let Load {
        queue,
        mut own,
        mut feeder,
    } = load;
    let mut handles = Vec::new(engine.alloc);
    if start_all(scope, engine, words, queue, &mut own, &mut handles).is_err() {
        engine.stop();
        return Err(NoMemory);
    }
    callers_part(engine, flow, queue, &mut own, &mut feeder, handles)?;
    Ok(Finished {
        runners: own.runners,
        feeder,
    })
}

// What the caller does once the threads are started: its part of the run, and all that is left of it
// after the threads.
fn callers_part<'s, R, L: Lanes, G: Gate, F: Feeding<L>, C: Charter>(
    engine: &Engine<'_, R, L, G>,
    flow: &Flow<'_>,
    queue: &Queue<'s, L, C>,
    own: &mut Held<'s, L, C>,
    feeder: &mut F,
    handles: Vec<Handle<'s, L, C>>,
) -> Result<(), NoMemory>
where
    R: Threads + Wait,
    requires queue { IsSegPassOf queue.now own.old.pass }
    requires some { 0 < own.old.pass.me.view.client.parts }
    requires parts { own.old.pass.me.view.client.parts + vec_len handles ≡ MAX_THREADS }
    requires listed { AreListed C.endpoints own.old.runners.items
        own.old.pass.me.view.client.list }
    requires handles { All (λ h. h.promise.queue.value ≡ queue.now) handles.items }
    requires feeder { IsFeederOf F.LIVE flow.now C.begin (F.feeder feeder.old) }
    ensures back { OnOk result (AreBack C.endpoints own.new.runners.items) }
    ensures feeder { OnOk result (HasFed F.LIVE flow.now C.begin F.kept (F.feeder feeder.old)
        (F.rest feeder.old) (F.feeder feeder.new) (F.rest feeder.new)) }
    ensures stopped { OnOk result (IsTrue (F.feeder feeder.new).stopped) }
{
    let mut need = engine.form.need();
    if handles.is_empty() {
        return run_alone(engine, &mut need, flow, queue, own, feeder);
    }
    let fed = lead(engine, &mut need, flow, queue, own, feeder);
    end_all(engine, &mut need, queue, own, handles, fed)?;
    Ok(())
}

// Joins the threads, and does what is left, if the feeder has stopped.
fn end_all<'s, R, L: Lanes, G: Gate, C: Charter>(
    engine: &Engine<'_, R, L, G>,
    need: &mut L::Need,
    queue: &Queue<'s, L, C>,
    own: &mut Held<'s, L, C>,
    handles: Vec<Handle<'s, L, C>>,
    fed: bool,
) -> Result<(), NoMemory>
where
    R: Threads + Wait,
    requires queue { IsSegPassOf queue.now own.old.pass }
    requires some { 0 < own.old.pass.me.view.client.parts }
    requires parts { own.old.pass.me.view.client.parts + vec_len handles ≡ MAX_THREADS }
    requires listed { AreListed C.endpoints own.old.runners.items
        own.old.pass.me.view.client.list }
    requires handles { All (λ h. h.promise.queue.value ≡ queue.now) handles.items }
    ensures fed { OnOk result (IsTrue fed) }
    ensures back { OnOk result (AreBack C.endpoints own.new.runners.items) }
{
    if join_all(engine.rt, queue, own, handles).is_err() {
        engine.stop();
        return Err(NoMemory);
    }
    if !fed {
        return Err(NoMemory);
    }
    drain(engine.rt, queue, own)?;
    rounds(engine, need, &mut own.runners)?;
    Ok(())
}
