// A run of a setup on threads.
ghost use Rattle.std.specs.Prelude.{◌≡◌, ◌≤◌, IfOk, false, length, map, true};
ghost use Rattle.std.specs.List.{range_with_len};
ghost use Rattle.control_box.specs.Endpoints.{ShareBoxes};
ghost use Rattle.jobs.specs.Nodes.{AreFromSources};
ghost use Rattle.flow_model.specs.Begin.{at_first};
ghost use Rattle.flow_model.specs.Consistent.{IsConsistent};
ghost use Rattle.flow_model.specs.Run.{IsRun, IsRunSince};
ghost use Rattle.flow_model.specs.Setup.{setup_view};
ghost use Rattle.flow_model.specs.Workers.{workers_in};
ghost use Rattle.flow_worker.specs.Worker.{WorkerIs};
ghost use Rattle.flow_crew.specs.Crews.{IsCrew};
ghost use Rattle.flow_crew.specs.Ended.{record_of};
ghost use Rattle.flow_crew.specs.Sides.{AreMatched, worker_side};
ghost use Rattle.flow_runners.specs.Crew.{IsFeederOf, setup_in};
ghost use Rattle.flow_engine.specs.Flown.{number_worked};
ghost use Rattle.flow_engine.specs.Recorded.{IsRecorded, NoneIsEarly};
ghost use Rattle.flow_engine.specs.inner.Turns.{HasRun, IsFirst};

use crate::Flown;
use crate::recorded::recorded_by;
use coordinator::{Feeder, Feeding};
use flow_crew::{Crew, Ended, end_run, endpoints_stay_matched, workers_read_no_rows};
use flow_model::{Setup, Start, runs_are_consistent};
use flow_runners::{Beginning, Engine, Flow, Ran, run_all};
use flow_worker::Worker;
use lane_core::Lanes;
use std::marker::Brand;
use std::sync::Wait;
use std::thread::Threads;
use tuple_trace::{FeedRows, Gate, NoMemory};

/// Runs rows by a setup on an engine, which says on how many threads, and over which lanes.
///
/// Requests overtake the tuples that wait on lanes: the feeder posts each to the workers of its
/// heads directly after its row, as in the Fries paper (Wang and others, VLDB 2022). The engine's
/// gate is called before each tuple that a worker processes, and after each request that is issued.
///
/// The record of what it returns is a run of the setup and the rows, however many threads there are
/// and however they are scheduled. Every row is consistent in it. The one error is out of memory. A
/// thread that can't be started is no error: the others do its work.
pub fn run_flow<R, L: Lanes + Sync, G: Gate + Sync>(
    engine: &Engine<'_, R, L, G>,
    setup: Setup,
    rows: &FeedRows<'_>,
) -> Result<Flown<L>, NoMemory>
where
    R: Threads + Wait + Sync,
    requires rows { AreFromSources (setup_view setup).job rows.now }
    ensures setup { IfOk result (λ flown. flown.setup ≡ setup) }
    ensures crew { IfOk result (λ flown. map number_worked flown.crew.items
        ≡ range_with_len 0 (length (workers_in (setup_view setup).job))) }
    ensures run { IfOk result (λ flown. IsRun (setup_view setup) rows.now
        (record_of (setup_view setup) flown.feeds flown.crew.items)) }
    ensures consistent { IfOk result (λ flown. IsConsistent rows.now
        (record_of (setup_view setup) flown.feeds flown.crew.items)) }
{
    let (flown, ()) = run_with::<R, L, G, Feeder<L>>(engine, setup, (), rows)?;
    Ok(flown)
}

/// As [`run_flow`], but with a feeder of the form `F`, made of this seed. Returns also what the
/// feeder leaves.
///
/// If the feeder is live, the setup of what it returns has, for each request, the number of rows
/// that were fed before the request was issued. That is no fewer than the request asks for, of
/// those that there are. The record is a run of this setup and the rows. The one error is out of
/// memory.
pub fn run_with<R, L: Lanes + Sync, G: Gate + Sync, F: Feeding<L> + Drop>(
    engine: &Engine<'_, R, L, G>,
    setup: Setup,
    seed: F::Seed,
    rows: &FeedRows<'_>,
) -> Result<(Flown<L>, F::Rest), NoMemory>
where
    R: Threads + Wait + Sync,
    F::Seed: Drop,
    F::Rest: Drop,
    requires rows { AreFromSources (setup_view setup).job rows.now }
    ensures setup { IfOk result (λ (flown, rest). IsRecorded F.LIVE flown.feeds setup
        flown.setup) }
    ensures waits { IfOk result (λ (flown, rest). NoneIsEarly (length rows.now)
        (setup_view setup).requests (setup_view flown.setup).requests) }
    ensures kept { IfOk result (λ (flown, rest). F.kept seed flown.feeds rest) }
    ensures crew { IfOk result (λ (flown, rest). map number_worked flown.crew.items
        ≡ range_with_len 0 (length (workers_in (setup_view setup).job))) }
    ensures run { IfOk result (λ (flown, rest). IsRun (setup_view flown.setup) rows.now
        (record_of (setup_view flown.setup) flown.feeds flown.crew.items)) }
    ensures consistent { IfOk result (λ (flown, rest). IsConsistent rows.now
        (record_of (setup_view flown.setup) flown.feeds flown.crew.items)) }
{
    let flow = Flow {
        setup: &setup,
        rows: &*rows,
    };
    let (ended, rest) = run_seeded::<R, L, G, F, Brand>(engine, &flow, seed)?;
    let (feeds, crew) = (ended.feeds, ended.workers);
    let setup = recorded_by::<L, F>(engine.alloc, setup, &feeds)?;
    rows.are_numbered();
    runs_are_consistent(&setup);
    Ok((Flown { setup, feeds, crew }, rest))
}

/// As [`run_flow`], but from a beginning on. `rows` are all rows, also those that were fed before;
/// the first `start.row` of them aren't fed again, so they may be blank. The beginning has counts
/// for each worker, and has turned no more requests than the setup has. Its counts are moved.
///
/// The record of what it returns is a run of the setup and the rows from this beginning on. The one
/// error is out of memory, also if a row to be fed is blank. It gives the beginning up.
pub fn run_from<R, L: Lanes + Sync, G: Gate + Sync>(
    engine: &Engine<'_, R, L, G>,
    setup: Setup,
    rows: &FeedRows<'_>,
    start: Start,
) -> Result<Flown<L>, NoMemory>
where
    R: Threads + Wait + Sync,
    requires rows { AreFromSources (setup_view setup).job rows.now }
    requires turned { start.turned ≤ length (setup_view setup).requests }
    requires states { length start.states ≡ length (workers_in (setup_view setup).job) }
    ensures setup { IfOk result (λ flown. flown.setup ≡ setup) }
    ensures crew { IfOk result (λ flown. map number_worked flown.crew.items
        ≡ range_with_len 0 (length (workers_in (setup_view setup).job))) }
    ensures run { IfOk result (λ flown. IsRunSince start (setup_view setup) rows.now
        (record_of (setup_view setup) flown.feeds flown.crew.items)) }
{
    let flow = Flow {
        setup: &setup,
        rows: &*rows,
    };
    let ended = run_begun::<R, L, G, Brand>(engine, &flow, start)?;
    let Ended { feeds, workers } = ended;
    Ok(Flown {
        setup,
        feeds,
        crew: workers,
    })
}

// Runs rows from the beginning of all, which `B` names, with a feeder of this seed.
fn run_seeded<R, L: Lanes + Sync, G: Gate + Sync, F: Feeding<L> + Drop, B: Beginning>(
    engine: &Engine<'_, R, L, G>,
    flow: &Flow<'_>,
    seed: F::Seed,
) -> Result<(Ended<L>, F::Rest), NoMemory>
where
    R: Threads + Wait + Sync,
    F::Seed: Drop,
    F::Rest: Drop,
    requires begin { B.begin ≡ at_first (setup_in flow.now) }
    ensures kept { IfOk result (λ (ended, rest). F.kept seed ended.feeds rest) }
    ensures run { IfOk result (λ (ended, rest). HasRun F.LIVE B.begin (setup_in flow.now)
        flow.now.rows.now ended.feeds ended.workers.items) }
{
    let Crew {
        workers,
        posters,
        outs,
    } = Crew::make(engine.alloc, engine.form, flow.setup, engine.capacity)?;
    let feeder = F::make(engine.alloc, flow.setup, outs, posters, seed)?;
    run_over::<R, L, G, F, B>(engine, flow, workers, feeder)
}

// Runs rows from a beginning on, which `B` names, with a feeder that waits for no releases.
fn run_begun<R, L: Lanes + Sync, G: Gate + Sync, B: Beginning>(
    engine: &Engine<'_, R, L, G>,
    flow: &Flow<'_>,
    start: Start,
) -> Result<Ended<L>, NoMemory>
where
    R: Threads + Wait + Sync,
    requires begin { B.begin ≡ start }
    requires turned { start.turned ≤ length (setup_in flow.now).requests }
    requires states { length start.states ≡ length (workers_in (setup_in flow.now).job) }
    ensures { IfOk result (λ ended. HasRun false start (setup_in flow.now)
        flow.now.rows.now ended.feeds ended.workers.items) }
{
    let (row, turned) = (start.row, start.turned);
    let Crew {
        workers,
        posters,
        outs,
    } = Crew::make_from(
        engine.alloc,
        engine.form,
        flow.setup,
        engine.capacity,
        start,
    )?;
    let feeder = Feeder::make_from(engine.alloc, flow.setup, outs, posters, row, turned)?;
    let (ended, ()) = run_over::<R, L, G, Feeder<L>, B>(engine, flow, workers, feeder)?;
    Ok(ended)
}

// Lets workers and a feeder take their turns, from the beginning on that `B` names, and takes apart
// what they leave.
fn run_over<R, L: Lanes + Sync, G: Gate + Sync, F: Feeding<L> + Drop, B: Beginning>(
    engine: &Engine<'_, R, L, G>,
    flow: &Flow<'_>,
    workers: Vec<Worker<L>>,
    feeder: F,
) -> Result<(Ended<L>, F::Rest), NoMemory>
where
    R: Threads + Wait + Sync,
    F::Rest: Drop,
    requires states { length B.begin.states ≡ length (workers_in (setup_in flow.now).job) }
    requires first { F.LIVE ≡ true → IsFirst B.begin }
    requires crew { IsCrew (setup_in flow.now) B.begin workers.items }
    requires matched { AreMatched (map worker_side workers.items)
        (F.feeder feeder).outs }
    requires feeder { IsFeederOf F.LIVE flow.now B.begin (F.feeder feeder) }
    requires boxes { ShareBoxes (F.feeder feeder).boxes.posters
        (map (λ (w : WorkerIs). w.owner) workers.items) }
    ensures kept { (seed : F.Seed) → F.kept seed (F.feeder feeder).feeds (F.rest feeder)
        → IfOk result (λ (ended, rest). F.kept seed ended.feeds rest) }
    ensures run { IfOk result (λ (ended, rest). HasRun F.LIVE B.begin (setup_in flow.now)
        flow.now.rows.now ended.feeds ended.workers.items) }
{
    endpoints_stay_matched();
    workers_read_no_rows();
    let Ran { workers, feeder } = run_all::<R, L, G, F, B>(engine, flow, workers, feeder)?;
    let (parts, rest) = feeder.finish();
    let mut need = engine.form.need();
    let ended = end_run(
        engine.alloc,
        engine.form,
        &mut need,
        flow.setup,
        workers,
        parts,
    )?;
    Ok((ended, rest))
}
