// The two parts of a run with a savepoint between them.
ghost use Rattle.std.specs.Prelude.{◌≡◌, ◌<◌, ◌≤◌, ◌^◌, All, IfOk, length, min, take};
ghost use Rattle.jobs.specs.Job.{job_view};
ghost use Rattle.jobs.specs.Limits.{HasShortTexts};
ghost use Rattle.jobs.specs.Nodes.{AreFromSources};
ghost use Rattle.job_file.specs.RequestSizes.{AreFew};
ghost use Rattle.tuple_trace.specs.Rows.{AreRows};
ghost use Rattle.tuple_trace.specs.declared.row.Row.{Row as RowIs};
ghost use Rattle.versions.specs.Kept.{HaveLimits};
ghost use Rattle.flow_model.specs.Setup.{setup_view};
ghost use Rattle.flow_model.specs.Workers.{workers_in};
ghost use Rattle.fries_words.specs.Asked.{IsSize};
ghost use Rattle.fries_steps.specs.Parts.{HasWorkers, IsFirstPart, IsRunFromStart};

use crate::host::Host;
use crate::running::{Done, done_of};
use crate::setup::setup_of;
use flow_engine::{run_flow, run_from};
use flow_laws::later_rows_are_whole;
use flow_model::{Setup, Start, runs_are_consistent};
use fries_words::EngineSize;
use jobs::Job;
use lane_ring::RingLanes;
use savepoint::{first_of, first_parts_can_be_saved};
use savepoint_file::{copy_of_start, issued_up_to};
use std::alloc::Global;
use std::sync::Wait;
use std::thread::Threads;
use tuple_trace::{FeedRows, Gate, NoMemory, Row, Rows};
use versions::Requests;

/// Judges the requests, and runs the first `most` rows, or all if there are fewer.
///
/// They run with the accepted requests that are issued up to there. Their plans are those of all
/// requests. Where the run ends can be saved.
///
/// The one error is out of memory.
pub fn run_first_part<R, G>(
    host: &Host<'_, R, G>,
    size: EngineSize,
    job: Job,
    requests: &Requests,
    rows: &Rows,
    most: u64,
) -> Result<Done, NoMemory>
where
    R: Threads + Wait + Copy + Send + Sync + 'static,
    G: Gate + Sync,
    requires size { IsSize size }
    requires few { AreFew requests.now }
    requires limits { HaveLimits requests.now }
    requires sources { AreFromSources (job_view job) rows.now }
    requires texts { All (λ (row : RowIs). HasShortTexts row.tuple) rows.now }
    ensures run { IfOk result (IsFirstPart (min most (length rows.now))
        (job_view job) requests.now rows.now) }
    ensures workers { IfOk result HasWorkers }
{
    let alloc = host.alloc;
    let count = count_of(rows)?;
    let row = most.min(count);
    let first = first_rows(alloc, rows, row)?;
    let setup = setup_of(alloc, job, requests, false)?;
    first_parts_can_be_saved(&setup, rows);
    let turned = issued_up_to(&setup, row, count);
    let part = first_of(setup, turned);
    first.are_numbered();
    runs_are_consistent(&part);
    let lanes = RingLanes;
    let engine = host.engine(&lanes, size);
    let fed = FeedRows::all(&first);
    let flown = run_flow(&engine, part, &fed)?;
    let ran = flown.record(alloc)?;
    done_of(alloc, ran, requests, &first)
}

// How many rows there are. No memory holds 2^63 of them.
fn count_of(rows: &Rows) -> Result<u64, NoMemory>
    ensures count { IfOk result (λ count. count ≡ length rows.now) }
    ensures small { IfOk result (λ count. count < 2 ^ 63) }
{
    let count = rows.len() as u64;
    if count > i64::MAX as u64 {
        return Err(NoMemory);
    }
    Ok(count)
}

// Copies of the first rows.
fn first_rows(alloc: Global, rows: &Rows, count: u64) -> Result<Rows, NoMemory>
    requires { count ≤ length rows.now }
    ensures { IfOk result (λ first. first ≡ take count rows.now) }
{
    copies(alloc, &rows.as_slice()[..count as usize])
}

fn copies(alloc: Global, rows: &[Row]) -> Result<Rows, NoMemory>
    requires { AreRows rows.now }
    ensures { IfOk result (λ copies. copies ≡ rows.now) }
{
    let mut copies = Rows::new(alloc);
    for row in rows {
        copies.push(copy_of(row)?)?;
    }
    Ok(copies)
}

fn copy_of(row: &Row) -> Result<Row, NoMemory>
    ensures { IfOk result (λ copy. copy ≡ row.now) }
{
    Ok(Row {
        source: row.source,
        tuple: row.tuple.copy()?,
    })
}

/// Runs the rows after a start and the requests that it hasn't turned, by a setup that was judged.
///
/// `rows` are all rows, and the start has turned no more requests than the setup has. It is copied,
/// since the call that read it answers it too. The one error is out of memory.
pub fn run_later_part<R, G>(
    host: &Host<'_, R, G>,
    size: EngineSize,
    setup: Setup,
    requests: &Requests,
    rows: &Rows,
    start: &Start,
) -> Result<Done, NoMemory>
where
    R: Threads + Wait + Copy + Send + Sync + 'static,
    G: Gate + Sync,
    requires size { IsSize size }
    requires sources { AreFromSources (setup_view setup).job rows.now }
    requires turned { start.now.turned ≤ length (setup_view setup).requests }
    requires states { length start.now.states ≡ length (workers_in (setup_view setup).job) }
    ensures run { IfOk result (IsRunFromStart start.now setup requests.now rows.now) }
    ensures workers { IfOk result HasWorkers }
{
    let alloc = host.alloc;
    let begun = copy_of_start(alloc, start)?;
    later_rows_are_whole(&setup, rows);
    let lanes = RingLanes;
    let engine = host.engine(&lanes, size);
    let fed = FeedRows::all(rows);
    let flown = run_from(&engine, setup, &fed, begun)?;
    let ran = flown.record(alloc)?;
    done_of(alloc, ran, requests, rows)
}
