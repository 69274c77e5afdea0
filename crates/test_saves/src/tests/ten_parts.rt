//! The ten payments in ten parts of one row each, by hand over the engine.
ghost use Rattle.std.specs.Prelude.{◌≡◌, ◌≤◌, IfSome, length};
ghost use Rattle.jobs.specs.Job.{job_view};
ghost use Rattle.jobs.specs.Nodes.{AreFromSources};

use crate::tests::plain::{Texts, texts_of};
use crate::tests::texts::TEN;
use flow_engine::{Engine, run_from};
use flow_model::{RunRecord, Setup, Start};
use jobs::Job;
use lane_ring::RingLanes;
use payments::read_rows;
use savepoint::first_of;
use savepoint_file::issued_up_to;
use std::alloc::Global;
use std::str;
use std::sync::Wait;
use std::thread::Threads;
use test_runs::{job_of, setup_of};
use test_texts::{PAYMENTS_ALERTS, times};
use tuple_trace::{Bytes, FeedRows, MAX_THREADS, NoMemory, OpenGate, Rows, USUAL_CAPACITY};

const ROWS: u32 = 10;

/// The counts after the last row: dee has been seen once, and ann and gus twice.
const COUNTS: &str = "\
state,tally,0,,1,dee
state,tally,1,,2,ann
state,tally,1,,2,gus
";

// Where the text has so many lines, or its end.
fn end_of(text: &[u8], lines: u32) -> usize
    ensures { result ≤ length text.now }
{
    let mut left = lines;
    for (place, byte) in text.iter().enumerate() {
        if *byte == b'\n' {
            if left <= 1 {
                return place + 1;
            }
            left -= 1;
        }
    }
    text.len()
}

// The rows up to one. The header is a line too.
fn rows_up_to(alloc: Global, job: &Job, row: u32) -> Option<Rows>
    ensures { IfSome result (λ rows. AreFromSources (job_view job.now) rows) }
{
    let text = TEN.payments.as_bytes();
    match read_rows(alloc, job, &text[..end_of(text, row.saturating_add(1))]) {
        Ok(rows) => Some(rows),
        Err(_) => None,
    }
}

// The setup with the requests that are issued up to a row, and the plans of all.
fn setup_up_to(alloc: Global, job: Job, row: u32) -> Option<Setup>
    ensures { IfSome result (λ setup. setup.job ≡ job) }
{
    let setup = Box::into_inner(setup_of(alloc, job, TEN.requests, false)?);
    let issued = issued_up_to(&setup, u64::from(row), u64::from(ROWS));
    let turned = issued.min(setup.request_count() as u64);
    Some(first_of(setup, turned))
}

// The rows after a start.
fn run_part<R>(
    engine: &Engine<'_, R, RingLanes, OpenGate>,
    setup: Setup,
    rows: &Rows,
    start: Start,
) -> Option<RunRecord>
where
    R: Threads + Wait + Sync,
    requires { AreFromSources (job_view setup.job) rows.now }
{
    let is_of = start.turned <= setup.request_count() as u64
        && start.states.len() == setup.workers() as usize;
    if !is_of {
        return None;
    }
    match run_from(engine, setup, &FeedRows::all(rows), start) {
        Ok(flown) => flown.record(engine.alloc).ok(),
        Err(_) => None,
    }
}

fn part_up_to<R>(
    engine: &Engine<'_, R, RingLanes, OpenGate>,
    row: u32,
    start: Start,
) -> Option<RunRecord>
where
    R: Threads + Wait + Sync,
{
    let job = job_of(engine.alloc, TEN.job)?;
    let rows = rows_up_to(engine.alloc, &job, row)?;
    let setup = setup_up_to(engine.alloc, job, row)?;
    run_part(engine, setup, &rows, start)
}

// Where a run over the rows up to one goes on. Its counts are moved.
fn start_after(row: u32, ran: RunRecord) -> Start {
    Start {
        row: u64::from(row),
        turned: ran.setup.request_count() as u64,
        states: ran.states,
    }
}

// The alerts of the parts so far, and the audit of the last.
#[derive(Drop)]
struct Shown {
    alerts: Bytes,
    audit: Bytes,
}

fn show(alloc: Global, ran: &RunRecord, shown: &mut Shown) -> Result<(), NoMemory> {
    let Texts { alerts, audit } = texts_of(alloc, ran)?;
    shown.alerts.extend_from_slice(alerts.as_slice())?;
    shown.audit = audit;
    Ok(())
}

// One part more, up to a row. Returns where the next one begins.
fn go_on<R>(
    engine: &Engine<'_, R, RingLanes, OpenGate>,
    row: u32,
    start: Start,
    shown: &mut Shown,
) -> Option<Start>
where
    R: Threads + Wait + Sync,
{
    let ran = part_up_to(engine, row, start)?;
    match show(engine.alloc, &ran, shown) {
        Ok(()) => Some(start_after(row, ran)),
        Err(_) => None,
    }
}

fn first_start(alloc: Global) -> Option<Start> {
    let job = job_of(alloc, TEN.job)?;
    let setup = setup_of(alloc, job, TEN.requests, false)?;
    Start::first(alloc, &setup).ok()
}

fn show_parts<R>(engine: &Engine<'_, R, RingLanes, OpenGate>, shown: &mut Shown) -> Option<()>
where
    R: Threads + Wait + Sync,
{
    let mut start = first_start(engine.alloc)?;
    for row in 1..ROWS + 1 {
        start = go_on(engine, row, start, shown)?;
    }
    Some(())
}

fn records(text: &str) -> usize {
    text.lines()
        .filter(|line| !line.starts_with("sink,"))
        .count()
}

// Whether the alerts are the wanted ones in some order, but for their headers.
fn are_alerts(alerts: &str) -> bool {
    let mut well = records(alerts) == records(PAYMENTS_ALERTS);
    for line in PAYMENTS_ALERTS.lines() {
        well &= line.starts_with("sink,") || times(alerts, line) == times(PAYMENTS_ALERTS, line);
    }
    well
}

// Whether the audit has just these counts.
fn are_counts(audit: &str) -> bool {
    let mut wanted = COUNTS.lines();
    let mut well = true;
    for line in audit.lines() {
        if line.starts_with("state,") {
            well &= wanted.next().unwrap_or("") == line;
        }
    }
    well && wanted.next().is_none()
}

fn is_whole(shown: &Shown) -> bool {
    let alerts = str::from_utf8(shown.alerts.as_slice()).unwrap_or("");
    let audit = str::from_utf8(shown.audit.as_slice()).unwrap_or("");
    are_alerts(alerts) && are_counts(audit)
}

fn leave_the_whole<R>(rt: &R, alloc: Global, threads: u32) -> bool
where
    R: Threads + Wait + Sync,
    requires some { 1 ≤ threads }
    requires few { threads ≤ MAX_THREADS }
{
    let engine = Engine::new(rt, alloc, &RingLanes, &OpenGate, threads, USUAL_CAPACITY);
    let mut shown = Shown {
        alerts: Bytes::new(alloc),
        audit: Bytes::new(alloc),
    };
    show_parts(&engine, &mut shown).is_some() && is_whole(&shown)
}

#[test]
fn ten_parts(rt: HostRuntime) {
    assert!(rt; leave_the_whole(&rt, rt.alloc(), 1));
    assert!(rt; leave_the_whole(&rt, rt.alloc(), 4));
}
