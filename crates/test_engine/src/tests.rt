mod gates;
mod lawful;
mod overtaking;
mod plain;
mod random;
mod random_jobs;
mod schedules;
mod seen;
mod side_by_side;
mod texts;
mod verified;

use crate::tests::lawful::is_lawful;
use crate::tests::seen::{Seen, Wanted, are_wanted, is_audit, is_printed, met_before_turn};
use fries_call::Outcome;
use payments::{Calls, MemoryShelf, MemorySink};
use std::alloc::Global;
use std::process::Abort;
use std::sync::Wait;
use std::thread::Threads;
use test_calls::{call, file, put_text, words_of};
use test_texts::shown;
use tuple_trace::{Gate, NoMemory, Word};

/// Asserts that bytes are those of a text. Shows both if they aren't.
pub fn check_text(rt: &impl Abort, found: &[u8], want: &str) {
    assert_eq!(rt; shown(found), want);
}

/// What `run` is called with: the texts of its files, and the numbers of its options.
#[derive(Clone, Copy)]
pub struct Input<'a> {
    pub job: &'a str,
    pub requests: &'a str,
    pub payments: &'a str,
    pub threads: &'a str,
    pub capacity: &'a str,
}

const ALERTS: &str = "alerts.csv";

const AUDIT: &str = "audit.csv";

/// Calls `run` with this gate, over files in memory, and sees whether it leaves what is wanted.
pub fn run<R, G>(
    rt: &R,
    alloc: Global,
    gate: &G,
    input: Input<'_>,
    wanted: Wanted<'_>,
) -> Result<Seen, NoMemory>
where
    R: Threads + Wait + Copy + Send + Sync + 'static,
    G: Gate + Sync,
{
    let words = [
        "run",
        "job.toml",
        "requests.toml",
        "payments.csv",
        ALERTS,
        AUDIT,
        "--threads",
        input.threads,
        "--capacity",
        input.capacity,
    ];
    let words = words_of(alloc, &words)?;
    run_words(rt, alloc, gate, input, &words, wanted)
}

fn run_words<R, G>(
    rt: &R,
    alloc: Global,
    gate: &G,
    input: Input<'_>,
    words: &[Word],
    wanted: Wanted<'_>,
) -> Result<Seen, NoMemory>
where
    R: Threads + Wait + Copy + Send + Sync + 'static,
    G: Gate + Sync,
{
    let mut shelf = shelf_of(alloc, input)?;
    run_over(rt, alloc, gate, words, &mut shelf, wanted)
}

fn run_over<R, G>(
    rt: &R,
    alloc: Global,
    gate: &G,
    words: &[Word],
    shelf: &mut MemoryShelf,
    wanted: Wanted<'_>,
) -> Result<Seen, NoMemory>
where
    R: Threads + Wait + Copy + Send + Sync + 'static,
    G: Gate + Sync,
{
    let mut out = MemorySink::new(alloc, Calls::new(alloc));
    let outcome = call(rt, alloc, words, shelf, &mut out, gate)?;
    Ok(see(alloc, &outcome, out.written(), shelf, wanted))
}

fn see(
    alloc: Global,
    outcome: &Outcome,
    printed: &[u8],
    shelf: &MemoryShelf,
    wanted: Wanted<'_>,
) -> Seen {
    let ended = outcome.status == wanted.status && is_printed(printed, wanted.printed);
    Seen {
        is_wanted: ended
            && are_wanted(bytes_of(file(alloc, shelf, ALERTS)), wanted.alerts)
            && is_audit(bytes_of(file(alloc, shelf, AUDIT)), wanted.audit),
        met: [
            met_before_turn(&outcome.ran, 0),
            met_before_turn(&outcome.ran, 1),
        ],
        is_lawful: is_lawful(&outcome.ran),
    }
}

fn bytes_of(file: Option<&[u8]>) -> &[u8] {
    file.unwrap_or(&[])
}

fn shelf_of(alloc: Global, input: Input<'_>) -> Result<MemoryShelf, NoMemory> {
    let files = [
        ("job.toml", input.job),
        ("requests.toml", input.requests),
        ("payments.csv", input.payments),
    ];
    let mut shelf = MemoryShelf::new(alloc, 1_000_000, Calls::new(alloc));
    for (name, text) in files {
        put_text(alloc, name, text, &mut shelf)?;
    }
    Ok(shelf)
}
