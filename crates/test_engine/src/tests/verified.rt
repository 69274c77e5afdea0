//! What `verify` says of audits that `run` wrote, and of audits with a damage.
use crate::tests::random::Case;
use crate::tests::{AUDIT, Input, bytes_of, check_text, shelf_of};
use payments::MemoryShelf;
use std::alloc::Global;
use std::process::Abort;
use std::str;
use std::sync::Wait;
use std::thread::Threads;
use test_calls::{Said, file, put_text, say, words_of};
use test_texts::{PAYMENTS_JOB, PAYMENTS_REQUESTS, TEN_PAYMENTS};
use tuple_trace::NoMemory;

const VERIFY: [&str; 5] = ["verify", "job.toml", "requests.toml", "payments.csv", AUDIT];

// Calls `verify` over these files.
fn verify<R>(rt: &R, alloc: Global, shelf: &mut MemoryShelf) -> Result<Said, NoMemory>
where
    R: Threads + Wait + Copy + Send + Sync + 'static,
{
    say(rt, alloc, &words_of(alloc, &VERIFY)?, shelf)
}

fn run_with<R>(rt: &R, alloc: Global, input: Input<'_>, shelf: &mut MemoryShelf) -> bool
where
    R: Threads + Wait + Copy + Send + Sync + 'static,
{
    let words = [
        "run",
        "job.toml",
        "requests.toml",
        "payments.csv",
        "alerts.csv",
        AUDIT,
        "--threads",
        input.threads,
        "--capacity",
        input.capacity,
    ];
    match words_of(alloc, &words) {
        Ok(words) => is_done(say(rt, alloc, &words, shelf)),
        Err(_) => false,
    }
}

fn is_done(said: Result<Said, NoMemory>) -> bool {
    match said {
        Ok(said) => said.is_done(),
        Err(_) => false,
    }
}

// What `verify` ends with over these files and this audit.
fn said_of<R>(rt: &R, alloc: Global, input: Input<'_>, audit: &str) -> Result<Said, NoMemory>
where
    R: Threads + Wait + Copy + Send + Sync + 'static,
{
    let mut shelf = shelf_of(alloc, input)?;
    put_text(alloc, AUDIT, audit, &mut shelf)?;
    verify(rt, alloc, &mut shelf)
}

fn check_said(rt: &impl Abort, said: Result<Said, NoMemory>, status: u8, printed: &str) {
    let said = said.expect(rt, "memory");
    check_text(rt, said.out.written(), printed);
    assert_eq!(rt; said.status, status);
}

const ON_FOUR: Input<'static> = Input {
    job: PAYMENTS_JOB,
    requests: PAYMENTS_REQUESTS,
    payments: TEN_PAYMENTS,
    threads: "4",
    capacity: "16",
};

// The shelf with the audit of a run on four threads.
fn shelf_of_four<R>(rt: &R) -> Result<MemoryShelf, NoMemory>
where
    R: AllocGlobal + Abort + Threads + Wait + Copy + Send + Sync + 'static,
{
    let mut shelf = shelf_of(rt.alloc(), ON_FOUR)?;
    let has_run = run_with(rt, rt.alloc(), ON_FOUR, &mut shelf);
    assert!(rt; has_run, "no run");
    Ok(shelf)
}

// The same audit with another count of ann's.
fn miscounted(alloc: Global, shelf: &MemoryShelf) -> Option<String> {
    let text = str::from_utf8(bytes_of(file(alloc, shelf, AUDIT))).ok()?;
    let (before, after) = text.split_once("state,tally,1,,2,ann\n")?;
    format!(in alloc; "{before}state,tally,1,,3,ann\n{after}").ok()
}

fn check_miscounted<R>(rt: &R, audit: &str)
where
    R: AllocGlobal + Abort + Threads + Wait + Copy + Send + Sync + 'static,
{
    let said = said_of(rt, rt.alloc(), ON_FOUR, audit);
    check_said(rt, said, 11, "fault 11 V6 worker 4\n");
}

#[test]
fn verify_payments(rt: HostRuntime) {
    let mut shelf = shelf_of_four(&rt).expect(&rt, "memory");
    let said = verify(&rt, rt.alloc(), &mut shelf);
    check_said(
        &rt,
        said,
        8,
        "verified\nrows 10 alerts 4 requests 3 refused 1\n",
    );
    check_miscounted(
        &rt,
        miscounted(rt.alloc(), &shelf)
            .expect(&rt, "a count")
            .as_str(),
    );
}

const THREADS: [&str; 4] = ["1", "2", "4", "16"];

// How many of the audits of random jobs aren't verified, where the program runs the job.
fn unverified<R>(rt: &R, alloc: Global, seeds: u64) -> Result<u32, NoMemory>
where
    R: Threads + Wait + Copy + Send + Sync + 'static,
{
    let mut wrong = 0u32;
    for seed in 0..seeds {
        let case = Case::of(alloc, seed)?;
        for threads in THREADS {
            let input = Input {
                threads,
                ..case.input()
            };
            wrong = wrong.wrapping_add(u32::from(!is_verified(rt, alloc, input)?));
        }
    }
    Ok(wrong)
}

fn is_verified<R>(rt: &R, alloc: Global, input: Input<'_>) -> Result<bool, NoMemory>
where
    R: Threads + Wait + Copy + Send + Sync + 'static,
{
    let mut shelf = shelf_of(alloc, input)?;
    if !run_with(rt, alloc, input, &mut shelf) {
        return Ok(true);
    }
    let said = verify(rt, alloc, &mut shelf)?;
    Ok(said.is_done() && said.out.written().starts_with(b"verified\n"))
}

#[test]
fn audits_of_random_runs_are_verified(rt: HostRuntime) {
    assert_eq!(rt; unverified(&rt, rt.alloc(), 25), Ok(0));
}
