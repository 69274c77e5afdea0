use crate::tests::check_text;
use crate::tests::live::{AFTER_2, live_words};
use fries_call::{Host, Outcome};
use live_control::MemoryAsks;
use payments::{Calls, MemoryShelf, MemorySink};
use std::alloc::Global;
use std::process::Abort;
use std::str;
use std::sync::Wait;
use std::thread::Threads;
use test_calls::{call_asking, file, put_text};
use test_texts::{CHAIN, FOUR_PAYMENTS, TWO_ALERTS};
use tuple_trace::{Bytes, NoMemory, OpenGate, Word};

/// An input, and what a call over the four payments is to leave.
#[derive(Clone, Copy)]
struct Case {
    input: &'static str,
    /// The numbers of the calls of the input that fail.
    failing: &'static [u64],
    status: u8,
    printed: &'static str,
    /// A part of the audit: the request between the rows before and after it.
    feed: &'static str,
    /// How many bytes of the input are left.
    left: usize,
    /// The row that the record's request waits for.
    after: u64,
}

/// The files of each call.
const FILES: [(&str, &str); 3] = [
    ("job.toml", CHAIN),
    ("requests.toml", AFTER_2),
    ("payments.csv", FOUR_PAYMENTS),
];

const SUMMARY: &str = "rows 4 alerts 2 requests 1 refused 0\n";

// Asserts that the call leaves what it is to leave.
fn check_call<R>(rt: &R, case: Case) -> Result<(), NoMemory>
where
    R: AllocGlobal + Abort + Threads + Wait + Copy + Send + Sync + 'static,
{
    let words = live_words(rt.alloc(), "1", "16")?;
    let mut asks = asks_of(rt.alloc(), case)?;
    check_words(rt, &words, &mut asks, case)?;
    check_rest(rt, &asks, case);
    Ok(())
}

fn check_rest(rt: &impl Abort, asks: &MemoryAsks, case: Case) {
    assert_eq!(rt; asks.left().len(), case.left);
}

fn check_words<R>(rt: &R, words: &[Word], asks: &mut MemoryAsks, case: Case) -> Result<(), NoMemory>
where
    R: AllocGlobal + Abort + Threads + Wait + Copy + Send + Sync + 'static,
{
    let alloc = rt.alloc();
    let mut shelf = MemoryShelf::new(alloc, 1_000_000, Calls::new(alloc));
    for (name, text) in FILES {
        put_text(alloc, name, text, &mut shelf)?;
    }
    let mut out = MemorySink::new(alloc, Calls::new(alloc));
    let host = Host {
        rt,
        alloc,
        gate: &OpenGate,
    };
    let outcome = call_asking(&host, words, &mut shelf, &mut out, asks)?;
    check_left(rt, &outcome, out.written(), case);
    check_files(rt, &shelf, case);
    Ok(())
}

fn asks_of(alloc: Global, case: Case) -> Result<MemoryAsks, NoMemory> {
    let bytes = Bytes::from_slice(alloc, case.input.as_bytes())?;
    let failing = Calls::from_slice(alloc, case.failing)?;
    Ok(MemoryAsks::new(bytes, failing))
}

fn check_left(rt: &impl Abort, outcome: &Outcome, out: &[u8], case: Case) {
    check_text(rt, out, case.printed);
    assert_eq!(rt; outcome.status, case.status);
    assert_eq!(rt; first_after(outcome), Some(case.after));
}

fn check_files(rt: &(impl AllocGlobal + Abort), shelf: &MemoryShelf, case: Case) {
    check_text(rt, bytes_of(rt.alloc(), shelf, "alerts.csv"), TWO_ALERTS);
    let audit = str::from_utf8(bytes_of(rt.alloc(), shelf, "audit.csv")).unwrap_or("");
    assert!(rt;
        audit.contains(case.feed),
        "found:\n{audit}\nwanted:\n{}",
        case.feed
    );
}

// What a file holds; no bytes if it isn't there.
fn bytes_of<'a>(alloc: Global, shelf: &'a MemoryShelf, name: &str) -> &'a [u8] {
    file(alloc, shelf, name).unwrap_or(&[])
}

fn first_after(outcome: &Outcome) -> Option<u64> {
    match &outcome.ran {
        Some(ran) => Some(ran.setup.judged.accepted.as_slice().first()?.after),
        None => None,
    }
}

#[test]
fn no_release(rt: HostRuntime) {
    let case = Case {
        input: "",
        failing: &[],
        status: 0,
        printed: SUMMARY,
        feed: "fed,,,,4,\nissued,,,,1,\n",
        left: 0,
        after: 4,
    };
    check_call(&rt, case).expect(&rt, "memory");
}

#[test]
fn failed_release_input(rt: HostRuntime) {
    let case = Case {
        input: "",
        failing: &[0],
        status: 5,
        printed: "fault 5 asks\n",
        feed: "fed,,,,4,\nissued,,,,1,\n",
        left: 0,
        after: 4,
    };
    check_call(&rt, case).expect(&rt, "memory");
}
