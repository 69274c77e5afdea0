use crate::tests::live::{AFTER_2_AND_12, live_words, shelf_of};
use fries_call::{Host, Outcome};
use live_control::{Asks, Failed, MemoryAsks};
use payments::{Calls, MemorySink};
use sink_journal::Feed;
use std::alloc::Global;
use std::sync::Wait;
use std::sync::atomic::{AtomicBool, Ordering};
use std::thread;
use std::thread::Threads;
use test_calls::call_asking;
use test_texts::TWELVE_OF_75;
use tuple_trace::{Bytes, Gate, NoMemory};

/// How often a gate or an input looks before it gives up.
const LOOKS: u32 = 1_000_000;

// Waits until the word is set. False if it wasn't set within the limit.
fn seen_set(word: &AtomicBool) -> bool {
    for _ in 0..LOOKS {
        if word.load(Ordering::SeqCst) {
            return true;
        }
        thread::yield_now();
    }
    false
}

/// A call, and what its input waits for.
#[derive(Clone, Copy)]
pub struct Case {
    pub threads: &'static str,
    /// The line feeds of the input.
    pub input: &'static str,
    /// Whether the input gives no second byte before request 1 is issued.
    pub waits: bool,
}

/// Holds the fourth tuple of node 1 until the input is asked for more after its first line feed.
/// The first release is told by then. The gate can't wait for the issue: the thread that it holds
/// may be the one that feeds.
#[derive(Drop)]
struct Watched {
    passed: AtomicBool,
    heard: AtomicBool,
    issued: AtomicBool,
    missed: AtomicBool,
}

impl Watched {
    // Waits for this word, and notes if the limit was met.
    fn wait_for(&self, word: &AtomicBool) {
        if !seen_set(word) {
            self.missed.store(true, Ordering::SeqCst);
        }
    }
}

impl Gate for Watched {
    fn pass(&self, node: u32, _worker: u32, place: u64) {
        self.passed.store(true, Ordering::SeqCst);
        if node == 1 && place == 3 {
            self.wait_for(&self.heard);
        }
    }

    fn issued(&self, request: u64) {
        if request == 1 {
            self.issued.store(true, Ordering::SeqCst);
        }
    }
}

/// An input that gives its first byte once a tuple has passed the gate. The reader's thread is none
/// of the engine's, so it may wait for an issue.
#[derive(Drop)]
struct AfterPass<'a> {
    asks: MemoryAsks,
    gate: &'a Watched,
    asked: bool,
    waits: bool,
}

impl<'a> Asks for AfterPass<'a> {
    ghost use Rattle.live_control.specs.Asking.{asking_state};

    ghost state = { λ asks. asking_state asks.asks };

    fn next(&mut self) -> Result<Option<u8>, Failed> {
        if !self.asked {
            self.gate.wait_for(&self.gate.passed);
        } else {
            self.gate.heard.store(true, Ordering::SeqCst);
            if self.waits {
                self.gate.wait_for(&self.gate.issued);
            }
        }
        self.asked = true;
        self.asks.next()
    }
}

/// Whether request 1 is issued before the last row, and neither the gate nor the input gave up.
pub fn is_in_time<R>(rt: &R, alloc: Global, case: Case) -> bool
where
    R: Threads + Wait + Copy + Send + Sync + 'static,
{
    matches!(is_issued_in_time(rt, alloc, case), Ok(true))
}

fn is_issued_in_time<R>(rt: &R, alloc: Global, case: Case) -> Result<bool, NoMemory>
where
    R: Threads + Wait + Copy + Send + Sync + 'static,
{
    let gate = Watched {
        passed: AtomicBool::new(false),
        heard: AtomicBool::new(false),
        issued: AtomicBool::new(false),
        missed: AtomicBool::new(false),
    };
    let bytes = Bytes::from_slice(alloc, case.input.as_bytes())?;
    let asks = MemoryAsks::new(bytes, Calls::new(alloc));
    let mut asks = AfterPass {
        asks,
        gate: &gate,
        asked: false,
        waits: case.waits,
    };
    let in_time = is_issued(rt, alloc, case.threads, &mut asks, &gate)?;
    Ok(in_time && !gate.missed.load(Ordering::SeqCst))
}

fn is_issued<R>(
    rt: &R,
    alloc: Global,
    threads: &str,
    asks: &mut AfterPass<'_>,
    gate: &Watched,
) -> Result<bool, NoMemory>
where
    R: Threads + Wait + Copy + Send + Sync + 'static,
{
    let words = live_words(alloc, threads, "1")?;
    let mut shelf = shelf_of(alloc, AFTER_2_AND_12, TWELVE_OF_75)?;
    let mut out = MemorySink::new(alloc, Calls::new(alloc));
    let host = Host { rt, alloc, gate };
    let outcome = call_asking(&host, &words, &mut shelf, &mut out, asks)?;
    Ok(outcome.status == 0 && is_before_last(&outcome))
}

// Whether request 1 is issued before row 12 is fed.
fn is_before_last(outcome: &Outcome) -> bool {
    let Some(ran) = &outcome.ran else {
        return false;
    };
    let mut is_issued = false;
    for feed in &ran.feeds {
        match feed {
            Feed::Issued(1) => is_issued = true,
            Feed::Fed(12) => return is_issued,
            _ => {}
        }
    }
    false
}

#[test]
fn reader_beside_the_engine(rt: HostRuntime) {
    let case = Case {
        threads: "2",
        input: "\n",
        waits: false,
    };
    assert!(rt; is_in_time(&rt, rt.alloc(), case));
}
