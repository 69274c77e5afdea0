use std::sync::atomic::{AtomicBool, Ordering};
use std::thread;
use tuple_trace::Gate;

/// How often a gate looks for a worker on another thread before it gives up.
const LOOKS: u32 = 1_000_000;

/// How often a gate looks for an issue before it gives up. The thread that it holds may be the one
/// that issues, and nothing comes then. On a busy machine each look may take some milliseconds.
const LOOKS_FOR_AN_ISSUE: u32 = 1_000;

// Waits until the word is set. False if it wasn't set within so many looks.
fn seen_set(word: &AtomicBool, looks: u32) -> bool {
    for _ in 0..looks {
        if word.load(Ordering::SeqCst) {
            return true;
        }
        thread::yield_now();
    }
    false
}

/// Holds the first tuple of node 1 until request 1 was issued.
#[derive(Drop)]
pub struct UntilIssued {
    issued: AtomicBool,
    missed: AtomicBool,
}

impl UntilIssued {
    pub fn new() -> UntilIssued {
        UntilIssued {
            issued: AtomicBool::new(false),
            missed: AtomicBool::new(false),
        }
    }

    /// Whether the limit was met.
    pub fn missed(&self) -> bool {
        self.missed.load(Ordering::SeqCst)
    }
}

impl Gate for UntilIssued {
    fn pass(&self, node: u32, _worker: u32, place: u64) {
        if node == 1 && place == 0 && !seen_set(&self.issued, LOOKS_FOR_AN_ISSUE) {
            self.missed.store(true, Ordering::SeqCst);
        }
    }

    fn issued(&self, request: u64) {
        if request == 1 {
            self.issued.store(true, Ordering::SeqCst);
        }
    }
}

/// Holds each of two workers of node 1, the first and another one, until the other one has called.
#[derive(Drop)]
pub struct Meeting {
    other: u32,
    first_called: AtomicBool,
    other_called: AtomicBool,
    missed: AtomicBool,
}

impl Meeting {
    /// The gate of worker 0 and of this other worker.
    pub fn with(other: u32) -> Meeting {
        Meeting {
            other,
            first_called: AtomicBool::new(false),
            other_called: AtomicBool::new(false),
            missed: AtomicBool::new(false),
        }
    }

    /// Whether both workers called, and neither met the limit.
    pub fn took_place(&self) -> bool {
        self.first_called.load(Ordering::SeqCst)
            && self.other_called.load(Ordering::SeqCst)
            && !self.missed.load(Ordering::SeqCst)
    }

    fn hold(&self, mine: &AtomicBool, theirs: &AtomicBool) {
        mine.store(true, Ordering::SeqCst);
        if !seen_set(theirs, LOOKS) {
            self.missed.store(true, Ordering::SeqCst);
        }
    }
}

impl Gate for Meeting {
    fn pass(&self, node: u32, worker: u32, _place: u64) {
        if node != 1 {
            return;
        }
        if worker == 0 {
            self.hold(&self.first_called, &self.other_called);
        } else if worker == self.other {
            self.hold(&self.other_called, &self.first_called);
        }
    }

    fn issued(&self, _request: u64) {}
}
