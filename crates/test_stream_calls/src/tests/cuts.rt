//! A stream that comes in pieces.
ghost use Rattle.std.specs.Prelude.{◌≡◌, IfSome, None};
ghost use Rattle.payments.specs.Memory.{draft_of};

use crate::tests::texts::{AFTER_9, ALERTS, CHAIN, PAYMENTS};
use crate::tests::{STREAM, check_alerts, check_said, say, tap_of, word};
use payments::{Calls, MemoryShelf, store};
use std::alloc::Global;
use std::process::Abort;
use std::sync::Wait;
use std::thread::Threads;

/// A shelf with the job and these requests. No call of it fails.
pub fn shelf_with(alloc: Global, requests: &str) -> Option<MemoryShelf>
    ensures { IfSome result (λ shelf. draft_of shelf ≡ None) }
{
    let mut shelf = MemoryShelf::new(alloc, 7, Calls::new(alloc));
    store(&mut shelf, &word(alloc, "job.toml").ok()?, CHAIN.as_bytes()).ok()?;
    store(
        &mut shelf,
        &word(alloc, "requests.toml").ok()?,
        requests.as_bytes(),
    )
    .ok()?;
    Some(shelf)
}

/// Asserts that the four payments give their alerts, and this line, if at most `most` bytes come at
/// a time. `None` if memory runs out.
fn check_stream<R>(rt: &R, requests: &str, most: usize, line: &str) -> Option<()>
where
    R: AllocGlobal + Abort + Threads + Wait + Copy + Send + Sync + 'static,
{
    let alloc = rt.alloc();
    let mut shelf = shelf_with(alloc, requests)?;
    let mut tap = tap_of(alloc, PAYMENTS, most)?;
    let said = say(rt, alloc, STREAM, &mut shelf, &mut tap)?;
    check_said(rt, &said, 0, line);
    check_alerts(rt, &shelf, ALERTS);
    Some(())
}

const NO_REQUESTS: &str = "rows 4 alerts 2 requests 0 refused 0\n";

/// With one byte at a time each row is a part.
#[test]
fn one_row_a_part(rt: HostRuntime) {
    check_stream(&rt, "", 1, NO_REQUESTS).expect(&rt, "memory");
}

/// Each byte of the input is the last of a read.
#[test]
fn each_cut(rt: HostRuntime) {
    for most in 1..PAYMENTS.len() {
        check_stream(&rt, "", most, NO_REQUESTS).expect(&rt, "memory");
    }
}

/// A request for a row that never comes is issued after the last one.
#[test]
fn end_with_waiting_requests(rt: HostRuntime) {
    let line = "rows 4 alerts 2 requests 1 refused 0\n";
    check_stream(&rt, AFTER_9, 1, line).expect(&rt, "memory");
}
