//! What a stream leaves that is killed, and the one that goes on from there.
//!
//! A kill is a call of the shelf from which on calls fail. If a call takes one byte, a stream can
//! be killed after each byte of its alerts, its audit and its savepoint. A savepoint that isn't
//! whole is a draft: it is lost with the stream, and the file is as before.
ghost use Rattle.std.specs.Prelude.{◌≡◌, None};
ghost use Rattle.payments.specs.Memory.{draft_of};

use crate::tests::{say, tap_of, word};
use payments::{Calls, MemoryShelf};
use std::alloc::Global;
use std::sync::Wait;
use std::thread::Threads;
use tuple_trace::Bytes;

/// A stream with a savepoint. Its words name the files that `SAVING` names.
#[derive(Drop)]
pub struct Case<'a> {
    pub job: &'a str,
    pub requests: &'a str,
    pub payments: &'a str,
    /// The most bytes that a read of the payments gives.
    pub most: usize,
    /// The most bytes that a call of the shelf appends before a kill; at least 1.
    pub step: u64,
    /// The words with which it begins anew.
    pub begin: &'a str,
    /// The words with which it goes on from its savepoint.
    pub resume: &'a str,
}

/// What became of a stream that is killed before a call of its shelf.
#[derive(Drop)]
enum Fate {
    /// It made no such call, since it had ended.
    Ended,
    /// Another stream went on, and left the wanted files.
    Resumed,
    /// Another stream went on, and left other files, or had a fault.
    Lost,
}

/// How many calls fail at a kill. A stream ends at the first write that fails, and before it there
/// are at most a few reads.
const FAILING: u64 = 8;

/// More calls than a stream of these tests makes.
const MOST_CALLS: u64 = 100_000;

/// A shelf without a file.
pub fn empty(alloc: Global) -> MemoryShelf
    ensures { draft_of result ≡ None }
{
    MemoryShelf::new(alloc, u64::MAX, Calls::new(alloc))
}

/// What a file holds; no bytes if it isn't there.
pub fn bytes_of<'a>(alloc: Global, shelf: &'a MemoryShelf, name: &str) -> &'a [u8] {
    let Ok(name) = word(alloc, name) else {
        return &[];
    };
    match shelf.get(&name) {
        Some(bytes) => bytes.as_slice(),
        None => &[],
    }
}

fn have_same(alloc: Global, name: &str, some: &MemoryShelf, other: &MemoryShelf) -> bool {
    bytes_of(alloc, some, name) == bytes_of(alloc, other, name)
}

/// How many bytes the alerts and the audit have.
fn size(alloc: Global, shelf: &MemoryShelf) -> u64 {
    let alerts = bytes_of(alloc, shelf, "alerts.csv").len() as u64;
    alerts.saturating_add(bytes_of(alloc, shelf, "audit.csv").len() as u64)
}

/// Puts a file on a shelf. No call is counted.
fn put(alloc: Global, shelf: &mut MemoryShelf, name: &str, text: &[u8]) -> Option<()>
    requires { draft_of shelf.old ≡ None }
    ensures { draft_of shelf.new ≡ None }
{
    let name = word(alloc, name).ok()?;
    let bytes = Bytes::from_slice(alloc, text).ok()?;
    shelf.put(name, bytes).ok()
}

/// Copies a file, if it is there.
fn copy(alloc: Global, from: &MemoryShelf, to: &mut MemoryShelf, name: &str) -> Option<()>
    requires { draft_of to.old ≡ None }
    ensures { draft_of to.new ≡ None }
{
    match bytes_of(alloc, from, name) {
        [] => Some(()),
        bytes => put(alloc, to, name, bytes),
    }
}

/// Puts the job and the requests on a shelf, and what another stream left.
fn put_all(alloc: Global, case: &Case<'_>, from: &MemoryShelf, to: &mut MemoryShelf) -> Option<()>
    requires { draft_of to.old ≡ None }
    ensures { draft_of to.new ≡ None }
{
    put(alloc, to, "job.toml", case.job.as_bytes())?;
    put(alloc, to, "requests.toml", case.requests.as_bytes())?;
    copy(alloc, from, to, "alerts.csv")?;
    copy(alloc, from, to, "audit.csv")?;
    copy(alloc, from, to, "save.csv")
}

/// Runs a stream, and returns its status. It goes on from what another one left, or begins anew if
/// that has no savepoint.
fn go_on<R>(
    rt: &R,
    alloc: Global,
    case: &Case<'_>,
    from: &MemoryShelf,
    shelf: &mut MemoryShelf,
) -> Option<u8>
where
    R: Threads + Wait + Copy + Send + Sync + 'static,
    requires { draft_of shelf.old ≡ None }
{
    put_all(alloc, case, from, shelf)?;
    let line = match bytes_of(alloc, from, "save.csv") {
        [] => case.begin,
        _ => case.resume,
    };
    let mut tap = tap_of(alloc, case.payments, case.most)?;
    Some(say(rt, alloc, line, shelf, &mut tap)?.status)
}

/// What a stream leaves that goes on and isn't killed. `None` if its status isn't 0.
pub fn left_after<R>(
    rt: &R,
    alloc: Global,
    case: &Case<'_>,
    from: &MemoryShelf,
) -> Option<Box<MemoryShelf>>
where
    R: Threads + Wait + Copy + Send + Sync + 'static,
{
    let mut shelf = empty(alloc);
    match go_on(rt, alloc, case, from, &mut shelf) {
        Some(0) => Box::new(alloc, shelf).ok(),
        _ => None,
    }
}

/// Whether a stream that goes on leaves the wanted files.
fn leaves<R>(
    rt: &R,
    alloc: Global,
    case: &Case<'_>,
    from: &MemoryShelf,
    wanted: &MemoryShelf,
) -> bool
where
    R: Threads + Wait + Copy + Send + Sync + 'static,
{
    let Some(left) = left_after(rt, alloc, case, from) else {
        return false;
    };
    have_same(alloc, "alerts.csv", &left, wanted)
        && have_same(alloc, "audit.csv", &left, wanted)
        && have_same(alloc, "save.csv", &left, wanted)
}

fn calls_from(alloc: Global, first: u64) -> Option<Calls> {
    let mut calls = Calls::new(alloc);
    for more in 0..FAILING {
        calls.push(first.saturating_add(more)).ok()?;
    }
    Some(calls)
}

/// Kills a stream before this call, and has another one go on.
fn kill_before<R>(
    rt: &R,
    alloc: Global,
    case: &Case<'_>,
    from: &MemoryShelf,
    call: u64,
    wanted: &MemoryShelf,
) -> Option<Fate>
where
    R: Threads + Wait + Copy + Send + Sync + 'static,
{
    let mut shelf = MemoryShelf::new(alloc, case.step, calls_from(alloc, call)?);
    let status = go_on(rt, alloc, case, from, &mut shelf)?;
    Some(if status == 0 {
        Fate::Ended
    } else if leaves(rt, alloc, case, &shelf, wanted) {
        Fate::Resumed
    } else {
        Fate::Lost
    })
}

/// The first of the calls 0, `stride`, 2 `stride`, .. before which a kill changes what is left in
/// the end. `None` if no kill does, up to a call that the stream doesn't make.
///
/// A stream makes more calls than its alerts and its audit have steps, or the kills missed some.
pub fn first_loss<R>(
    rt: &R,
    alloc: Global,
    case: &Case<'_>,
    from: &MemoryShelf,
    stride: u64,
    wanted: &MemoryShelf,
) -> Option<u64>
where
    R: Threads + Wait + Copy + Send + Sync + 'static,
{
    let written = size(alloc, wanted).saturating_sub(size(alloc, from));
    let steps = written / case.step.max(1);
    for kill in 0..MOST_CALLS {
        let call = kill.saturating_mul(stride);
        match kill_before(rt, alloc, case, from, call, wanted) {
            Some(Fate::Ended) if call > steps => return None,
            Some(Fate::Resumed) => {}
            _ => return Some(call),
        }
    }
    Some(MOST_CALLS)
}
