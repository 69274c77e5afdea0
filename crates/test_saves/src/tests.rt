//! Calls over files in memory, and what they leave.

mod cases;
mod cuts;
mod faults;
mod joins;
mod parts;
mod plain;
mod stages;
mod ten_parts;
mod texts;

use flow_model::RunRecord;
use fries_call::Outcome;
use payments::{Calls, MemoryShelf, MemorySink};
use std::alloc::Global;
use std::process::Abort;
use std::str;
use std::sync::Wait;
use std::thread::Threads;
use test_calls::{Said, call, file, put_text, say, words_in};
use test_texts::shown;
use tuple_trace::{NoMemory, OpenGate};

/// Asserts that bytes are those of a text. Shows both if they aren't, and `what` they are.
pub fn check_text_of(rt: &impl Abort, what: &str, found: &[u8], want: &str) {
    assert_eq!(rt; shown(found), want, "{what}");
}

/// The texts of the files that both commands read.
#[derive(Clone, Copy)]
pub struct Input<'a> {
    pub job: &'a str,
    pub requests: &'a str,
    pub payments: &'a str,
}

/// What a call finds outside.
#[derive(Clone, Copy)]
pub struct Around<'a> {
    pub input: Input<'a>,
    /// What stands under `alerts`, `audit` and `save` before the call.
    pub before: [&'a str; 3],
    /// The number of the call of the shelf that fails, counted from 0.
    pub failing: Option<u64>,
}

/// What a call is to leave.
#[derive(Clone, Copy)]
pub struct Left<'a> {
    pub status: u8,
    /// What is printed.
    pub out: &'a str,
    /// What stands under `alerts`, `audit` and `save` after the call. `None` isn't compared.
    pub after: [Option<&'a str>; 3],
}

const NAMES: [&str; 3] = ["alerts", "audit", "save"];

/// Asserts that a call leaves this. The line has its words, with a space between two.
pub fn check_call<R>(rt: &R, around: Around<'_>, line: &str, left: Left<'_>)
where
    R: AllocGlobal + Abort + Threads + Wait + Copy + Send + Sync + 'static,
{
    let (save, failing) = (around.before[2], around.failing);
    let what = format!(in rt.alloc(); "{line}, save {save}, failing {failing:?}");
    let what = what.expect(rt, "memory");
    check_over(rt, around, line, left, what.as_str()).expect(rt, "memory");
}

fn check_over<R>(
    rt: &R,
    around: Around<'_>,
    line: &str,
    left: Left<'_>,
    what: &str,
) -> Result<(), NoMemory>
where
    R: AllocGlobal + Abort + Threads + Wait + Copy + Send + Sync + 'static,
{
    let mut shelf = shelf_of(rt.alloc(), around)?;
    let said = said_of(rt, rt.alloc(), line, &mut shelf)?;
    check_said(rt, &said, left, what);
    check_stored(rt, &shelf, left.after, what);
    Ok(())
}

fn check_said(rt: &impl Abort, said: &Said, left: Left<'_>, what: &str) {
    check_text_of(rt, what, said.out.written(), left.out);
    assert_eq!(rt; said.status, left.status, "{what}");
}

fn said_of<R>(rt: &R, alloc: Global, line: &str, shelf: &mut MemoryShelf) -> Result<Said, NoMemory>
where
    R: Threads + Wait + Copy + Send + Sync + 'static,
{
    say(rt, alloc, &words_in(alloc, line)?, shelf)
}

/// Whether a call ends well, with requests refused or not.
pub fn is_done<R>(rt: &R, alloc: Global, line: &str, shelf: &mut MemoryShelf) -> bool
where
    R: Threads + Wait + Copy + Send + Sync + 'static,
{
    match said_of(rt, alloc, line, shelf) {
        Ok(said) => said.is_done(),
        Err(_) => false,
    }
}

/// The record of a call, if it leaves one.
pub fn record_of<R>(
    rt: &R,
    alloc: Global,
    line: &str,
    shelf: &mut MemoryShelf,
) -> Option<Box<RunRecord>>
where
    R: Threads + Wait + Copy + Send + Sync + 'static,
{
    let words = words_in(alloc, line).ok()?;
    let mut out = MemorySink::new(alloc, Calls::new(alloc));
    let outcome = call(rt, alloc, &words, shelf, &mut out, &OpenGate);
    ran_of(alloc, outcome.ok()?)
}

fn ran_of(alloc: Global, outcome: Box<Outcome>) -> Option<Box<RunRecord>> {
    let Outcome { ran, .. } = Box::into_inner(outcome);
    match ran {
        Some(ran) => Box::new(alloc, ran).ok(),
        None => None,
    }
}

fn check_stored(
    rt: &(impl AllocGlobal + Abort),
    shelf: &MemoryShelf,
    after: [Option<&str>; 3],
    what: &str,
) {
    for (name, wanted) in NAMES.iter().zip(after.iter()) {
        if wanted.is_some() {
            assert_eq!(rt; stored(rt.alloc(), shelf, name), *wanted, "{what}: {name}");
        }
    }
}

/// The text that stands under this name.
pub fn stored<'a>(alloc: Global, shelf: &'a MemoryShelf, name: &str) -> Option<&'a str> {
    match file(alloc, shelf, name) {
        Some(bytes) => str::from_utf8(bytes).ok(),
        None => None,
    }
}

/// Files in memory. An append takes the whole text.
pub fn shelf_of(alloc: Global, around: Around<'_>) -> Result<MemoryShelf, NoMemory> {
    let files = [
        ("job", around.input.job),
        ("requests", around.input.requests),
        ("payments", around.input.payments),
        ("alerts", around.before[0]),
        ("audit", around.before[1]),
        ("save", around.before[2]),
    ];
    let mut shelf = MemoryShelf::new(alloc, 1_000_000, calls_of(alloc, around.failing)?);
    for (name, text) in files {
        put_text(alloc, name, text, &mut shelf)?;
    }
    Ok(shelf)
}

fn calls_of(alloc: Global, number: Option<u64>) -> Result<Calls, NoMemory> {
    match number {
        Some(number) => Calls::from_slice(alloc, &[number]),
        None => Ok(Calls::new(alloc)),
    }
}
