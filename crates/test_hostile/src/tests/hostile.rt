//! Calls of `run` under hostile use, and what they leave.
mod calls;
mod changed;
mod cut;
mod sizes;
pub mod texts;

use crate::tests::check_text_of;
use crate::tests::hostile::cut::Cuts;
use fries_call::Outcome;
use payments::{Calls, MemoryShelf, MemorySink};
use std::alloc::Global;
use std::process::Abort;
use std::sync::Wait;
use std::thread::Threads;
use test_calls::{call, put, words_of};
use test_texts::{CHAIN, FOUR_PAYMENTS};
use tuple_trace::{Bytes, NoMemory, OpenGate, Word};

/// The words of `run`. The last two name the alerts and the audit.
pub const RUN: [&str; 6] = [
    "run",
    "job.toml",
    "requests.toml",
    "payments.csv",
    "alerts.csv",
    "audit.csv",
];

const ALERTS: usize = 4;

const AUDIT: usize = 5;

/// A text: how it begins, a piece that is repeated `times` times, and the rest.
#[derive(Clone, Copy)]
pub struct Text<'a> {
    pub head: &'a [u8],
    pub piece: &'a [u8],
    pub times: u32,
    pub rest: &'a [u8],
}

impl<'a> Text<'a> {
    pub fn of(bytes: &'a [u8]) -> Self {
        Text {
            head: bytes,
            piece: &[],
            times: 0,
            rest: &[],
        }
    }
}

/// What a call of `run` finds outside.
#[derive(Clone, Copy)]
pub struct Around<'a> {
    pub job: Text<'a>,
    pub requests: Text<'a>,
    pub payments: Text<'a>,
    /// The greatest number of bytes that one append takes.
    pub step: u64,
    /// The number of the call of the shelf that fails, counted from 0.
    pub failing: Option<u64>,
    /// That of the write to the output.
    pub refusing: Option<u64>,
}

/// The chain over the four payments, without a request, where no call fails.
pub fn four() -> Around<'static> {
    Around {
        job: Text::of(CHAIN.as_bytes()),
        requests: Text::of(b""),
        payments: Text::of(FOUR_PAYMENTS.as_bytes()),
        step: 1_000_000,
        failing: None,
        refusing: None,
    }
}

/// What is to stand under a name.
#[derive(Clone, Copy)]
pub enum Stored<'a> {
    /// It isn't compared.
    Any,
    /// There is no file, or there is one.
    Made(bool),
    Text(&'a str),
}

/// What a call of `run` is to leave. What is `None` isn't compared.
#[derive(Clone, Copy)]
pub struct Left<'a> {
    pub status: u8,
    /// Whether a run was completed.
    pub has_run: Option<bool>,
    pub alerts: Stored<'a>,
    pub audit: Stored<'a>,
    /// What is printed.
    pub out: Option<&'a str>,
}

impl<'a> Left<'a> {
    /// A fault that comes before the run: it makes no file.
    pub fn refused(status: u8, line: &'a str) -> Self {
        Left {
            status,
            has_run: Some(false),
            alerts: Stored::Made(false),
            audit: Stored::Made(false),
            out: Some(line),
        }
    }

    /// This status. Alerts, which are written first, are there exactly if the call was done.
    pub fn with_status(status: u8) -> Self {
        Left {
            status,
            has_run: None,
            alerts: Stored::Made(status == 0 || status == 8),
            audit: Stored::Any,
            out: None,
        }
    }
}

/// Asserts that a call with these words left this.
fn check_outcome(
    rt: &impl Abort,
    what: &str,
    outcome: &Outcome,
    (words, shelf, out): (&[Word], &MemoryShelf, &[u8]),
    left: &Left<'_>,
) {
    if let Some(line) = left.out {
        check_text_of(rt, what, out, line);
    }
    assert_eq!(rt; outcome.status, left.status, "{what}");
    if let Some(has_run) = left.has_run {
        assert_eq!(rt; outcome.ran.is_some(), has_run, "{what}: a run");
    }
    check_stored(rt, what, file(words, ALERTS, shelf), left.alerts);
    check_stored(rt, what, file(words, AUDIT, shelf), left.audit);
}

/// What stands under the word at this place.
fn file<'a>(words: &[Word], place: usize, shelf: &'a MemoryShelf) -> Option<&'a Bytes> {
    match words.get(place) {
        Some(name) => shelf.get(name),
        None => None,
    }
}

fn check_stored(rt: &impl Abort, what: &str, file: Option<&Bytes>, wanted: Stored<'_>) {
    match (file, wanted) {
        (_, Stored::Any) => {}
        (file, Stored::Made(made)) => assert_eq!(rt; file.is_some(), made, "{what}: a file"),
        (Some(bytes), Stored::Text(text)) => check_text_of(rt, what, bytes.as_slice(), text),
        (None, Stored::Text(_)) => assert!(rt; false, "{what}: no file"),
    }
}

/// Asserts that a call of `run` leaves this.
pub fn check_left<R>(rt: &R, what: &str, around: &Around<'_>, left: &Left<'_>)
where
    R: AllocGlobal + Abort + Threads + Wait + Copy + Send + Sync + 'static,
{
    let words = words_of(rt.alloc(), &RUN).expect(rt, "memory");
    check_words(rt, what, around, &words, left).expect(rt, "memory");
}

fn check_words<R>(
    rt: &R,
    what: &str,
    around: &Around<'_>,
    words: &[Word],
    left: &Left<'_>,
) -> Result<(), NoMemory>
where
    R: AllocGlobal + Abort + Threads + Wait + Copy + Send + Sync + 'static,
{
    let alloc = rt.alloc();
    let mut shelf = shelf_of(alloc, around)?;
    let mut out = MemorySink::new(alloc, calls_of(alloc, around.refusing)?);
    let outcome = call(rt, alloc, words, &mut shelf, &mut out, &OpenGate)?;
    check_outcome(rt, what, &outcome, (words, &shelf, out.written()), left);
    Ok(())
}

/// Calls of which each has a number.
#[derive(Clone, Copy)]
pub enum Tried {
    /// The call of the shelf with this number fails, where an append takes at most `step` bytes.
    Failing { step: usize },
    /// So many bytes are left of a file.
    Cut(Cuts),
    /// The byte of the job file at this place is another.
    Changed(&'static [u8]),
}

impl Tried {
    fn count(self) -> usize {
        match self {
            Tried::Failing { step } => calls::call_count(step).saturating_add(1),
            Tried::Cut(cuts) => cuts.text.len().saturating_add(1),
            Tried::Changed(_) => CHAIN.len(),
        }
    }

    fn around(self, number: usize) -> Around<'static> {
        match self {
            Tried::Failing { step } => calls::around_at(number, step),
            Tried::Cut(cuts) => cuts.around_at(number),
            Tried::Changed(byte) => changed::around_at(number, byte),
        }
    }

    fn left(self, number: usize) -> Left<'static> {
        match self {
            Tried::Failing { step } => calls::left_at(number, step),
            Tried::Cut(cuts) => Left::with_status(cuts.status_at(number)),
            Tried::Changed(byte) => Left::with_status(changed::status_at(number, byte)),
        }
    }
}

/// Asserts that each call leaves what it is to leave. A failure shows `what`, and its number.
pub fn check_tried<R>(rt: &R, what: &str, tried: Tried)
where
    R: AllocGlobal + Abort + Threads + Wait + Copy + Send + Sync + 'static,
{
    for number in 0..tried.count() {
        let what = format!(in rt.alloc(); "{what}, number {number}").expect(rt, "memory");
        check_left(
            rt,
            what.as_str(),
            &tried.around(number),
            &tried.left(number),
        );
    }
}

fn calls_of(alloc: Global, number: Option<u64>) -> Result<Calls, NoMemory> {
    match number {
        Some(number) => Calls::from_slice(alloc, &[number]),
        None => Ok(Calls::new(alloc)),
    }
}

fn shelf_of(alloc: Global, around: &Around<'_>) -> Result<MemoryShelf, NoMemory> {
    let files = [
        ("job.toml", around.job),
        ("requests.toml", around.requests),
        ("payments.csv", around.payments),
    ];
    let mut shelf = MemoryShelf::new(alloc, around.step, calls_of(alloc, around.failing)?);
    for (name, text) in files {
        put(alloc, name, bytes_of(alloc, text)?, &mut shelf)?;
    }
    Ok(shelf)
}

fn bytes_of(alloc: Global, text: Text<'_>) -> Result<Bytes, NoMemory> {
    let mut bytes = Bytes::from_slice(alloc, text.head)?;
    for _ in 0..text.times {
        bytes.extend_from_slice(text.piece)?;
    }
    bytes.extend_from_slice(text.rest)?;
    Ok(bytes)
}
