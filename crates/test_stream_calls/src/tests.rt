//! Whole streams over files in memory, and what they leave.
ghost use Rattle.std.specs.Prelude.{◌≡◌, None};
ghost use Rattle.payments.specs.Memory.{draft_of};

mod cuts;
mod exact;
mod keys;
mod killed;
mod left;
mod resumed;
mod texts;

use crate::tests::left::bytes_of;
use fries_lines::Fault;
use fries_steps::Host;
use fries_words::stream_of;
use input_pieces::{SureTap, Tap};
use payments::{Calls, GrowingShelf, MemoryShelf, MemorySink};
use std::alloc::Global;
use std::process::Abort;
use std::sync::Wait;
use std::thread::Threads;
use stream_call::stream;
use stream_run::{PartEnd, Watch};
use test_texts::shown;
use tuple_trace::{Bytes, NoMemory, OpenGate, Word};

/// Asserts that bytes are those of a text. Shows both if they aren't.
pub fn check_text(rt: &impl Abort, found: &[u8], want: &str) {
    assert_eq!(rt; shown(found), want);
}

/// Asserts that bytes are those of a text. Shows both if they aren't, and `what` they are.
pub fn check_text_of(rt: &impl Abort, what: &str, found: &[u8], want: &str) {
    assert_eq!(rt; shown(found), want, "{what}");
}

/// The words of a stream without a savepoint.
pub const STREAM: &str = "stream job.toml requests.toml alerts.csv audit.csv";

/// The words of a stream that saves after each row.
pub const SAVING: &str =
    "stream job.toml requests.toml alerts.csv audit.csv --save save.csv --every 1";

/// The words of the same stream where it goes on.
pub const RESUMING: &str =
    "stream job.toml requests.toml alerts.csv audit.csv --save save.csv --every 1 --resume";

/// Counts what it is told.
#[derive(Drop)]
pub struct Counter {
    pub parts: u64,
    pub saves: u64,
}

impl Watch for Counter {
    fn part_ended<S: GrowingShelf>(&mut self, _shelf: &S, _end: &PartEnd<'_>) {
        self.parts = self.parts.saturating_add(1);
    }

    fn saved<S: GrowingShelf>(&mut self, _shelf: &S, _end: &PartEnd<'_>) {
        self.saves = self.saves.saturating_add(1);
    }

    fn skipped(&mut self, _fault: Fault) {}
}

/// What a stream ended with, what it printed, and what its watch was told.
#[derive(Drop)]
pub struct Said {
    pub status: u8,
    pub out: MemorySink,
    pub told: Counter,
}

/// Asserts that a stream had this status, and printed this.
pub fn check_said(rt: &impl Abort, said: &Said, status: u8, printed: &str) {
    check_text(rt, said.out.written(), printed);
    assert_eq!(rt; said.status, status);
}

/// Runs a stream that a line of words asks for.
pub fn say<R, T: Tap>(
    rt: &R,
    alloc: Global,
    line: &str,
    shelf: &mut MemoryShelf,
    tap: &mut T,
) -> Option<Box<Said>>
where
    R: Threads + Wait + Copy + Send + Sync + 'static,
    requires { draft_of shelf.old ≡ None }
{
    let words = words_in(alloc, line).ok()?;
    let files = stream_of(alloc, &words).ok()?;
    let files = Box::new(alloc, files).ok()?;
    let mut out = MemorySink::new(alloc, Calls::new(alloc));
    let mut told = Counter { parts: 0, saves: 0 };
    let host = Host {
        rt,
        alloc,
        gate: &OpenGate,
    };
    let status = stream(&host, &files, shelf, &mut out, tap, &mut told).status;
    Box::new(alloc, Said { status, out, told }).ok()
}

fn words_in(alloc: Global, line: &str) -> Result<Vec<Word>, NoMemory> {
    let mut words = Vec::new(alloc);
    for text in line.split(' ') {
        words.push(word(alloc, text)?)?;
    }
    Ok(words)
}

pub fn word(alloc: Global, text: &str) -> Result<Word, NoMemory> {
    Ok(Word::from_string(text.to_string(alloc)?))
}

/// A tap that gives a text, at most so many bytes at a time.
pub fn tap_of(alloc: Global, text: &str, most: usize) -> Option<SureTap> {
    let bytes = Bytes::from_slice(alloc, text.as_bytes()).ok()?;
    Some(SureTap::new(bytes, most))
}

/// Asserts that the alerts are this text.
pub fn check_alerts(rt: &(impl AllocGlobal + Abort), shelf: &MemoryShelf, text: &str) {
    check_text_of(
        rt,
        "alerts.csv",
        bytes_of(rt.alloc(), shelf, "alerts.csv"),
        text,
    );
}
