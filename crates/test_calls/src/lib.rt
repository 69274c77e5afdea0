//! Whole calls over files in memory, for the tests of crates above.
//!
//! [`call`], [`call_asking`], [`call_sure`] and [`say`] call `fries`. They have no clauses: a caller of its
//! contract is dear to prove, and each crate of tests would pay for that again.
//!
//! ```
//! let mut shelf = MemoryShelf::new(alloc, 16, Calls::new(alloc));
//! put_text(alloc, "job.toml", JOB, &mut shelf)?;
//! let words = words_in(alloc, "check job.toml")?;
//! let said = say(rt, alloc, &words, &mut shelf)?;
//! assert!(rt; said.is(0, "nodes 3 edges 2 workers 2 weight 2\n"));
//! ```
#![tactic(auto)]

use fries_call::{Host, Outcome, fries};
use live_control::{Asks, MemoryAsks};
use payments::{Calls, MemoryShelf, MemorySink, SureShelf, SureSink};
use std::alloc::Global;
use std::sync::Wait;
use std::thread::Threads;
use tuple_trace::{Bytes, Gate, NoMemory, OpenGate, Word};

/// Calls `fries` with these words. The input that releases live requests is empty.
///
/// The outcome is in a box, since a test that owns a large value is dear to prove. The one error is
/// out of memory for the box.
pub fn call<R, G>(
    rt: &R,
    alloc: Global,
    words: &[Word],
    shelf: &mut MemoryShelf,
    out: &mut MemorySink,
    gate: &G,
) -> Result<Box<Outcome>, NoMemory>
where
    R: Threads + Wait + Copy + Send + Sync + 'static,
    G: Gate + Sync,
{
    let mut asks = MemoryAsks::new(Bytes::new(alloc), Calls::new(alloc));
    call_asking(&Host { rt, alloc, gate }, words, shelf, out, &mut asks)
}

/// Calls `fries` with these words, as [`call`] does. `asks` is the input that releases live
/// requests.
pub fn call_asking<R, G, Q>(
    host: &Host<'_, R, G>,
    words: &[Word],
    shelf: &mut MemoryShelf,
    out: &mut MemorySink,
    asks: &mut Q,
) -> Result<Box<Outcome>, NoMemory>
where
    R: Threads + Wait + Copy + Send + Sync + 'static,
    G: Gate + Sync,
    Q: Asks,
{
    let outcome = fries(host, words, shelf, out, asks);
    Ok(Box::new(host.alloc, outcome)?)
}

/// Calls `fries` with these words over files and an output that never refuse. The input that
/// releases live requests is empty. The one error is out of memory for the box.
pub fn call_sure<R>(
    rt: &R,
    alloc: Global,
    words: &[Word],
    shelf: &mut SureShelf,
    out: &mut SureSink,
) -> Result<Box<Outcome>, NoMemory>
where
    R: Threads + Wait + Copy + Send + Sync + 'static,
{
    let mut asks = MemoryAsks::new(Bytes::new(alloc), Calls::new(alloc));
    let host = Host {
        rt,
        alloc,
        gate: &OpenGate,
    };
    let outcome = fries(&host, words, shelf, out, &mut asks);
    Ok(Box::new(alloc, outcome)?)
}

/// What a call ended with, and what it printed.
#[derive(Drop)]
pub struct Said {
    pub status: u8,
    pub out: MemorySink,
}

impl Said {
    /// Whether the call had this status, and printed this.
    pub fn is(&self, status: u8, printed: &str) -> bool {
        self.status == status && self.out.written() == printed.as_bytes()
    }

    /// Whether the call was done, with requests refused or not.
    pub fn is_done(&self) -> bool {
        self.status == 0 || self.status == 8
    }
}

/// Calls `fries` with these words, and gives its record up. No write to the output fails. The one
/// error is out of memory, as of [`call`].
pub fn say<R>(
    rt: &R,
    alloc: Global,
    words: &[Word],
    shelf: &mut MemoryShelf,
) -> Result<Said, NoMemory>
where
    R: Threads + Wait + Copy + Send + Sync + 'static,
{
    let mut out = MemorySink::new(alloc, Calls::new(alloc));
    let outcome = call(rt, alloc, words, shelf, &mut out, &OpenGate)?;
    Ok(Said {
        status: outcome.status,
        out,
    })
}

/// Returns the words of a line, which has one space between two. An empty line has none. The one
/// error is out of memory.
pub fn words_in(alloc: Global, line: &str) -> Result<Vec<Word>, NoMemory> {
    let mut words = Vec::new(alloc);
    if !line.is_empty() {
        for text in line.split(' ') {
            words.push(word(alloc, text)?)?;
        }
    }
    Ok(words)
}

/// Returns a word for each text. The one error is out of memory.
pub fn words_of(alloc: Global, texts: &[&str]) -> Result<Vec<Word>, NoMemory> {
    let mut words = Vec::new(alloc);
    for text in texts {
        words.push(word(alloc, text)?)?;
    }
    Ok(words)
}

/// Returns the word with this text. The one error is out of memory.
pub fn word(alloc: Global, text: &str) -> Result<Word, NoMemory> {
    Ok(Word::from_string(text.to_string(alloc)?))
}

/// Puts a file with this text under a name. The one error is out of memory.
pub fn put_text(
    alloc: Global,
    name: &str,
    text: &str,
    shelf: &mut MemoryShelf,
) -> Result<(), NoMemory> {
    put(
        alloc,
        name,
        Bytes::from_slice(alloc, text.as_bytes())?,
        shelf,
    )
}

/// Puts a file with these bytes under a name. The one error is out of memory.
pub fn put(
    alloc: Global,
    name: &str,
    bytes: Bytes,
    shelf: &mut MemoryShelf,
) -> Result<(), NoMemory> {
    match shelf.put(word(alloc, name)?, bytes) {
        Ok(()) => Ok(()),
        Err(_) => Err(NoMemory),
    }
}

/// Returns what stands under a name, and `None` if nothing does or memory runs out.
pub fn file<'a>(alloc: Global, shelf: &'a MemoryShelf, name: &str) -> Option<&'a [u8]> {
    let Ok(name) = word(alloc, name) else {
        return None;
    };
    match shelf.get(&name) {
        Some(bytes) => Some(bytes.as_slice()),
        None => None,
    }
}
