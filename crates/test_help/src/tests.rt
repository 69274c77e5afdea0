//! Whole messages: files with a fault, and what is told of it. Wanted texts are written by hand.

mod audit_faults;
mod file_faults;
mod job_faults;
mod request_faults;
mod row_faults;
mod save_faults;
mod wrong_words;

use fries_help::{Call, ShelfLook, advice};
use fries_lines::Fault;
use payments::{Calls, MemoryShelf};
use std::alloc::Global;
use std::process::Abort;
use test_texts::shown;
use tuple_trace::{Bytes, NoMemory, Word};
use versions::Refused;

/// Asserts that bytes are those of a text. Shows both if they aren't.
pub fn check_text(rt: &impl Abort, found: &[u8], want: &str) {
    assert_eq!(rt; shown(found), want);
}

/// A job that is lawful.
pub const JOB: &str = r#"columns = ["account:text", "amount:cents", "seen:number:own"]

[[node]]
name = "card"
kind = "source"

[[node]]
name = "big"
kind = "filter"
when = [["amount", ">=", 100]]

[[node]]
name = "out"
kind = "sink"
columns = ["account"]

[[edge]]
from = "card"
to = "big"

[[edge]]
from = "big"
to = "out"
"#;

/// What is told of a file in which a piece of text is replaced.
#[derive(Clone, Copy)]
pub struct Case {
    pub old: &'static str,
    pub new: &'static str,
    pub told: &'static str,
}

/// The words of a run.
pub const RUN: &[&str] = &[
    "run",
    "job.toml",
    "requests.toml",
    "pay.csv",
    "alerts.csv",
    "audit.csv",
];

/// A text with a piece of it replaced, where it stands first.
pub fn with(alloc: Global, text: &str, case: Case) -> Result<String, NoMemory> {
    match text.split_once(case.old) {
        Some((before, after)) => {
            let new = case.new;
            Ok(format!(in alloc; "{before}{new}{after}")?)
        }
        None => Ok(String::new(alloc)),
    }
}

/// Asserts that this is told.
pub fn check_told(rt: &impl Abort, found: Result<String, NoMemory>, told: &str) {
    let found = found.expect(rt, "memory");
    check_text(rt, found.as_bytes(), told);
}

/// Asserts that a head is told, and this after it.
pub fn check_told_after(rt: &impl Abort, head: &str, found: Result<String, NoMemory>, told: &str) {
    let found = found.expect(rt, "memory");
    match found.strip_prefix(head) {
        Some(rest) => check_text(rt, rest.as_bytes(), told),
        None => check_text(rt, found.as_bytes(), head),
    }
}

/// What is told of a call over these files.
pub fn told_of(
    alloc: Global,
    files: &[(&str, &str)],
    words: &[&str],
    fault: Option<Fault>,
    refused: &[Refused],
) -> Result<String, NoMemory> {
    let mut shelf = shelf_of(alloc, files)?;
    let words = words_of(alloc, words)?;
    let call = Call {
        words: words.as_slice(),
        not_utf8: None,
        fault,
        refused,
    };
    advice(alloc, call, &mut ShelfLook { shelf: &mut shelf })
}

/// A shelf with these files.
pub fn shelf_of(alloc: Global, files: &[(&str, &str)]) -> Result<MemoryShelf, NoMemory> {
    let mut shelf = MemoryShelf::new(alloc, 16, Calls::new(alloc));
    for (name, text) in files {
        let bytes = Bytes::from_slice(alloc, text.as_bytes())?;
        if shelf.put(word(alloc, name)?, bytes).is_err() {
            return Err(NoMemory);
        }
    }
    Ok(shelf)
}

/// The words of a command line.
pub fn words_of(alloc: Global, words: &[&str]) -> Result<Vec<Word>, NoMemory> {
    let mut list = Vec::new(alloc);
    for text in words {
        list.push(word(alloc, text)?)?;
    }
    Ok(list)
}

fn word(alloc: Global, text: &str) -> Result<Word, NoMemory> {
    Ok(Word::from_string(String::from_str(alloc, text)?))
}
