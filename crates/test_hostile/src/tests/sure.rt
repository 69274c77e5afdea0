//! Calls of `run` over files and an output that never refuse.
use crate::tests::hostile::RUN;
use crate::tests::{check_text, check_text_of};
use fries_call::Outcome;
use payments::{SureShelf, SureSink};
use std::alloc::Global;
use std::process::Abort;
use std::sync::Wait;
use std::thread::Threads;
use test_calls::{call_sure, word, words_of};
use test_texts::{AUDIT_OF_FOUR, CHAIN, FOUR_PAYMENTS, TWO_ALERTS};
use tuple_trace::{Bytes, NoMemory};

/// The files of the chain over four payments.
const FILES: [(&str, &str); 3] = [
    ("job.toml", CHAIN),
    ("requests.toml", ""),
    ("payments.csv", FOUR_PAYMENTS),
];

/// Asserts that `run` over these files ends with this status and prints this line. If there is a
/// text of the alerts, then they and the audit are to be those of the four payments.
fn check_run<'a, R>(
    rt: &R,
    files: &'a [(&'a str, &'a str)],
    (status, line): (u8, &'a str),
    alerts: Option<&'a str>,
) -> Result<(), NoMemory>
where
    R: AllocGlobal + Abort + Threads + Wait + Copy + Send + Sync + 'static,
{
    let alloc = rt.alloc();
    let mut shelf = shelf_of(alloc, files)?;
    let mut out = SureSink::new(alloc);
    let outcome = call_sure(rt, alloc, &words_of(alloc, &RUN)?, &mut shelf, &mut out)?;
    let audit = match alerts {
        Some(_) => Some(AUDIT_OF_FOUR),
        None => None,
    };
    check_text(rt, out.written(), line);
    check_status(rt, &outcome, status);
    check_stored(rt, &shelf, "alerts.csv", alerts);
    check_stored(rt, &shelf, "audit.csv", audit);
    Ok(())
}

fn check_status(rt: &impl Abort, outcome: &Outcome, status: u8) {
    assert_eq!(rt; outcome.status, status);
}

fn shelf_of<'a>(alloc: Global, files: &'a [(&'a str, &'a str)]) -> Result<SureShelf, NoMemory> {
    let mut shelf = SureShelf::new(alloc, 16);
    for (name, text) in files {
        let bytes = Bytes::from_slice(alloc, text.as_bytes())?;
        if shelf.put(word(alloc, name)?, bytes).is_err() {
            return Err(NoMemory);
        }
    }
    Ok(shelf)
}

fn check_stored(
    rt: &(impl AllocGlobal + Abort),
    shelf: &SureShelf,
    name: &str,
    text: Option<&str>,
) {
    let word = word(rt.alloc(), name).expect(rt, "memory");
    match (shelf.get(&word), text) {
        (Some(bytes), Some(text)) => check_text_of(rt, name, bytes.as_slice(), text),
        (found, wanted) => assert_eq!(rt; found.is_some(), wanted.is_some(), "{name}"),
    }
}

#[test]
fn sure_files(rt: HostRuntime) {
    let line = (0, "rows 4 alerts 2 requests 0 refused 0\n");
    check_run(&rt, &FILES, line, Some(TWO_ALERTS)).expect(&rt, "memory");
}

/// A name without a file is read as an empty file.
#[test]
fn no_file_at_all(rt: HostRuntime) {
    let line = (2, "fault 2 J2 columns\n");
    check_run(&rt, &[], line, None).expect(&rt, "memory");
}
