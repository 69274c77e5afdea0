//! Whole calls over files in memory, and what they leave.

mod alone;
mod changes;
mod check;
mod first;
mod graphs;
mod kinds;
mod lines;
mod make;
mod plan;
mod run;
mod texts;
mod told;
mod verify;
mod verify_kinds;
mod ways;
mod words;

use crate::tests::alone::{ByThemselves, are_alerts};
use crate::tests::told::{audit_of, feed_of, turns_of};
use flow_model::RunRecord;
use fries_call::Outcome;
use payments::{Calls, MemoryShelf, MemorySink};
use std::alloc::Global;
use std::process::Abort;
use std::sync::Wait;
use std::thread::Threads;
use test_calls::{call, file, put_text, words_in};
use test_texts::shown;
use tuple_trace::{Bytes, NoMemory, OpenGate, Word};

/// Asserts that bytes are those of a text. Shows both if they aren't.
pub fn check_text(rt: &impl Abort, found: &[u8], want: &str) {
    assert_eq!(rt; shown(found), want);
}

/// Asserts that bytes are those of a text. Shows both if they aren't, and `what` they are.
pub fn check_text_of(rt: &impl Abort, what: &str, found: &[u8], want: &str) {
    assert_eq!(rt; shown(found), want, "{what}");
}

/// What a file is to be.
#[derive(Clone, Copy)]
pub enum Wanted<'a> {
    /// It isn't compared.
    Any,
    /// There is none.
    Nothing,
    /// There is one.
    Something,
    /// It holds this text.
    Text(&'a str),
    /// It holds the alerts of rows that are sent by themselves.
    Alone(ByThemselves<'a>),
}

/// What of a record is compared.
///
/// That of `first` is determined as a whole. Of the engine's only some lines are: the rest depends
/// on how the threads are scheduled.
#[derive(Clone, Copy)]
pub enum Ran<'a> {
    /// There is no record.
    Nothing,
    /// There is one.
    Something,
    /// Its audit, without refused requests.
    Audit(&'a str),
    /// The lines of the feed.
    Feed(&'a str),
    /// The lines of the turns.
    Turns(&'a str),
}

/// A call: what it finds outside, its words, and what it is to leave.
#[derive(Clone, Copy)]
pub struct Case<'a> {
    /// The files by their names.
    pub files: &'a [(&'a str, &'a str)],
    /// The numbers of the calls of the shelf that fail.
    pub failing: &'a [u64],
    /// The numbers of the calls of the output that fail.
    pub refusing: &'a [u64],
    /// The words, with a space between two.
    pub line: &'a str,
    pub status: u8,
    /// What stands under `alerts.csv`.
    pub alerts: Wanted<'a>,
    /// What stands under `audit.csv`.
    pub audit: Wanted<'a>,
    /// What is printed.
    pub out: &'a str,
    /// What the record tells, if there is one.
    pub ran: Ran<'a>,
    /// The file that failed: one read, and no write. `None` if that isn't compared.
    pub failed: Option<&'a str>,
}

/// A call without files, of which none fails. It leaves no file and no record, and prints nothing.
pub const CALL: Case<'static> = Case {
    files: &[],
    failing: &[],
    refusing: &[],
    line: "",
    status: 0,
    alerts: Wanted::Nothing,
    audit: Wanted::Nothing,
    out: "",
    ran: Ran::Nothing,
    failed: None,
};

/// Asserts that each call leaves what it is to leave. An append takes at most 16 bytes.
///
/// A test passes a `static`: the value of a `const` is proved
/// anew wherever it stands.
pub fn check_all<R>(rt: &R, cases: &[Case<'_>])
where
    R: AllocGlobal + Abort + Threads + Wait + Copy + Send + Sync + 'static,
{
    for case in cases {
        check_over(rt, case.files, case);
    }
}

/// Checks a call over these files in place of its own.
pub fn check_over<R>(rt: &R, files: &[(&str, &str)], case: &Case<'_>)
where
    R: AllocGlobal + Abort + Threads + Wait + Copy + Send + Sync + 'static,
{
    let words = words_in(rt.alloc(), case.line).expect(rt, "memory");
    check_words(rt, files, case, &words).expect(rt, "memory");
}

/// Checks a call with each of these lines in place of its own.
pub fn check_lines<R>(rt: &R, case: &Case<'_>, lines: &[&str])
where
    R: AllocGlobal + Abort + Threads + Wait + Copy + Send + Sync + 'static,
{
    for line in lines {
        check_all(rt, &[Case { line, ..*case }]);
    }
}

/// Checks a call with each of these lines, and what each of them prints.
pub fn check_prints<R>(rt: &R, case: &Case<'_>, prints: &[(&str, &str)])
where
    R: AllocGlobal + Abort + Threads + Wait + Copy + Send + Sync + 'static,
{
    for (line, out) in prints {
        check_all(rt, &[Case { line, out, ..*case }]);
    }
}

fn check_words<R>(
    rt: &R,
    files: &[(&str, &str)],
    case: &Case<'_>,
    words: &[Word],
) -> Result<(), NoMemory>
where
    R: AllocGlobal + Abort + Threads + Wait + Copy + Send + Sync + 'static,
{
    let mut shelf = shelf_of(rt.alloc(), files, case.failing)?;
    let mut out = sink_of(rt.alloc(), case.refusing)?;
    check_call(rt, case, words, &mut shelf, &mut out)
}

fn check_call<R>(
    rt: &R,
    case: &Case<'_>,
    words: &[Word],
    shelf: &mut MemoryShelf,
    out: &mut MemorySink,
) -> Result<(), NoMemory>
where
    R: AllocGlobal + Abort + Threads + Wait + Copy + Send + Sync + 'static,
{
    let outcome = call(rt, rt.alloc(), words, shelf, out, &OpenGate)?;
    check_left(rt, &outcome, shelf, out.written(), case);
    Ok(())
}

fn check_left(
    rt: &(impl AllocGlobal + Abort),
    outcome: &Outcome,
    shelf: &MemoryShelf,
    out: &[u8],
    case: &Case<'_>,
) {
    check_text_of(rt, case.line, out, case.out);
    assert_eq!(rt; outcome.status, case.status, "{}", case.line);
    assert!(rt;
        has_failed(shelf, case.failed),
        "{}: {:?}",
        case.line,
        case.failed
    );
    check_ran(rt, case.line, &outcome.ran, case.ran);
    check_stored(
        rt,
        case.line,
        file(rt.alloc(), shelf, "alerts.csv"),
        case.alerts,
    );
    check_stored(
        rt,
        case.line,
        file(rt.alloc(), shelf, "audit.csv"),
        case.audit,
    );
}

fn has_failed(shelf: &MemoryShelf, wanted: Option<&str>) -> bool {
    let Some(wanted) = wanted else {
        return true;
    };
    match shelf.failed() {
        Some(name) => {
            name.as_str() == wanted && shelf.read_faults() == 1 && shelf.write_faults() == 0
        }
        None => false,
    }
}

fn check_ran(
    rt: &(impl AllocGlobal + Abort),
    line: &str,
    ran: &Option<RunRecord>,
    wanted: Ran<'_>,
) {
    match (ran, wanted) {
        (None, Ran::Nothing) | (Some(_), Ran::Something) => {}
        (Some(ran), Ran::Audit(text)) => check_told(rt, line, audit_of(rt.alloc(), ran), text),
        (Some(ran), Ran::Feed(lines)) => check_told(rt, line, feed_of(rt.alloc(), ran), lines),
        (Some(ran), Ran::Turns(lines)) => check_told(rt, line, turns_of(rt.alloc(), ran), lines),
        (Some(_), Ran::Nothing) => assert!(rt; false, "{line}: a record"),
        (None, _) => assert!(rt; false, "{line}: no record"),
    }
}

fn check_told(rt: &impl Abort, line: &str, found: Option<Bytes>, wanted: &str) {
    let found = found.expect(rt, "memory");
    check_text_of(rt, line, found.as_slice(), wanted);
}

fn check_stored(
    rt: &(impl AllocGlobal + Abort),
    line: &str,
    bytes: Option<&[u8]>,
    wanted: Wanted<'_>,
) {
    match (bytes, wanted) {
        (_, Wanted::Any) | (None, Wanted::Nothing) | (Some(_), Wanted::Something) => {}
        (Some(bytes), Wanted::Text(text)) => check_text_of(rt, line, bytes, text),
        (Some(bytes), Wanted::Alone(rows)) => {
            assert!(rt; are_alerts(rt.alloc(), bytes, rows), "{line}: the alerts");
        }
        (Some(_), Wanted::Nothing) => assert!(rt; false, "{line}: a file"),
        (None, _) => assert!(rt; false, "{line}: no file"),
    }
}

fn shelf_of(
    alloc: Global,
    files: &[(&str, &str)],
    failing: &[u64],
) -> Result<Box<MemoryShelf>, NoMemory> {
    let failing = Calls::from_slice(alloc, failing)?;
    let mut shelf = Box::new(alloc, MemoryShelf::new(alloc, 16, failing))?;
    put_all(alloc, files, &mut shelf)?;
    Ok(shelf)
}

fn put_all(alloc: Global, files: &[(&str, &str)], shelf: &mut MemoryShelf) -> Result<(), NoMemory> {
    for (name, text) in files {
        put_text(alloc, name, text, shelf)?;
    }
    Ok(())
}

fn sink_of(alloc: Global, refusing: &[u64]) -> Result<Box<MemorySink>, NoMemory> {
    let refusing = Calls::from_slice(alloc, refusing)?;
    Ok(Box::new(alloc, MemorySink::new(alloc, refusing))?)
}
