//! Random jobs that are cut at each of their rows, beside the plain executor.

use crate::tests::cases::{Case, rows_of};
use crate::tests::plain::{Texts, plain_texts};
use crate::tests::texts::TEN;
use crate::tests::{Around, Input, is_done, shelf_of, stored};
use payments::MemoryShelf;
use std::alloc::Global;
use std::str;
use std::sync::Wait;
use std::thread::Threads;
use test_texts::times;
use tuple_trace::NoMemory;

/// The second command, on one thread and on four.
const RESUME: [(&str, &str); 2] = [
    (
        "1",
        "resume job requests payments save alerts-2 audit-2 --threads 1",
    ),
    (
        "4",
        "resume job requests payments save alerts-2 audit-2 --threads 4",
    ),
];

fn shelf(alloc: Global, input: Input<'_>) -> Result<MemoryShelf, NoMemory> {
    shelf_of(
        alloc,
        Around {
            input,
            before: ["", "", ""],
            failing: None,
        },
    )
}

// What follows the first line.
fn body(text: &str) -> &str {
    match text.split_once('\n') {
        Some((_, rest)) => rest,
        None => "",
    }
}

/// Whether two texts under headers have together the lines of a third, each as often.
fn are_parts(whole: &str, first: &str, second: &str) -> bool {
    let (whole, first, second) = (body(whole), body(first), body(second));
    let mut same = whole.len() == first.len().saturating_add(second.len());
    for line in whole.lines() {
        same &= times(whole, line) == times(first, line).saturating_add(times(second, line));
    }
    same
}

/// Whether each count of an audit stands in another one.
fn has_counts(audit: &str, other: &str) -> bool {
    let mut well = true;
    for line in audit.lines() {
        if line.starts_with("state,") {
            well &= times(other, line) == 1;
        }
    }
    well
}

fn are_of(plain: &Texts, parts: [&str; 2], audit: &str) -> bool {
    match (
        str::from_utf8(plain.alerts.as_slice()),
        str::from_utf8(plain.audit.as_slice()),
    ) {
        (Ok(alerts), Ok(counts)) => {
            are_parts(alerts, parts[0], parts[1])
                && has_counts(counts, audit)
                && has_counts(audit, counts)
        }
        _ => false,
    }
}

// Whether both parts together have left what the plain executor leaves.
fn are_left(alloc: Global, shelf: &MemoryShelf, plain: &Texts) -> bool {
    match (
        stored(alloc, shelf, "alerts"),
        stored(alloc, shelf, "alerts-2"),
        stored(alloc, shelf, "audit-2"),
    ) {
        (Some(first), Some(second), Some(audit)) => are_of(plain, [first, second], audit),
        _ => false,
    }
}

fn is_saved<R>(rt: &R, alloc: Global, row: u64, threads: &str, shelf: &mut MemoryShelf) -> bool
where
    R: Threads + Wait + Copy + Send + Sync + 'static,
{
    let line = format!(in alloc;
        "save job requests payments alerts audit save {row} --threads {threads}"
    );
    match line {
        Ok(line) => is_done(rt, alloc, line.as_str(), shelf),
        Err(_) => false,
    }
}

/// Whether both parts, cut after this row, are what the plain executor leaves.
fn is_whole<R>(
    rt: &R,
    alloc: Global,
    input: Input<'_>,
    row: u64,
    way: (&str, &str),
    plain: &Texts,
) -> bool
where
    R: Threads + Wait + Copy + Send + Sync + 'static,
{
    let Ok(mut shelf) = shelf(alloc, input) else {
        return false;
    };
    is_saved(rt, alloc, row, way.0, &mut shelf)
        && is_done(rt, alloc, way.1, &mut shelf)
        && are_left(alloc, &shelf, plain)
}

/// How many cuts of this input, of up to `rows` rows, leave something else.
fn wrong_cuts<R>(rt: &R, alloc: Global, input: Input<'_>, rows: u64) -> Result<u32, NoMemory>
where
    R: Threads + Wait + Copy + Send + Sync + 'static,
{
    let plain = plain_texts(alloc, input)?;
    let mut wrong = 0u32;
    for row in 0..rows.saturating_add(2) {
        for way in RESUME {
            let whole = is_whole(rt, alloc, input, row, way, &plain);
            wrong = wrong.saturating_add(u32::from(!whole));
        }
    }
    Ok(wrong)
}

fn wrong_cuts_of<R>(rt: &R, alloc: Global, seed: u64) -> Result<u32, NoMemory>
where
    R: Threads + Wait + Copy + Send + Sync + 'static,
{
    let case = Case::of(alloc, seed)?;
    wrong_cuts(rt, alloc, case.input(), rows_of(seed))
}

#[test]
fn whole_run(rt: HostRuntime) {
    assert_eq!(rt; wrong_cuts(&rt, rt.alloc(), TEN, 10), Ok(0));
}

#[test]
fn cut_at_each_row(rt: HostRuntime) {
    for seed in 0..12 {
        assert_eq!(rt; wrong_cuts_of(&rt, rt.alloc(), seed), Ok(0), "seed {seed}");
    }
}
