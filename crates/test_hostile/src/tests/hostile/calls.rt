//! Each call of the outside fails alone.

use crate::tests::hostile::{Around, Left, Stored, Tried, check_left, check_tried, four};
use test_texts::{AUDIT_OF_FOUR, TWO_ALERTS};

/// The calls of the shelf that read, in their order, and the line if one of them fails.
const READS: [&str; 3] = ["fault 5 job\n", "fault 5 requests\n", "fault 5 payments\n"];

const LINES: &str = "rows 4 alerts 2 requests 0 refused 0\n";

/// How many calls it takes to store a text: the first begins it, the last keeps it, and the others
/// append.
fn calls_of(text: &str, step: usize) -> usize {
    2usize.saturating_add(text.len().div_ceil(step.max(1)))
}

/// What stands of a text that the calls before `kept` store if the call `failing` fails: all of it,
/// or no file as before.
fn whole_or_none(text: &'static str, kept: usize, failing: usize) -> Stored<'static> {
    if failing < kept {
        Stored::Made(false)
    } else {
        Stored::Text(text)
    }
}

/// The call of the shelf with this number fails. `step` is the most that an append takes.
pub fn around_at(failing: usize, step: usize) -> Around<'static> {
    Around {
        step: step as u64,
        failing: Some(failing as u64),
        ..four()
    }
}

/// What is left if the call of the shelf with this number fails. Past the last call, no call fails.
pub fn left_at(failing: usize, step: usize) -> Left<'static> {
    if let Some(line) = READS.get(failing) {
        return Left::refused(5, line);
    }
    let audit = READS.len().saturating_add(calls_of(TWO_ALERTS, step));
    let end = call_count(step);
    let (status, out) = if failing < audit {
        (6, "fault 6 alerts\n")
    } else if failing < end {
        (6, "fault 6 audit\n")
    } else {
        (0, LINES)
    };
    Left {
        status,
        has_run: Some(true),
        alerts: whole_or_none(TWO_ALERTS, audit, failing),
        audit: whole_or_none(AUDIT_OF_FOUR, end, failing),
        out: Some(out),
    }
}

/// The number of calls of a run without faults.
pub fn call_count(step: usize) -> usize {
    READS
        .len()
        .saturating_add(calls_of(TWO_ALERTS, step))
        .saturating_add(calls_of(AUDIT_OF_FOUR, step))
}

#[test]
fn each_call_of_the_shelf_fails_alone(rt: HostRuntime) {
    for (what, step) in [
        ("bytes", 1),
        ("pieces of 16", 16),
        ("whole texts", 1_000_000),
    ] {
        check_tried(&rt, what, Tried::Failing { step });
    }
}

#[test]
fn first_write_of_the_output_fails(rt: HostRuntime) {
    let around = Around {
        refusing: Some(0),
        ..four()
    };
    let left = Left {
        status: 6,
        out: Some(""),
        ..left_at(call_count(1_000_000), 1_000_000)
    };
    check_left(&rt, "the output fails", &around, &left);
}

/// The status of a fault stays if its line can't be printed.
#[test]
fn line_of_a_fault_is_refused(rt: HostRuntime) {
    for failing in [0, 1, 2] {
        let around = Around {
            failing: Some(failing),
            refusing: Some(0),
            ..four()
        };
        check_left(&rt, "a fault", &around, &Left::refused(5, ""));
    }
}
