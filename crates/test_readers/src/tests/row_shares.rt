// Payments files that are read by several threads.
use super::fixtures::{check, lines_of_rows, repeated};
use super::pieces::PAYMENTS;
use super::rows::{TWO_SOURCES, job_of};
use crate::tests::check_text;
use jobs::Job;
use payments::{PFault, read_rows};
use row_threads::{read_rows as read_rows_on, read_shares};
use std::process::Abort;
use std::thread::Threads;
use text_threads::Team;
use tuple_trace::Rows;

const THREE_COLUMNS: &str = "\"account:text\", \"merchant:text\", \"amount:cents\"";

/// What is found: the rows as lines and how many they are, or the fault.
fn check_read(
    rt: &(impl AllocGlobal + Abort),
    found: Result<Rows, PFault>,
    want: Result<Rows, PFault>,
) {
    match (found, want) {
        (Ok(found), Ok(want)) => check_rows(rt, &found, &want),
        (Err(found), Err(want)) => check(rt, found, want),
        _ => assert!(rt; false, "rows and a fault"),
    }
}

fn check_rows(rt: &(impl AllocGlobal + Abort), found: &Rows, want: &Rows) {
    check(rt, found.len(), want.len());
    let lines = lines_of_rows(rt, want.as_slice());
    let found = lines_of_rows(rt, found.as_slice());
    check_text(rt, found.as_bytes(), lines.as_str());
}

fn team_of<R: AllocGlobal>(rt: &R, threads: u32) -> Team<'_, R> {
    Team {
        rt,
        alloc: rt.alloc(),
        threads,
    }
}

// Checks that a text has the rows or the fault that it has on one thread.
fn check_threads(rt: &(impl AllocGlobal + Abort + Threads + Sync), job: &Job, text: &[u8]) {
    for threads in [1, 2, 3, 16] {
        let found = read_rows_on(&team_of(rt, threads), job, text);
        check_read(rt, found, read_rows(rt.alloc(), job, text));
    }
}

// Checks that a text without a fault has the rows that it has on one thread, in 1 to 16 shares. No
// rows are read at counts where the first share has the header alone.
fn check_shares(
    rt: &(impl AllocGlobal + Abort + Threads + Sync),
    job: &Job,
    text: &[u8],
    headers_alone: &[usize],
) {
    let want = read_rows(rt.alloc(), job, text).expect(rt, "rows");
    for count in 1..=16 {
        let found = read_shares(&team_of(rt, 2), job, text, count);
        check(rt, found.is_none(), headers_alone.contains(&count));
        if let Some(rows) = found {
            check_rows(rt, &rows, &want);
        }
    }
}

#[test]
fn ten_payments_in_shares(rt: HostRuntime) {
    let job = job_of(&rt, THREE_COLUMNS, TWO_SOURCES);
    check_shares(&rt, &job, PAYMENTS.as_bytes(), &[5, 6, 7, 8]);
}

#[test]
fn marked_payments_in_shares(rt: HostRuntime) {
    let job = job_of(&rt, "\"who:text\", \"sum:cents\"", TWO_SOURCES);
    let text = b"\xef\xbb\xbfsource,who,sum\ncard,ann,1\n\"wire\",\"b\n\",2\ncard,\xef\xbb\xbf,3\n";
    check_shares(&rt, &job, text, &[2, 3]);
}

// A mark before a later row is part of its source, also if a share begins with it.
#[test]
fn mark_before_a_later_row(rt: HostRuntime) {
    let job = job_of(&rt, "\"who:text\", \"sum:cents\"", TWO_SOURCES);
    let text = b"source,who,sum\ncard,ann,1\n\xef\xbb\xbfcard,bob,2\ncard,cid,3\n";
    for count in 1..=16 {
        let found = read_shares(&team_of(&rt, 2), &job, text, count);
        check(&rt, found.is_none(), true);
    }
}

const LINES: &str = "card,ann,\"bakery, mill\",12.50\r
wire,cid,\"two
lines\",100.00

card,gus,x\"y,1.00
";

// A text of 200 KiB, which is read in 3 shares at most.
#[test]
fn long_payments(rt: HostRuntime) {
    let job = job_of(&rt, THREE_COLUMNS, TWO_SOURCES);
    let text = repeated(&rt, "source,account,merchant,amount\n", LINES, 2_600);
    check_threads(&rt, &job, text.as_bytes());
}

#[test]
fn long_payments_with_a_fault(rt: HostRuntime) {
    let job = job_of(&rt, THREE_COLUMNS, TWO_SOURCES);
    let mut text = repeated(&rt, "source,account,merchant,amount\n", LINES, 2_600);
    text.push_str("card,ann,mill,x\n").expect(&rt, "memory");
    let found = read_rows_on(&team_of(&rt, 3), &job, text.as_bytes());
    check(&rt, found.err(), Some(PFault::Value(7_801, 2)));
}

#[test]
fn payments_without_rows(rt: HostRuntime) {
    let job = job_of(&rt, THREE_COLUMNS, TWO_SOURCES);
    check_threads(&rt, &job, b"");
    check_threads(&rt, &job, b"source,account\n");
    check_threads(&rt, &job, b"source,account,merchant,amount");
}
