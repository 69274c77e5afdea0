//! A stream whose requests take effect just behind the rows that they ask for.

use crate::tests::cuts::shelf_with;
use crate::tests::texts::{AFTER_3, LATE_ALERTS, PAYMENTS};
use crate::tests::{Said, check_alerts, check_said, say, tap_of};
use std::process::Abort;
use std::sync::Wait;
use std::thread::Threads;
use test_texts::SPACED_AFTER_2;

/// The words of an exact stream on so many threads.
static EXACT: [&str; 3] = [
    "stream job.toml requests.toml alerts.csv audit.csv --exact",
    "stream job.toml requests.toml alerts.csv audit.csv --exact --threads 4",
    "stream job.toml requests.toml alerts.csv audit.csv --exact --threads 16",
];

fn check_three(rt: &impl Abort, said: &Said) {
    assert_eq!(rt; said.told.parts, 3);
}

/// Asserts that the second payment meets the old threshold and the fourth the new one, in three
/// parts: the rows up to the request's, the request, and the later rows. `None` if memory runs out.
fn check_parts<R>(rt: &R, words: &str, requests: &str) -> Option<()>
where
    R: AllocGlobal + Abort + Threads + Wait + Copy + Send + Sync + 'static,
{
    let alloc = rt.alloc();
    let mut shelf = shelf_with(alloc, requests)?;
    let mut tap = tap_of(alloc, PAYMENTS, PAYMENTS.len())?;
    let said = say(rt, alloc, words, &mut shelf, &mut tap)?;
    check_said(rt, &said, 0, "rows 4 alerts 3 requests 1 refused 0\n");
    check_alerts(rt, &shelf, LATE_ALERTS);
    check_three(rt, &said);
    Some(())
}

/// A request after row 2 or row 3 of four that come at once.
#[test]
fn exact_borders(rt: HostRuntime) {
    for words in EXACT.iter() {
        check_parts(&rt, words, SPACED_AFTER_2).expect(&rt, "memory");
        check_parts(&rt, words, AFTER_3).expect(&rt, "memory");
    }
}
