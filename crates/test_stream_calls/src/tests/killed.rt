//! Streams that are killed at each byte that they write, and others that go on.
use crate::tests::left::{Case, empty, first_loss, left_after};
use crate::tests::texts::{AFTER_3, CHAIN, LATE_ALERTS, PAYMENTS, TWO};
use crate::tests::{RESUMING, SAVING, check_alerts};

/// A read brings two of the four payments, and a savepoint follows each part.
const PAIRS: Case<'static> = Case {
    job: CHAIN,
    requests: AFTER_3,
    payments: PAYMENTS,
    most: 60,
    step: 1,
    begin: SAVING,
    resume: RESUMING,
};

/// The first two of them.
const FIRST_PAIR: Case<'static> = Case {
    payments: TWO,
    ..PAIRS
};

/// A read brings one payment at most, and a savepoint follows each second row.
const ROWS: Case<'static> = Case {
    most: 20,
    begin: "stream job.toml requests.toml alerts.csv audit.csv --save save.csv --every 2",
    resume: "stream job.toml requests.toml alerts.csv audit.csv --save save.csv --every 2 --resume",
    ..PAIRS
};

/// A stream goes on after row 2, and is killed after each byte that it writes, or between the cuts
/// of its files. The next stream leaves the alerts, the audit and the savepoint of one that wasn't
/// disturbed, byte by byte.
///
/// The request waits at the savepoint, and is issued after row 3.
#[test]
fn killed_and_resumed(rt: HostRuntime) {
    let nothing = empty(rt.alloc());
    let from = left_after(&rt, rt.alloc(), &FIRST_PAIR, &nothing).expect(&rt, "memory");
    let wanted = left_after(&rt, rt.alloc(), &PAIRS, &nothing).expect(&rt, "memory");
    check_alerts(&rt, &wanted, LATE_ALERTS);
    assert_eq!(rt;
        first_loss(&rt, rt.alloc(), &PAIRS, &from, 1, &wanted),
        None
    );
}

/// A stream is killed at each seventh call. At first it has no savepoint, and the next one begins
/// anew. Later a whole part may follow the savepoint; it is cut, and made again.
#[test]
fn parts_are_made_again(rt: HostRuntime) {
    let nothing = empty(rt.alloc());
    let wanted = left_after(&rt, rt.alloc(), &ROWS, &nothing).expect(&rt, "memory");
    check_alerts(&rt, &wanted, LATE_ALERTS);
    assert_eq!(rt;
        first_loss(&rt, rt.alloc(), &ROWS, &nothing, 7, &wanted),
        None
    );
}
