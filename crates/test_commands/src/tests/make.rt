use crate::tests::{CALL, Case, Ran, check_all, check_lines, check_prints};
use test_texts::{CHAIN, PAYMENTS_JOB};

/// A job of three maps without steps in a row. Its weight is 4.
const THREE_MAPS: &str = r#"columns = ["account:text", "amount:cents"]

[[node]]
name = "card"
kind = "source"
[[node]]
name = "a"
kind = "map"
steps = []
[[node]]
name = "b"
kind = "map"
steps = []
[[node]]
name = "c"
kind = "map"
steps = []
[[node]]
name = "ledger"
kind = "sink"
columns = ["account", "amount"]

[[edge]]
from = "card"
to = "a"
[[edge]]
from = "a"
to = "b"
[[edge]]
from = "b"
to = "c"
[[edge]]
from = "c"
to = "ledger"
"#;

const FILES: [(&str, &str); 3] = [
    ("maps", THREE_MAPS),
    ("chain", CHAIN),
    ("payments", PAYMENTS_JOB),
];

/// A run that writes no file.
static MAKE: Case<'static> = Case {
    files: &FILES,
    ran: Ran::Something,
    ..CALL
};

static LARGEST: [Case<'static>; 1] = [Case {
    line: "make maps 7 262144",
    out: "rows 262144 alerts 262144 requests 0 refused 0\n",
    files: &FILES,
    ran: Ran::Something,
    ..CALL
}];

static TOO_LARGE: Case<'static> = Case {
    files: &FILES,
    status: 4,
    out: "fault 4 P7 row 262145\n",
    ..CALL
};

static TOO_MANY: [&str; 2] = ["make maps 7 262145", "make maps 7 4294967295"];

#[test]
fn largest_make(rt: HostRuntime) {
    check_all(&rt, &LARGEST);
    check_lines(&rt, &TOO_LARGE, &TOO_MANY);
}

/// Runs of rows that are made, by one thread or by more, and what they print. The numbers of alerts
/// were counted by another program. In ordered mode no line `serial` is printed.
static MADE: [(&str, &str); 10] = [
    ("make chain 7 0", "rows 0 alerts 0 requests 0 refused 0\n"),
    (
        "make chain 7 1000",
        "rows 1000 alerts 518 requests 0 refused 0\n",
    ),
    (
        "make --threads 4 chain 7 1000",
        "rows 1000 alerts 518 requests 0 refused 0\n",
    ),
    (
        "make chain 18446744073709551615 1000 --threads=16",
        "rows 1000 alerts 507 requests 0 refused 0\n",
    ),
    (
        "make payments 1 2000",
        "rows 2000 alerts 114 requests 0 refused 0\n",
    ),
    (
        "make payments 1 2000",
        "rows 2000 alerts 114 requests 0 refused 0\n",
    ),
    (
        "make payments 7 5000",
        "rows 5000 alerts 837 requests 0 refused 0\n",
    ),
    (
        "make chain 7 1000 --ordered",
        "rows 1000 alerts 518 requests 0 refused 0\n",
    ),
    (
        "make --ordered chain 7 --threads=4 1000",
        "rows 1000 alerts 518 requests 0 refused 0\n",
    ),
    (
        "make payments 7 --ordered 5000",
        "rows 5000 alerts 837 requests 0 refused 0\n",
    ),
];

#[test]
fn makes_print_the_same(rt: HostRuntime) {
    check_prints(&rt, &MAKE, &MADE);
}

static MISSING: [Case<'static>; 1] = [Case {
    files: &FILES,
    line: "make missing 7 1",
    status: 5,
    out: "fault 5 job\n",
    ..CALL
}];

#[test]
fn make_without_a_job(rt: HostRuntime) {
    check_all(&rt, &MISSING);
}
