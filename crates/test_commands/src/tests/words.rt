use crate::tests::{CALL, Case, Ran, Wanted, check_all, check_lines, check_prints};
use test_texts::{
    CHAIN, FOUR_PAYMENTS, PAYMENTS_ALERTS, PAYMENTS_JOB, PAYMENTS_REQUESTS, TEN_PAYMENTS,
    TWO_ALERTS,
};

/// The chain, no request, and the four payments.
const FILES: [(&str, &str); 3] = [("j", CHAIN), ("r", ""), ("p", FOUR_PAYMENTS)];

/// These files, and words that are refused.
static USAGE: Case<'static> = Case {
    files: &FILES,
    status: 1,
    out: "fault 1 usage\n",
    ..CALL
};

/// Words that are no full form. The first line has none.
static FAULTY_WORDS: [&str; 49] = [
    "",
    "help",
    "help run",
    "--help run",
    "-h -h",
    "--version --version",
    "-v",
    "--",
    "run --help j",
    "run j --help",
    "check --version",
    "check",
    "check j more",
    "check -j",
    "check -- j",
    "check j --",
    "check j --ordered",
    "plan j",
    "plan j -r",
    "plan j r --order",
    "plan j r --ordered=true",
    "plan j r --threads 2",
    "plan j r --ordered --ordered",
    "run j",
    "run j r p",
    "run j r p alerts.csv",
    "run j r p alerts.csv -audit.csv",
    "run j r p alerts.csv alerts.csv",
    "run j r p alerts.csv audit.csv more",
    "run j r p alerts.csv -- audit.csv",
    "verify j r p",
    "verify j r p audit.csv alerts.csv more",
    "make j 7",
    "make j 7 1 1",
    "make j 7 4294967296",
    "make j 18446744073709551616 1",
    "make j -7 1",
    "make j 7 1 --capacity 2",
    "make j 7 1 --ordered --ordered",
    "make j 7 1 --ordered=true",
    "first",
    "firsts p alerts.csv 10000 2 5000",
    "First p alerts.csv 10000 2 5000",
    "first p -alerts 10000 2 5000",
    "first p alerts.csv 100.00 2 5000",
    "first p alerts.csv 9223372036854775808 2 5000",
    "first p alerts.csv 10000 1048577 5000",
    "first p alerts.csv 10000 2",
    "first p alerts.csv 10000 2 5000 more",
];

#[test]
fn faulty_words(rt: HostRuntime) {
    check_lines(&rt, &USAGE, &FAULTY_WORDS);
}

/// Words of which one is empty: the first, the last, or that between two spaces.
static EMPTY_WORDS: [&str; 6] = [
    " j",
    "check ",
    "run j r p  audit.csv",
    "run j r p alerts.csv ",
    "first p alerts.csv 10000 2 ",
    "make j 7 1 --threads ",
];

#[test]
fn empty_words(rt: HostRuntime) {
    check_lines(&rt, &USAGE, &EMPTY_WORDS);
}

/// Numbers outside their limits, options without a value or with one too many, and options that
/// stand twice, before the command or beside one that they exclude.
static FAULTY_OPTIONS: [&str; 30] = [
    "run j r p alerts.csv audit.csv --threads 0",
    "run j r p alerts.csv audit.csv --threads=0",
    "run j r p alerts.csv audit.csv --threads 17",
    "run j r p alerts.csv audit.csv --threads 4294967297",
    "run j r p alerts.csv audit.csv --threads -1",
    "run j r p alerts.csv audit.csv --threads +1",
    "run j r p alerts.csv audit.csv --threads",
    "run j r p alerts.csv audit.csv --threads=",
    "run j r p alerts.csv audit.csv --threads==2",
    "run j r p alerts.csv audit.csv --thread 2",
    "run j r p alerts.csv audit.csv -threads 2",
    "run j r p alerts.csv audit.csv --capacity 0",
    "run j r p alerts.csv audit.csv --capacity 65",
    "run j r p alerts.csv audit.csv --threads --capacity 1",
    "run j r p alerts.csv audit.csv --threads 2 --threads=2",
    "run j r p alerts.csv audit.csv --capacity=2 --capacity 2",
    "run j r p alerts.csv audit.csv --ordered --ordered",
    "--threads 2 run j r p alerts.csv audit.csv",
    "--ordered plan j r",
    "make j 7 1 --threads 17",
    "verify j r p audit.csv --live --live",
    "verify j r p audit.csv --live=true",
    "verify j r p audit.csv --save",
    "verify j r p audit.csv --save=",
    "verify j r p audit.csv --save s --save s",
    "verify j r p audit.csv --resume",
    "verify j r p audit.csv --live --ordered",
    "verify j r p audit.csv alerts.csv --save s --live",
    "verify --ordered j r p audit.csv --save=s",
    "verify j --save=s r p audit.csv --ordered --live",
];

#[test]
fn faulty_options(rt: HostRuntime) {
    check_lines(&rt, &USAGE, &FAULTY_OPTIONS);
}

const SUMMARY: &str = "rows 4 alerts 2 requests 0 refused 0\n";

const ORDERED: &str = "serial 4\nrows 4 alerts 2 requests 0 refused 0\n";

/// Options of `run` at any place, and what it then prints.
static OPTIONS: [(&str, &str); 11] = [
    ("run j r p alerts.csv audit.csv --threads 1", SUMMARY),
    ("run j r p alerts.csv audit.csv --threads 16", SUMMARY),
    ("run j r p alerts.csv audit.csv --threads 002", SUMMARY),
    ("run j r p alerts.csv audit.csv --capacity=1", SUMMARY),
    ("run j r p alerts.csv audit.csv --capacity 64", SUMMARY),
    ("run --threads 2 j r p alerts.csv audit.csv", SUMMARY),
    (
        "run j r --capacity=1 p alerts.csv --threads=2 audit.csv",
        SUMMARY,
    ),
    (
        "run j r p alerts.csv audit.csv --capacity 1 --threads 2",
        SUMMARY,
    ),
    ("run --ordered j r p alerts.csv audit.csv", ORDERED),
    (
        "run j r p alerts.csv audit.csv --ordered --threads=2",
        ORDERED,
    ),
    (
        "run j --threads 2 r p --ordered alerts.csv --capacity 1 audit.csv",
        ORDERED,
    ),
];

/// These files, and a run that leaves two alerts.
static RUN: Case<'static> = Case {
    files: &FILES,
    alerts: Wanted::Text(TWO_ALERTS),
    audit: Wanted::Something,
    ran: Ran::Something,
    ..CALL
};

#[test]
fn options_of_run(rt: HostRuntime) {
    check_prints(&rt, &RUN, &OPTIONS);
}

static TWO_THREADS: [Case<'static>; 1] = [Case {
    files: &[
        ("j", PAYMENTS_JOB),
        ("r", PAYMENTS_REQUESTS),
        ("p", TEN_PAYMENTS),
    ],
    line: "run j r p alerts.csv audit.csv --threads=2",
    status: 8,
    alerts: Wanted::Text(PAYMENTS_ALERTS),
    out: "refused 3 Q4 change 1 current 1
rows 10 alerts 4 requests 3 refused 1
",
    audit: Wanted::Something,
    ran: Ran::Something,
    ..CALL
}];

#[test]
fn threads_after_the_names(rt: HostRuntime) {
    check_all(&rt, &TWO_THREADS);
}

/// Words that ask for a text, and how it begins or is.
static TEXTS: [(&str, &str); 3] = [
    ("--version", "fries 0.2.0\n"),
    ("-V", "fries 0.2.0\n"),
    (
        "check --help",
        "usage: fries check JOB

Reads a job and prints how many nodes, edges and workers it has, and its weight.

  JOB       file to read: a job as TOML

example: fries check job.toml
",
    ),
];

static TEXT: Case<'static> = Case {
    files: &FILES,
    ..CALL
};

#[test]
fn help_and_version(rt: HostRuntime) {
    check_prints(&rt, &TEXT, &TEXTS);
}
