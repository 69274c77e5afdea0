use crate::tests::changes::{AFTER_2_AND_3, AFTER_4, AT_FIRST, TIMES_A_MILLION, UNCHANGED};
use crate::tests::texts::{FOUR_ALERTS, HEADER};
use crate::tests::{CALL, Case, Ran, Wanted, check_all};
use std::process::Abort;
use std::sync::Wait;
use std::thread::Threads;
use test_texts::{
    AT_THE_FRONT, AUDIT_OF_NONE, CHAIN, FOUR_PAYMENTS, PAYMENTS_ALERTS, PAYMENTS_JOB,
    PAYMENTS_REQUESTS, REVIEW_ALERTS, SPACED_AFTER_2, TEN_PAYMENTS, THREE_ALERTS, TWO_ALERTS,
};

const LINE: &str = "run job.toml requests.toml payments.csv alerts.csv audit.csv";

/// A run that leaves some audit and some record.
pub const RUN: Case<'static> = Case {
    line: LINE,
    audit: Wanted::Something,
    ran: Ran::Something,
    ..CALL
};

pub const NO_PAYMENTS: &str = "source,account,merchant,amount,tags\n";

const NOT_PAID: [(&str, &str); 3] = [
    ("job.toml", CHAIN),
    ("requests.toml", ""),
    ("payments.csv", NO_PAYMENTS),
];

static HEADER_ALONE: [Case<'static>; 1] = [Case {
    files: &NOT_PAID,
    alerts: Wanted::Text(HEADER),
    audit: Wanted::Text(AUDIT_OF_NONE),
    out: "rows 0 alerts 0 requests 0 refused 0\n",
    ..RUN
}];

#[test]
fn header_alone(rt: HostRuntime) {
    check_all(&rt, &HEADER_ALONE);
}

static BEFORE_ALL_ROWS: [Case<'static>; 1] = [Case {
    files: &[
        ("job.toml", CHAIN),
        ("requests.toml", AT_FIRST),
        ("payments.csv", FOUR_PAYMENTS),
    ],
    alerts: Wanted::Text(FOUR_ALERTS),
    out: "rows 4 alerts 4 requests 1 refused 0\n",
    ..RUN
}];

#[test]
fn request_before_the_first_row(rt: HostRuntime) {
    check_all(&rt, &BEFORE_ALL_ROWS);
}

/// Two payments for which both thresholds decide the same way, and two for which they don't.
///
/// A request may overtake the rows before it, so nothing else about their alerts is determined.
const TWO_AND_TWO: &str = "source,account,merchant,amount,tags
card,a,m,120.00,
card,b,m,30.00,
card,c,m,50.00,
card,d,m,99.99,
";

const ALERTS_OF_TWO_AND_TWO: &str = "sink,row,account,merchant,amount,tags
alerts,1,a,m,120.00,
alerts,3,c,m,50.00,
alerts,4,d,m,99.99,
";

static LATER_ROWS: [Case<'static>; 1] = [Case {
    files: &[
        ("job.toml", CHAIN),
        ("requests.toml", SPACED_AFTER_2),
        ("payments.csv", TWO_AND_TWO),
    ],
    alerts: Wanted::Text(ALERTS_OF_TWO_AND_TWO),
    out: "rows 4 alerts 3 requests 1 refused 0\n",
    ..RUN
}];

#[test]
fn later_rows_meet_the_request(rt: HostRuntime) {
    check_all(&rt, &LATER_ROWS);
}

const RUN_NARROW: &str =
    "run job.toml requests.toml payments.csv alerts.csv audit.csv --threads 1 --capacity 1";

/// On one thread, over lanes of one item, each of these requests overtakes only the row before it.
/// That row passes by both thresholds.
static NARROW: [Case<'static>; 2] = [
    Case {
        files: &[
            ("job.toml", CHAIN),
            ("requests.toml", SPACED_AFTER_2),
            ("payments.csv", FOUR_PAYMENTS),
        ],
        line: RUN_NARROW,
        alerts: Wanted::Text(THREE_ALERTS),
        out: "rows 4 alerts 3 requests 1 refused 0\n",
        ..RUN
    },
    Case {
        files: &[
            ("job.toml", CHAIN),
            ("requests.toml", AFTER_4),
            ("payments.csv", FOUR_PAYMENTS),
        ],
        line: RUN_NARROW,
        alerts: Wanted::Text(TWO_ALERTS),
        out: "rows 4 alerts 2 requests 1 refused 0\n",
        ..RUN
    },
];

#[test]
fn narrow_lanes(rt: HostRuntime) {
    check_all(&rt, &NARROW);
}

static STALE: [Case<'static>; 1] = [Case {
    files: &[
        ("job.toml", CHAIN),
        ("requests.toml", AFTER_2_AND_3),
        ("payments.csv", TWO_AND_TWO),
    ],
    status: 8,
    alerts: Wanted::Text(ALERTS_OF_TWO_AND_TWO),
    out: "refused 2 Q4 change 1 current 1\nrows 4 alerts 3 requests 2 refused 1\n",
    ..RUN
}];

#[test]
fn stale_request(rt: HostRuntime) {
    check_all(&rt, &STALE);
}

static PAYMENTS: [Case<'static>; 1] = [Case {
    files: &[
        ("job.toml", PAYMENTS_JOB),
        ("requests.toml", PAYMENTS_REQUESTS),
        ("payments.csv", TEN_PAYMENTS),
    ],
    status: 8,
    alerts: Wanted::Text(PAYMENTS_ALERTS),
    out: "refused 3 Q4 change 1 current 1\nrows 10 alerts 4 requests 3 refused 1\n",
    ..RUN
}];

#[test]
fn payments_job(rt: HostRuntime) {
    check_all(&rt, &PAYMENTS);
}

/// Jobs with one map, and how the amount of a payment is shown.
static MAPPED: [Case<'static>; 2] = [
    Case {
        files: &[
            ("job.toml", TIMES_A_MILLION),
            ("requests.toml", ""),
            ("payments.csv", "source,amount\ncard,92233720368547.75\n"),
        ],
        alerts: Wanted::Text("sink,row,amount\nout,1,92233720368547758.07\n"),
        out: "rows 1 alerts 1 requests 0 refused 0\n",
        ..RUN
    },
    Case {
        files: &[
            ("job.toml", UNCHANGED),
            ("requests.toml", ""),
            ("payments.csv", "source,amount\ncard,-0.05\n"),
        ],
        alerts: Wanted::Text("sink,row,amount\nout,1,-0.05\n"),
        out: "rows 1 alerts 1 requests 0 refused 0\n",
        ..RUN
    },
];

#[test]
fn clamped_product(rt: HostRuntime) {
    check_all(&rt, &MAPPED);
}

static QUOTED: [Case<'static>; 1] = [Case {
    files: &[
        ("job.toml", CHAIN),
        ("requests.toml", ""),
        (
            "payments.csv",
            "source,account,merchant,amount,tags\r\ncard,a,\"A, \"\"B\"\" Ltd\",150,\r\n",
        ),
    ],
    alerts: Wanted::Text(
        "sink,row,account,merchant,amount,tags
alerts,1,a,\"A, \"\"B\"\" Ltd\",150.00,
",
    ),
    out: "rows 1 alerts 1 requests 0 refused 0\n",
    ..RUN
}];

#[test]
fn quoted_merchant(rt: HostRuntime) {
    check_all(&rt, &QUOTED);
}

static ORDERED: [Case<'static>; 1] = [Case {
    files: &[
        ("job.toml", PAYMENTS_JOB),
        ("requests.toml", AT_THE_FRONT),
        ("payments.csv", TEN_PAYMENTS),
    ],
    line: "run job.toml requests.toml payments.csv alerts.csv audit.csv --ordered",
    alerts: Wanted::Text(REVIEW_ALERTS),
    out: "serial 0 10\nrows 10 alerts 2 requests 1 refused 0\n",
    ..RUN
}];

#[test]
fn ordered_run(rt: HostRuntime) {
    check_all(&rt, &ORDERED);
}

/// Runs of which a file is refused.
static FAULTS: [Case<'static>; 3] = [
    Case {
        files: &[
            ("job.toml", "node"),
            ("requests.toml", ""),
            ("payments.csv", FOUR_PAYMENTS),
        ],
        line: LINE,
        status: 2,
        out: "fault 2 J1\n",
        ..CALL
    },
    Case {
        files: &[
            ("job.toml", CHAIN),
            ("requests.toml", "request"),
            ("payments.csv", FOUR_PAYMENTS),
        ],
        line: LINE,
        status: 3,
        out: "fault 3 F1\n",
        ..CALL
    },
    Case {
        files: &[
            ("job.toml", CHAIN),
            ("requests.toml", ""),
            ("payments.csv", TEN_PAYMENTS),
        ],
        line: LINE,
        status: 4,
        out: "fault 4 P2\n",
        ..CALL
    },
];

#[test]
fn faults_of_run(rt: HostRuntime) {
    check_all(&rt, &FAULTS);
}

/// Calls 0 to 2 read, call 3 begins the alerts, and call 4 appends the first 16 bytes of them. They
/// were never kept.
static SIXTH: [Case<'static>; 1] = [Case {
    files: &[
        ("job.toml", CHAIN),
        ("requests.toml", ""),
        (
            "payments.csv",
            "source,account,merchant,amount,tags\ncard,a,m,150,\n",
        ),
    ],
    failing: &[5],
    status: 6,
    audit: Wanted::Nothing,
    out: "fault 6 alerts\n",
    ..RUN
}];

#[test]
fn sixth_call_fails(rt: HostRuntime) {
    check_all(&rt, &SIXTH);
}

/// The chain without a payment. Its alerts have 38 bytes and its audit 84, and an append takes 16.
const UNPAID: Case<'static> = Case {
    files: &NOT_PAID,
    audit: Wanted::Nothing,
    ..RUN
};

/// Calls of the shelf from the first to the last, and what is left if one of them fails. The last
/// call isn't made.
static FAILING: [(u64, u64, Case<'static>); 6] = [
    (
        0,
        0,
        Case {
            status: 5,
            out: "fault 5 job\n",
            ran: Ran::Nothing,
            ..UNPAID
        },
    ),
    (
        1,
        1,
        Case {
            status: 5,
            out: "fault 5 requests\n",
            ran: Ran::Nothing,
            ..UNPAID
        },
    ),
    (
        2,
        2,
        Case {
            status: 5,
            out: "fault 5 payments\n",
            ran: Ran::Nothing,
            ..UNPAID
        },
    ),
    (
        3,
        7,
        Case {
            status: 6,
            out: "fault 6 alerts\n",
            ..UNPAID
        },
    ),
    (
        8,
        15,
        Case {
            status: 6,
            alerts: Wanted::Text(HEADER),
            out: "fault 6 audit\n",
            ..UNPAID
        },
    ),
    (
        16,
        16,
        Case {
            alerts: Wanted::Text(HEADER),
            audit: Wanted::Text(AUDIT_OF_NONE),
            out: "rows 0 alerts 0 requests 0 refused 0\n",
            ..UNPAID
        },
    ),
];

/// Checks a call once for each of these calls of the shelf, which fails.
fn check_failing<R>(rt: &R, first: u64, last: u64, case: &Case<'_>)
where
    R: AllocGlobal + Abort + Threads + Wait + Copy + Send + Sync + 'static,
{
    for failing in first..=last {
        let failing = [failing];
        check_all(
            rt,
            &[Case {
                failing: &failing,
                ..*case
            }],
        );
    }
}

#[test]
fn each_call_of_the_shelf_fails(rt: HostRuntime) {
    for (first, last, case) in &FAILING {
        check_failing(&rt, *first, *last, case);
    }
}
