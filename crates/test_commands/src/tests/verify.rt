use crate::tests::run::NO_PAYMENTS;
use crate::tests::{CALL, Case, Ran, Wanted, check_all, check_lines, check_over};
use std::alloc::Global;
use std::process::Abort;
use std::sync::Wait;
use std::thread::Threads;
use test_texts::{AUDIT_CUT, AUDIT_OF_FOUR, AUDIT_OF_NONE, CHAIN, FOUR_PAYMENTS, TWO_ALERTS};

const VERIFY: Case<'static> = Case {
    line: "verify job.toml requests.toml payments.csv audit.csv",
    ..CALL
};

/// The chain without a payment.
static EMPTY: [Case<'static>; 2] = [
    Case {
        files: &[
            ("job.toml", CHAIN),
            ("requests.toml", ""),
            ("payments.csv", NO_PAYMENTS),
            ("audit.csv", AUDIT_OF_NONE),
        ],
        audit: Wanted::Text(AUDIT_OF_NONE),
        out: "verified\nrows 0 alerts 0 requests 0 refused 0\n",
        ran: Ran::Something,
        ..VERIFY
    },
    Case {
        files: &[
            ("job.toml", CHAIN),
            ("requests.toml", ""),
            ("payments.csv", NO_PAYMENTS),
            ("audit.csv", AUDIT_CUT),
        ],
        audit: Wanted::Text(AUDIT_CUT),
        status: 11,
        out: "fault 11 V4 worker 0\n",
        ..VERIFY
    },
];

#[test]
fn verify_empty(rt: HostRuntime) {
    check_all(&rt, &EMPTY);
}

/// A part of the audit, what stands in its place, and the line of the fault.
static DAMAGES: [(&str, &str, &str); 4] = [
    ("met,alerts,0,1,2,\n", "", "fault 11 V5 lane 1\n"),
    ("fed,,,,2,\n", "fed,,,,3,\n", "fault 11 V3 record 2\n"),
    ("entry,", "x,", "fault 11 V1 record 0\n"),
    (
        "stopped",
        "refused,,,,1,Q4\nstopped",
        "fault 11 V1 record 5\n",
    ),
];

const OF_FOUR: Case<'static> = Case {
    files: &[
        ("job.toml", CHAIN),
        ("requests.toml", ""),
        ("payments.csv", FOUR_PAYMENTS),
        ("audit.csv", AUDIT_OF_FOUR),
    ],
    audit: Wanted::Text(AUDIT_OF_FOUR),
    out: "verified\nrows 4 alerts 2 requests 0 refused 0\n",
    ran: Ran::Something,
    ..VERIFY
};

/// The audit of the four payments with `new` in place of a part. `None` if it lacks that part, or
/// memory runs out.
fn damaged(alloc: Global, part: &str, new: &str) -> Option<String> {
    let (before, after) = AUDIT_OF_FOUR.split_once(part)?;
    format!(in alloc; "{before}{new}{after}").ok()
}

/// Checks the fault of this audit of the four payments.
fn check_audit<'a, R>(rt: &R, audit: &'a str, out: &'a str)
where
    R: AllocGlobal + Abort + Threads + Wait + Copy + Send + Sync + 'static,
{
    let files = [
        ("job.toml", CHAIN),
        ("requests.toml", ""),
        ("payments.csv", FOUR_PAYMENTS),
        ("audit.csv", audit),
    ];
    let case = Case {
        audit: Wanted::Text(audit),
        status: 11,
        out,
        ..VERIFY
    };
    check_over(rt, &files, &case);
}

fn check_damage<R>(rt: &R, damage: &(&str, &str, &str))
where
    R: AllocGlobal + Abort + Threads + Wait + Copy + Send + Sync + 'static,
{
    let text = damaged(rt.alloc(), damage.0, damage.1).expect(rt, "an audit");
    check_audit(rt, text.as_str(), damage.2);
}

static UNDAMAGED: [Case<'static>; 1] = [OF_FOUR];

#[test]
fn verify_damaged(rt: HostRuntime) {
    check_all(&rt, &UNDAMAGED);
    for damage in &DAMAGES {
        check_damage(&rt, damage);
    }
}

const VERIFY_ALERTS: Case<'static> = Case {
    files: &[
        ("job.toml", CHAIN),
        ("requests.toml", ""),
        ("payments.csv", FOUR_PAYMENTS),
        ("audit.csv", AUDIT_OF_FOUR),
        ("alerts.csv", TWO_ALERTS),
    ],
    line: "verify job.toml requests.toml payments.csv audit.csv --ordered alerts.csv",
    alerts: Wanted::Text(TWO_ALERTS),
    ..OF_FOUR
};

/// Alerts that aren't those of the run, and the line of the fault: with another amount, without the
/// last line, with a line more, with none, without the last line feed, and with a field in quotes.
static OTHER_ALERTS: [(&str, &str); 6] = [
    (
        "sink,row,account,merchant,amount,tags
alerts,2,b,m,100.01,
alerts,4,d,m,120.00,
",
        "fault 11 V7 line 2\n",
    ),
    (
        "sink,row,account,merchant,amount,tags
alerts,2,b,m,100.00,
",
        "fault 11 V7 line 3\n",
    ),
    (
        "sink,row,account,merchant,amount,tags
alerts,2,b,m,100.00,
alerts,4,d,m,120.00,
alerts,4,d,m,120.00,
",
        "fault 11 V7 line 4\n",
    ),
    ("", "fault 11 V7 line 1\n"),
    (
        "sink,row,account,merchant,amount,tags
alerts,2,b,m,100.00,
alerts,4,d,m,120.00,",
        "fault 11 V7 line 3\n",
    ),
    (
        "sink,row,account,merchant,amount,tags
alerts,2,\"b\",m,100.00,
alerts,4,d,m,120.00,
",
        "fault 11 V7 line 2\n",
    ),
];

/// Checks the fault of these alerts.
fn check_alerts<'a, R>(rt: &R, alerts: &'a str, out: &'a str)
where
    R: AllocGlobal + Abort + Threads + Wait + Copy + Send + Sync + 'static,
{
    let files = [
        ("job.toml", CHAIN),
        ("requests.toml", ""),
        ("payments.csv", FOUR_PAYMENTS),
        ("audit.csv", AUDIT_OF_FOUR),
        ("alerts.csv", alerts),
    ];
    let case = Case {
        status: 11,
        alerts: Wanted::Text(alerts),
        out,
        ran: Ran::Nothing,
        ..VERIFY_ALERTS
    };
    check_over(rt, &files, &case);
}

static OWN_ALERTS: [Case<'static>; 1] = [VERIFY_ALERTS];

#[test]
fn verify_alerts(rt: HostRuntime) {
    check_all(&rt, &OWN_ALERTS);
    for (alerts, line) in &OTHER_ALERTS {
        check_alerts(&rt, alerts, line);
    }
}

/// The words of `verify` with each option. Without a request, and from a savepoint before all rows,
/// the audit of `run` is also that of `live` and of `resume`.
static OPTIONS: [&str; 5] = [
    "verify job.toml requests.toml payments.csv audit.csv alerts.csv",
    "verify --live job.toml requests.toml payments.csv audit.csv alerts.csv",
    "verify job.toml requests.toml payments.csv audit.csv --save save.csv",
    "verify job.toml --save=save.csv requests.toml payments.csv audit.csv alerts.csv",
    "verify job.toml requests.toml payments.csv --ordered audit.csv",
];

static OF_EACH_COMMAND: Case<'static> = Case {
    files: &[
        ("job.toml", CHAIN),
        ("requests.toml", ""),
        ("payments.csv", FOUR_PAYMENTS),
        ("audit.csv", AUDIT_OF_FOUR),
        ("alerts.csv", TWO_ALERTS),
        ("save.csv", "fries,save,0,0\n"),
    ],
    ..VERIFY_ALERTS
};

#[test]
fn verify_takes_each_option(rt: HostRuntime) {
    check_lines(&rt, &OF_EACH_COMMAND, &OPTIONS);
}

/// Alerts that can't be read, beside the audit of another run and beside their own.
static UNREAD: [Case<'static>; 2] = [
    Case {
        files: &[
            ("job.toml", CHAIN),
            ("requests.toml", ""),
            ("payments.csv", FOUR_PAYMENTS),
            ("audit.csv", AUDIT_OF_NONE),
            ("alerts.csv", ""),
        ],
        failing: &[4],
        status: 11,
        alerts: Wanted::Text(""),
        audit: Wanted::Text(AUDIT_OF_NONE),
        out: "fault 11 V3 record 1\n",
        ran: Ran::Nothing,
        ..VERIFY_ALERTS
    },
    Case {
        files: &[
            ("job.toml", CHAIN),
            ("requests.toml", ""),
            ("payments.csv", FOUR_PAYMENTS),
            ("audit.csv", AUDIT_OF_FOUR),
            ("alerts.csv", ""),
        ],
        failing: &[4],
        status: 5,
        alerts: Wanted::Text(""),
        out: "fault 5 alerts\n",
        ran: Ran::Nothing,
        ..VERIFY_ALERTS
    },
];

#[test]
fn alerts_are_read_after_the_audit(rt: HostRuntime) {
    check_all(&rt, &UNREAD);
}
