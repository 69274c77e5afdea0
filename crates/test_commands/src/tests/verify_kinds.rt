//! Audits of `live`, of `stream` and of `resume`, each read as what it is and as what it isn't.
use crate::tests::{CALL, Case, Ran, Wanted, check_over};
use std::process::Abort;
use std::sync::Wait;
use std::thread::Threads;
use test_texts::{AUDIT_OF_FOUR, CHAIN, FOUR_PAYMENTS, TWO_ALERTS};

/// A request that asks for one row.
const AFTER_ONE: &str = r#"[[request]]
after = 1

[[request.change]]
node = "big"
from = 0
kind = "filter"
when = [["amount", ">=", 5000]]
"#;

/// It was released once three payments were fed.
const ISSUED_LATE: &str = "entry,node,worker,lane,number,extra
fed,,,,1,\nfed,,,,2,\nfed,,,,3,\nissued,,,,1,\nfed,,,,4,\nstopped,,,,,
met,big,0,0,1,\nmet,big,0,0,2,\nmet,big,0,0,3,\nturned,big,0,,1,\nmet,big,0,0,4,\nended,big,0,0,,
met,alerts,0,1,2,\nmet,alerts,0,1,4,\nended,alerts,0,1,,
";

/// It was issued before the row that it asks for.
const ISSUED_EARLY: &str = "entry,node,worker,lane,number,extra
issued,,,,1,\nfed,,,,1,\nfed,,,,2,\nfed,,,,3,\nfed,,,,4,\nstopped,,,,,
turned,big,0,,1,\nmet,big,0,0,1,\nmet,big,0,0,2,\nmet,big,0,0,3,\nmet,big,0,0,4,\nended,big,0,0,,
met,alerts,0,1,1,\nmet,alerts,0,1,2,\nmet,alerts,0,1,3,\nmet,alerts,0,1,4,\nended,alerts,0,1,,
";

const PLAIN: &str = "verify job.toml requests.toml payments.csv audit.csv";

const LIVE: &str = "verify --live job.toml requests.toml payments.csv audit.csv alerts.csv";

const SAVED: &str = "verify job.toml requests.toml payments.csv audit.csv --save save.csv";

/// A file, the words, the status, and what is printed.
type Reading = (&'static str, &'static str, u8, &'static str);

/// Audits over four payments, and how they are read. In the last one the request was never issued.
static OF_LIVE: [Reading; 4] = [
    (
        ISSUED_LATE,
        LIVE,
        0,
        "verified\nrows 4 alerts 2 requests 1 refused 0\n",
    ),
    (ISSUED_LATE, PLAIN, 11, "fault 11 V3 record 2\n"),
    (ISSUED_EARLY, LIVE, 11, "fault 11 V3 record 1\n"),
    (AUDIT_OF_FOUR, LIVE, 11, "fault 11 V3 record 5\n"),
];

fn check_live<R>(rt: &R, reading: &Reading)
where
    R: AllocGlobal + Abort + Threads + Wait + Copy + Send + Sync + 'static,
{
    let (audit, line, status, out) = *reading;
    let files = [
        ("job.toml", CHAIN),
        ("requests.toml", AFTER_ONE),
        ("payments.csv", FOUR_PAYMENTS),
        ("audit.csv", audit),
        ("alerts.csv", TWO_ALERTS),
    ];
    let case = Case {
        line,
        status,
        alerts: Wanted::Text(TWO_ALERTS),
        audit: Wanted::Text(audit),
        out,
        ran: ran_if(status == 0),
        ..CALL
    };
    check_over(rt, &files, &case);
}

#[test]
fn verify_live(rt: HostRuntime) {
    for reading in &OF_LIVE {
        check_live(&rt, reading);
    }
}

/// Two parts of two payments, and the end. The request was read between the parts.
const IN_PARTS: &str = "entry,node,worker,lane,number,extra
fed,,,,1,\nfed,,,,2,\nstopped,,,,,
met,big,0,0,1,\nmet,big,0,0,2,\nended,big,0,0,,\nmet,alerts,0,1,2,\nended,alerts,0,1,,
issued,,,,1,\nfed,,,,3,\nfed,,,,4,\nstopped,,,,,
turned,big,0,,1,\nmet,big,0,0,3,\nmet,big,0,0,4,\nended,big,0,0,,
met,alerts,0,1,3,\nmet,alerts,0,1,4,\nended,alerts,0,1,,
stopped,,,,,\nended,big,0,0,,\nended,alerts,0,1,,
";

/// The same without the second part.
const PART_IS_MISSING: &str = "entry,node,worker,lane,number,extra
fed,,,,1,\nfed,,,,2,\nstopped,,,,,
met,big,0,0,1,\nmet,big,0,0,2,\nended,big,0,0,,\nmet,alerts,0,1,2,\nended,alerts,0,1,,
stopped,,,,,\nended,big,0,0,,\nended,alerts,0,1,,
";

/// In the second part a worker turned the request after its first row, which the sink got as the
/// new function would have passed it.
const HALF_A_CHANGE: &str = "entry,node,worker,lane,number,extra
fed,,,,1,\nfed,,,,2,\nstopped,,,,,
met,big,0,0,1,\nmet,big,0,0,2,\nended,big,0,0,,\nmet,alerts,0,1,2,\nended,alerts,0,1,,
issued,,,,1,\nfed,,,,3,\nfed,,,,4,\nstopped,,,,,
met,big,0,0,3,\nturned,big,0,,1,\nmet,big,0,0,4,\nended,big,0,0,,
met,alerts,0,1,3,\nmet,alerts,0,1,4,\nended,alerts,0,1,,
stopped,,,,,\nended,big,0,0,,\nended,alerts,0,1,,
";

/// The sink got the tuple of the first part in the second one. Put together, both are a run.
const MOVED_ON: &str = "entry,node,worker,lane,number,extra
fed,,,,1,\nfed,,,,2,\nstopped,,,,,
met,big,0,0,1,\nmet,big,0,0,2,\nended,big,0,0,,\nended,alerts,0,1,,
issued,,,,1,\nfed,,,,3,\nfed,,,,4,\nstopped,,,,,
turned,big,0,,1,\nmet,big,0,0,3,\nmet,big,0,0,4,\nended,big,0,0,,
met,alerts,0,1,2,\nmet,alerts,0,1,3,\nmet,alerts,0,1,4,\nended,alerts,0,1,,
stopped,,,,,\nended,big,0,0,,\nended,alerts,0,1,,
";

const STREAM: &str = "verify job.toml requests.toml payments.csv audit.csv --stream";

/// Audits of parts over four payments, and how they are read.
static OF_STREAM: [Reading; 6] = [
    (
        IN_PARTS,
        STREAM,
        0,
        "verified\nrows 4 alerts 3 requests 1 refused 0\n",
    ),
    (IN_PARTS, PLAIN, 11, "fault 11 V1 record 9\n"),
    (
        ISSUED_LATE,
        STREAM,
        0,
        "verified\nrows 4 alerts 2 requests 1 refused 0\n",
    ),
    (PART_IS_MISSING, STREAM, 11, "fault 11 V3 record 3\n"),
    (HALF_A_CHANGE, STREAM, 11, "fault 11 V4 worker 0\n"),
    (MOVED_ON, STREAM, 11, "fault 11 V8 part 1\n"),
];

#[test]
fn verify_streamed(rt: HostRuntime) {
    for reading in &OF_STREAM {
        check_live(&rt, reading);
    }
}

/// The last two of four payments, from a savepoint on.
const LAST_TWO: &str = "entry,node,worker,lane,number,extra
fed,,,,3,\nfed,,,,4,\nstopped,,,,,
met,big,0,0,3,\nmet,big,0,0,4,\nended,big,0,0,,
met,alerts,0,1,4,\nended,alerts,0,1,,
";

/// Savepoints beside that audit.
static OF_RESUME: [Reading; 4] = [
    (
        "fries,save,2,0\n",
        SAVED,
        0,
        "verified\nrows 2 alerts 1 requests 0 refused 0\n",
    ),
    ("fries,save,2,0\n", PLAIN, 11, "fault 11 V3 record 1\n"),
    ("fries,save,1,0\n", SAVED, 11, "fault 11 V3 record 1\n"),
    ("fries,save,9,0\n", SAVED, 10, "fault 10 S2 rows 9\n"),
];

fn check_resumed<R>(rt: &R, reading: &Reading)
where
    R: AllocGlobal + Abort + Threads + Wait + Copy + Send + Sync + 'static,
{
    let (save, line, status, out) = *reading;
    let files = [
        ("job.toml", CHAIN),
        ("requests.toml", ""),
        ("payments.csv", FOUR_PAYMENTS),
        ("audit.csv", LAST_TWO),
        ("save.csv", save),
    ];
    let case = Case {
        line,
        status,
        audit: Wanted::Text(LAST_TWO),
        out,
        ran: ran_if(status == 0),
        ..CALL
    };
    check_over(rt, &files, &case);
}

#[test]
fn verify_resumed(rt: HostRuntime) {
    for reading in &OF_RESUME {
        check_resumed(&rt, reading);
    }
}

fn ran_if(is_verified: bool) -> Ran<'static> {
    if is_verified {
        Ran::Something
    } else {
        Ran::Nothing
    }
}
