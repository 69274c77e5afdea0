//! The ten payments in two parts, cut after row 8.

use crate::tests::texts::TEN;
use crate::tests::{Around, Input, Left, check_call, is_done, shelf_of};
use std::alloc::Global;
use std::str;
use std::sync::Wait;
use std::thread::Threads;
use test_texts::{COUNTER, REVIEW_ALERTS, SAVE_OF_8};

/// What stands in files that a call doesn't change.
const OLD: &str = "old\n";

/// The watch alerts of rows 9 and 10: both accounts are seen for the second time.
const LATER_ALERTS: &str = r#"sink,row,account,merchant,amount,risk,seen
watch,9,ann,"A, ""B"" Ltd",,,2
watch,10,gus,grocer,,,2
"#;

/// The same command on one thread and on four.
const SAVE: [&str; 2] = [
    "save job requests payments alerts audit save 8",
    "save job requests payments alerts audit save 8 --threads 4",
];

const RESUME: [&str; 2] = [
    "resume job requests payments save alerts audit",
    "resume job requests payments save alerts audit --threads 4",
];

fn before(save: &str) -> Around<'_> {
    Around {
        input: TEN,
        before: [OLD, OLD, save],
        failing: None,
    }
}

#[test]
fn save(rt: HostRuntime) {
    let left = Left {
        status: 8,
        out: "refused 3 Q4 change 1 current 1\nrows 8 alerts 2 requests 3 refused 1\n",
        after: [Some(REVIEW_ALERTS), None, Some(SAVE_OF_8)],
    };
    for line in SAVE {
        check_call(&rt, before(OLD), line, left);
    }
}

#[test]
fn resume(rt: HostRuntime) {
    let left = Left {
        status: 8,
        out: "refused 3 Q4 change 1 current 1\nrows 2 alerts 2 requests 3 refused 1\n",
        after: [Some(LATER_ALERTS), None, Some(SAVE_OF_8)],
    };
    for line in RESUME {
        check_call(&rt, before(SAVE_OF_8), line, left);
    }
}

/// Savepoints that are refused, and the line. Where two codes hold, it is the first.
const REFUSED: [(&str, &str); 11] = [
    ("", "fault 10 S1 record 0\n"),
    ("fries,save,8\n", "fault 10 S1 record 0\n"),
    ("fries,save,11,1\ntally,0,dee\n", "fault 10 S1 record 1\n"),
    (
        "fries,save,8,1\ntally,0,dee,1\ntally,1,ann,1\ntally,1,gus,one\n",
        "fault 10 S1 record 3\n",
    ),
    (
        "fries,save,11,2\ntally,0,dee,1\ntally,1,ann,1\ntally,1,gus,1\n",
        "fault 10 S2 rows 11\n",
    ),
    ("fries,save,11,1\n", "fault 10 S2 rows 11\n"),
    (
        "fries,save,8,1\ntally,0,dee,1\ntally,1,ann,1\ntally,1,gus,1\n",
        "fault 10 S3 requests 2\n",
    ),
    (
        "fries,save,8,3\ntally,9,dee,1\n",
        "fault 10 S3 requests 2\n",
    ),
    (
        "fries,save,8,2\ntally,0,dee,1\ntally,1,gus,1\ntally,1,ann,1\n",
        "fault 10 S4 record 3\n",
    ),
    ("fries,save,8,2\ntally,2,dee,1\n", "fault 10 S4 record 1\n"),
    (
        "fries,save,8,2\ntally,0,dee,1\ntally,0,gus,1\n",
        "fault 10 S4 record 2\n",
    ),
];

#[test]
fn refused_savepoints(rt: HostRuntime) {
    for (save, out) in REFUSED {
        for line in RESUME {
            let left = Left {
                status: 10,
                out,
                after: [Some(OLD), Some(OLD), Some(save)],
            };
            check_call(&rt, before(save), line, left);
        }
    }
}

/// The lengths of the cuts of `SAVE_OF_8` that are read: after the first record, and after each
/// count, with its line feed or without.
const READ: [usize; 7] = [14, 15, 28, 29, 42, 43, 56];

fn is_read<R>(rt: &R, alloc: Global, length: usize) -> bool
where
    R: Threads + Wait + Copy + Send + Sync + 'static,
{
    let Some(bytes) = SAVE_OF_8.as_bytes().get(..length) else {
        return false;
    };
    let Ok(save) = str::from_utf8(bytes) else {
        return false;
    };
    match shelf_of(alloc, before(save)) {
        Ok(mut shelf) => is_done(rt, alloc, RESUME[0], &mut shelf),
        Err(_) => false,
    }
}

/// A savepoint that was cut is told unless the rest has the form of one.
#[test]
fn cut_savepoints(rt: HostRuntime) {
    for length in 0..SAVE_OF_8.len() {
        assert_eq!(rt;
            is_read(&rt, rt.alloc(), length),
            READ.contains(&length),
            "{length} bytes"
        );
    }
}

const FOUR: &str = "source,account\ncard,ann\ncard,bob\ncard,ann\ncard,ann\n";

/// A counter of two workers: `ann` and `bob` go to the second.
const TWO: Input<'static> = Input {
    job: r#"columns = ["account:text", "seen:number:own"]
node = [
  { name = "card", kind = "source" },
  { name = "c", kind = "count", workers = 2, key = "account", add = 1, into = "seen" },
  { name = "out", kind = "sink", columns = ["account", "seen"] },
]
edge = [{ from = "card", to = "c" }, { from = "c", to = "out" }]
"#,
    requests: "",
    payments: FOUR,
};

/// A counter of three workers: `bob` goes to the second, and `ann` to the third.
const THREE: Input<'static> = Input {
    job: COUNTER,
    requests: "",
    payments: FOUR,
};

const COUNTED: &str = "fries,save,3,0\nc,1,ann,2\nc,1,bob,1\n";

const FOURTH_ALERT: &str = "sink,row,account,seen\nout,4,ann,3\n";

/// A job, a command, and the status, the line and the alerts that it leaves, if these are compared.
type Call = (
    Input<'static>,
    &'static str,
    u8,
    &'static str,
    Option<&'static str>,
);

const CALLS: [Call; 3] = [
    (
        TWO,
        "save job requests payments alerts audit save 3",
        0,
        "rows 3 alerts 3 requests 0 refused 0\n",
        None,
    ),
    (
        TWO,
        "resume job requests payments save alerts audit",
        0,
        "rows 1 alerts 1 requests 0 refused 0\n",
        Some(FOURTH_ALERT),
    ),
    (
        THREE,
        "resume job requests payments save alerts audit",
        10,
        "fault 10 S4 record 1\n",
        Some(OLD),
    ),
];

/// The counts of two workers aren't read if the counter has three, which get other keys.
#[test]
fn another_number_of_workers(rt: HostRuntime) {
    for (input, line, status, out, alerts) in CALLS {
        let around = Around {
            input,
            before: [OLD, OLD, COUNTED],
            failing: None,
        };
        let left = Left {
            status,
            out,
            after: [alerts, None, Some(COUNTED)],
        };
        check_call(&rt, around, line, left);
    }
}
