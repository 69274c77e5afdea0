//! Each call of the shelf fails alone.

use crate::tests::{Around, Input, Left, check_call};

/// A count, and all rows at one sink. One lane leads to each worker, so no schedule changes an
/// audit.
const CHAIN: Input<'static> = Input {
    job: r#"columns = ["account:text", "seen:number:own"]
node = [
  { name = "card", kind = "source" },
  { name = "c", kind = "count", key = "account", add = 1, into = "seen" },
  { name = "out", kind = "sink", columns = ["account", "seen"] },
]
edge = [{ from = "card", to = "c" }, { from = "c", to = "out" }]
"#,
    requests: "",
    payments: "source,account\ncard,ann\ncard,bob\ncard,ann\ncard,ann\n",
};

/// What stands in files that a call doesn't change.
const OLD: &str = "old\n";

const SAVED: &str = "fries,save,2,0\nc,0,ann,1\nc,0,bob,1\n";

const FIRST_ALERTS: &str = "sink,row,account,seen\nout,1,ann,1\nout,2,bob,1\n";

const FIRST_AUDIT: &str = "entry,node,worker,lane,number,extra
fed,,,,1,
fed,,,,2,
stopped,,,,,
met,c,0,0,1,
met,c,0,0,2,
ended,c,0,0,,
state,c,0,,1,ann
state,c,0,,1,bob
met,out,0,1,1,
met,out,0,1,2,
ended,out,0,1,,
";

const LATER_ALERTS: &str = "sink,row,account,seen\nout,3,ann,2\nout,4,ann,3\n";

const LATER_AUDIT: &str = "entry,node,worker,lane,number,extra
fed,,,,3,
fed,,,,4,
stopped,,,,,
met,c,0,0,3,
met,c,0,0,4,
ended,c,0,0,,
state,c,0,,3,ann
state,c,0,,1,bob
met,out,0,1,3,
met,out,0,1,4,
ended,out,0,1,,
";

/// A status, the line that is printed, and what stands under `alerts`, `audit` and `save`.
type Row = (u8, &'static str, &'static str, &'static str, &'static str);

// Where a call of `save` has stopped.
const NO_JOB: Row = (5, "fault 5 job\n", OLD, OLD, OLD);

const NO_REQUESTS: Row = (5, "fault 5 requests\n", OLD, OLD, OLD);

const NO_PAYMENTS: Row = (5, "fault 5 payments\n", OLD, OLD, OLD);

const NO_ALERTS: Row = (6, "fault 6 alerts\n", OLD, OLD, OLD);

const NO_AUDIT: Row = (6, "fault 6 audit\n", FIRST_ALERTS, OLD, OLD);

const NO_SAVE: Row = (6, "fault 6 save\n", FIRST_ALERTS, FIRST_AUDIT, OLD);

const SUMMARY: &str = "rows 2 alerts 2 requests 0 refused 0\n";

const ALL_SAVED: Row = (0, SUMMARY, FIRST_ALERTS, FIRST_AUDIT, SAVED);

/// What `save` leaves if its call with this number fails: three reads, and then each file is begun,
/// appended to and kept. The last row is without a fault.
const SAVE_FAILS: [Row; 13] = [
    NO_JOB,
    NO_REQUESTS,
    NO_PAYMENTS,
    NO_ALERTS,
    NO_ALERTS,
    NO_ALERTS,
    NO_AUDIT,
    NO_AUDIT,
    NO_AUDIT,
    NO_SAVE,
    NO_SAVE,
    NO_SAVE,
    ALL_SAVED,
];

/// The same where threads make the texts: the alerts have two parts, and the audit has five.
const SAVE_FAILS_IN_PARTS: [Row; 18] = [
    NO_JOB,
    NO_REQUESTS,
    NO_PAYMENTS,
    NO_ALERTS,
    NO_ALERTS,
    NO_ALERTS,
    NO_ALERTS,
    NO_AUDIT,
    NO_AUDIT,
    NO_AUDIT,
    NO_AUDIT,
    NO_AUDIT,
    NO_AUDIT,
    NO_AUDIT,
    NO_SAVE,
    NO_SAVE,
    NO_SAVE,
    ALL_SAVED,
];

// Where a call of `resume` has stopped.
const NO_LATER_JOB: Row = (5, "fault 5 job\n", OLD, OLD, SAVED);

const NO_LATER_REQUESTS: Row = (5, "fault 5 requests\n", OLD, OLD, SAVED);

const NO_LATER_PAYMENTS: Row = (5, "fault 5 payments\n", OLD, OLD, SAVED);

const NO_START: Row = (5, "fault 5 save\n", OLD, OLD, SAVED);

const NO_LATER_ALERTS: Row = (6, "fault 6 alerts\n", OLD, OLD, SAVED);

const NO_LATER_AUDIT: Row = (6, "fault 6 audit\n", LATER_ALERTS, OLD, SAVED);

const ALL_RESUMED: Row = (0, SUMMARY, LATER_ALERTS, LATER_AUDIT, SAVED);

/// What `resume` leaves: the savepoint is read after the payments, and isn't written.
const RESUME_FAILS: [Row; 11] = [
    NO_LATER_JOB,
    NO_LATER_REQUESTS,
    NO_LATER_PAYMENTS,
    NO_START,
    NO_LATER_ALERTS,
    NO_LATER_ALERTS,
    NO_LATER_ALERTS,
    NO_LATER_AUDIT,
    NO_LATER_AUDIT,
    NO_LATER_AUDIT,
    ALL_RESUMED,
];

/// The same where threads make the texts.
const RESUME_FAILS_IN_PARTS: [Row; 16] = [
    NO_LATER_JOB,
    NO_LATER_REQUESTS,
    NO_LATER_PAYMENTS,
    NO_START,
    NO_LATER_ALERTS,
    NO_LATER_ALERTS,
    NO_LATER_ALERTS,
    NO_LATER_ALERTS,
    NO_LATER_AUDIT,
    NO_LATER_AUDIT,
    NO_LATER_AUDIT,
    NO_LATER_AUDIT,
    NO_LATER_AUDIT,
    NO_LATER_AUDIT,
    NO_LATER_AUDIT,
    ALL_RESUMED,
];

/// A command, what stands under `save` before it, and what it leaves.
type Command = (&'static str, &'static str, &'static [Row]);

const COMMANDS: [Command; 4] = [
    (
        "save job requests payments alerts audit save 2",
        OLD,
        &SAVE_FAILS,
    ),
    (
        "save job requests payments alerts audit save 2 --threads 4",
        OLD,
        &SAVE_FAILS_IN_PARTS,
    ),
    (
        "resume job requests payments save alerts audit",
        SAVED,
        &RESUME_FAILS,
    ),
    (
        "resume job requests payments save alerts audit --threads 4",
        SAVED,
        &RESUME_FAILS_IN_PARTS,
    ),
];

fn around(save: &'static str, failing: usize) -> Around<'static> {
    Around {
        input: CHAIN,
        before: [OLD, OLD, save],
        failing: Some(failing as u64),
    }
}

fn left(row: &Row) -> Left<'static> {
    let (status, out, alerts, audit, save) = *row;
    Left {
        status,
        out,
        after: [Some(alerts), Some(audit), Some(save)],
    }
}

#[test]
fn each_call_fails(rt: HostRuntime) {
    for (line, save, rows) in COMMANDS {
        for (failing, row) in rows.iter().enumerate() {
            check_call(&rt, around(save, failing), line, left(row));
        }
    }
}
