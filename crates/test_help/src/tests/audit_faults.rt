use crate::tests::{JOB, check_told, check_told_after, told_of};
use audit_fault::AuditFault;
use fries_lines::Fault;
use std::alloc::Global;
use tuple_trace::NoMemory;

const CASES: &[(AuditFault, &str)] = &[
    (
        AuditFault::Law(0),
        "V4 worker 0 (`big`, its worker 0)
  This worker's steps break the law of a worker: no worker of the engine does that.
  Don't trust it: records are missing or changed, or another command wrote it.
",
    ),
    (
        AuditFault::Lane(0),
        "V5 lane 0 (`card` to `big` 0)
  What came by this lane isn't what was sent on it.
  Don't trust it: records are missing or changed, or another command wrote it.
",
    ),
    (
        AuditFault::Lane(1),
        "V5 lane 1 (`big` 0 to `out` 0)
  What came by this lane isn't what was sent on it.
  Don't trust it: records are missing or changed, or another command wrote it.
",
    ),
    (
        AuditFault::State(1),
        "V6 worker 1 (`out`, its worker 0)
  This worker's counts aren't those that its steps make.
  Don't trust it: records are missing or changed, or another command wrote it.
",
    ),
    (
        AuditFault::Shape(0),
        "V1 record 0 (line 1)
  This record isn't of the form of an audit of one run, or stands out of order.
  Give the audit as it was written, with its job, and `--stream` if `stream` wrote it.
",
    ),
    (
        AuditFault::Refused(2),
        "V2 record 2
  The audit has other refused requests than the request file. This record differs first.
  Give the requests that were run, and `--ordered` if the run had it.
",
    ),
    (
        AuditFault::Feed(1),
        "V3 record 1 (line 2)
  The audit has other rows or requests than the files. This record differs first.
  Give its files; `--live`, `--stream` or `--save SAVE` if `run` didn't write it.
",
    ),
];

const VERIFY: &[&str] = &[
    "verify",
    "job.toml",
    "requests.toml",
    "pay.csv",
    "audit.csv",
];

const FILES: &[(&str, &str)] = &[("job.toml", JOB), ("audit.csv", "feed\nfed\n")];

/// What stands before all that is told of a fault of the audit.
const HEAD: &str = "fries: audit file `audit.csv`: ";

fn told_of_case(alloc: Global, fault: AuditFault) -> Result<String, NoMemory> {
    told_of(alloc, FILES, VERIFY, Some(Fault::Audit(fault)), &[])
}

#[test]
fn workers_and_lanes_are_told_by_their_nodes(rt: HostRuntime) {
    for (fault, told) in CASES {
        check_told_after(&rt, HEAD, told_of_case(rt.alloc(), *fault), told);
    }
}

/// Two parts, of which the second one has a row.
const PARTS: &str = "entry,node,worker,lane,number,extra
stopped,,,,,
fed,,,,1,
stopped,,,,,
";

/// The first record of both parts together is the row.
const OF_PARTS: &str = "fries: audit file `audit.csv`: V3 record 1 (line 3)
  The audit has other rows or requests than the files. This record differs first.
  Records are counted in the parts put together; `tools/together` prints them.
  Give its files; `--live`, `--stream` or `--save SAVE` if `run` didn't write it.
";

const VERIFY_PARTS: &[&str] = &[
    "verify",
    "job.toml",
    "requests.toml",
    "pay.csv",
    "audit.csv",
    "--stream",
];

#[test]
fn records_of_parts_are_told_by_their_lines(rt: HostRuntime) {
    let fault = Some(Fault::Audit(AuditFault::Feed(1)));
    let files = &[("job.toml", JOB), ("audit.csv", PARTS)];
    check_told(
        &rt,
        told_of(rt.alloc(), files, VERIFY_PARTS, fault, &[]),
        OF_PARTS,
    );
}

const VERIFY_ALERTS: &[&str] = &[
    "verify",
    "job.toml",
    "requests.toml",
    "pay.csv",
    "audit.csv",
    "alerts.csv",
];

const OTHER_ALERTS: &str = "fries: alerts file `alerts.csv`: V7 line 3
  The alerts aren't those of the run that the audit tells. This line differs first.
  Don't trust the alerts file: it is of another run, was cut, or was changed.
";

#[test]
fn alerts_of_another_run_are_told(rt: HostRuntime) {
    let fault = Some(Fault::Alerts(3));
    check_told(
        &rt,
        told_of(rt.alloc(), FILES, VERIFY_ALERTS, fault, &[]),
        OTHER_ALERTS,
    );
}
