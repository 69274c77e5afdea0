use crate::tests::{RUN, check_told, told_of};
use fries_lines::{Fault, FileIs};
use job_file::JobFault;
use payments::PFault;

const CASES: &[(&[&str], Option<Fault>, &str)] = &[
    (RUN, None, ""),
    (
        &["run", "job.toml"],
        Some(Fault::Usage),
        "fries: usage
  These words have no form that the program knows.
  `run` takes 5 names (JOB REQUESTS PAYMENTS ALERTS AUDIT), and here is 1: REQUESTS, PAYMENTS, \
ALERTS, AUDIT are missing. Type `fries run --help`.
  Type `fries --help` for the forms of all commands.
",
    ),
    (
        RUN,
        Some(Fault::Read(FileIs::Job)),
        "fries: job file `job.toml`
  The file couldn't be read.
  Check its name, and that you may read it.
",
    ),
    (
        &["plan", "--ordered", "j.toml", "r.toml"],
        Some(Fault::Read(FileIs::Requests)),
        "fries: request file `r.toml`
  The file couldn't be read.
  Check its name, and that you may read it.
",
    ),
    (
        &[
            "run",
            "--threads",
            "2",
            "j",
            "--capacity=3",
            "r",
            "p",
            "a",
            "u",
        ],
        Some(Fault::Read(FileIs::Payments)),
        "fries: payments file `p`
  The file couldn't be read.
  Check its name, and that you may read it.
",
    ),
    (
        &["first", "p", "a", "1", "2", "3"],
        Some(Fault::Write(FileIs::Alerts)),
        "fries: alerts file `a`
  The file couldn't be made or written; it is as before, unless a stream appends to it.
  Check its folder, that you may write there, and that the disk has room.
",
    ),
    (
        RUN,
        Some(Fault::Write(FileIs::Audit)),
        "fries: audit file `audit.csv`
  The file couldn't be made or written; it is as before, unless a stream appends to it.
  Check its folder, that you may write there, and that the disk has room.
",
    ),
    (
        RUN,
        Some(Fault::Write(FileIs::Out)),
        "fries: standard output
  The standard output couldn't be written; files that the command makes are whole.
  Keep the reader of the output open, or send the output to a file.
",
    ),
    (
        RUN,
        Some(Fault::NoMemory),
        "fries: memory
  Memory ran out.
  Run fewer rows at a time, or give the program more memory.
",
    ),
    (
        &["check", "j"],
        Some(Fault::Long(FileIs::Job)),
        "fries: job file `j`
  The file is longer than the program reads.
  At most 1048576 bytes are read of it.
  Shorten it.
",
    ),
    (
        RUN,
        Some(Fault::Long(FileIs::Requests)),
        "fries: request file `requests.toml`
  The file is longer than the program reads.
  At most 1048576 bytes are read of it.
  Shorten it.
",
    ),
    (
        RUN,
        Some(Fault::Long(FileIs::Payments)),
        "fries: payments file `pay.csv`
  The file is longer than the program reads.
  At most 67108864 bytes are read of it.
  Cut it into several files, for several runs: docs/SAVEPOINTS.md, Long files.
",
    ),
    (
        &[
            "verify",
            "job.toml",
            "requests.toml",
            "pay.csv",
            "audit.csv",
        ],
        Some(Fault::Long(FileIs::Audit)),
        "fries: audit file `audit.csv`
  The audit is longer than any that `run` writes.
  At most 536870912 bytes are read of it.
  Give the file that `fries run` wrote.
",
    ),
    (
        &[
            "live",
            "job.toml",
            "requests.toml",
            "pay.csv",
            "alerts.csv",
            "audit.csv",
        ],
        Some(Fault::Read(FileIs::Asks)),
        "fries: standard input
  The input of releases couldn't be read on; later requests came after the last row.
  Keep the input open, or redirect a file or `/dev/null` to it.
",
    ),
    // A file that can't be looked at again, and a name that would disturb a terminal.
    (
        &["check", "a\u{1b}b"],
        Some(Fault::Job(JobFault::Cycle(3))),
        "fries: job file `a?b`: J7 node 3
  The node lies on a cycle: tuples could come back to it.
  Remove an edge of the cycle, so that all ways end at sinks.
",
    ),
    (
        &["first", "p", "a", "1", "2", "3"],
        Some(Fault::Payments(PFault::Header)),
        "fries: payments file `p`: P2
  The first record isn't `source` and the names of the job's columns, in their order.
  The header of this job is `source,account,merchant,amount,tags`.
  Correct the header; leave out the columns that the job marks `own`.
",
    ),
    (
        &["first", "p", "a", "1", "2", "3"],
        Some(Fault::Payments(PFault::Length(4))),
        "fries: payments file `p`: P3 row 4
  This row has another number of fields than the header.
  Write one field for each column, and quote a field that has a comma.
",
    ),
];

#[test]
fn faults_without_a_place_are_told(rt: HostRuntime) {
    for (words, fault, told) in CASES {
        check_told(&rt, told_of(rt.alloc(), &[], words, *fault, &[]), told);
    }
}
