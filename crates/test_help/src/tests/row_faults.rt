use crate::tests::{Case, JOB, RUN, check_told, check_told_after, told_of, with};
use fries_lines::Fault;
use job_file::read_job;
use payments::{PFault, read_rows};
use std::alloc::Global;
use tuple_trace::NoMemory;

const ROWS: &str = "source,account,amount
card,ann,1.00
card,bob,2.00
";

const CASES: &[Case] = &[
    Case {
        old: ROWS,
        new: "",
        told: "fries: payments file `pay.csv`: P1
  The payments file has no record, not even a header.
  The header of this job is `source,account,amount`.
  Write the header as its first line.
",
    },
    Case {
        old: "source,account",
        new: "source,seen",
        told: "fries: payments file `pay.csv`: P2
  The first record isn't `source` and the names of the job's columns, in their order.
  The header of this job is `source,account,amount`.
  Correct the header; leave out the columns that the job marks `own`.
",
    },
    Case {
        old: "card,ann,1.00",
        new: "card,ann",
        told: "fries: payments file `pay.csv`: P3 row 1 (line 2)
  This row has another number of fields than the header.
  It has 2 fields, and the header has 3.
  Write one field for each column, and quote a field that has a comma.
",
    },
    Case {
        old: "ann,1.00\n",
        new: "\"ann,1.00\n",
        told: "fries: payments file `pay.csv`: P3 row 1 (line 2)
  This row has another number of fields than the header.
  It has 2 fields, and the header has 3. The record goes over 2 lines: is a quote left open?
  Write one field for each column, and quote a field that has a comma.
",
    },
    Case {
        old: "card,bob",
        new: "crad,bob",
        told: "fries: payments file `pay.csv`: P4 row 2 (line 3)
  The first field of this row names no source of the job.
  It is `crad`. The sources are `card`.
  Write the name of a source node there.
",
    },
    Case {
        old: "ann,1.00\ncard,bob,2.00",
        new: "\"a\nn\",1.00\r\n\r\n\ncard,bob,2.345",
        told: "fries: payments file `pay.csv`: P5 row 2 column 1 (line 6, `amount`, an amount)
  This field isn't spelled as its column asks, or its value is out of range.
  It is `2.345`.
  A number is digits after an optional `-`; an amount may add `.` and 1 or 2 digits.
",
    },
    Case {
        old: "ann",
        new: "annannannannannannannannannannannannannannannanna",
        told: "fries: payments file `pay.csv`: P6 row 1 column 0 (line 2, `account`, a text)
  The text in this field has more than 48 bytes.
  It is `annannannannannannannannannannannannannannannanna`.
  Shorten the text.
",
    },
];

// What is told of the fault of this payments file. Nothing is, if it has none.
fn told_of_case(alloc: Global, case: Case) -> Result<String, NoMemory> {
    let text = with(alloc, ROWS, case)?;
    let Ok(job) = read_job(alloc, JOB.as_bytes()) else {
        return Err(NoMemory);
    };
    let Err(fault) = read_rows(alloc, &job, text.as_bytes()) else {
        return Ok(String::new(alloc));
    };
    told_of_rows(alloc, text.as_str(), fault)
}

fn told_of_rows(alloc: Global, text: &str, fault: PFault) -> Result<String, NoMemory> {
    let files = [("job.toml", JOB), ("pay.csv", text)];
    told_of(alloc, &files, RUN, Some(Fault::Payments(fault)), &[])
}

#[test]
fn each_fault_of_a_payments_file_is_told(rt: HostRuntime) {
    for case in CASES {
        check_told(&rt, told_of_case(rt.alloc(), *case), case.told);
    }
}

const ROWS_OF_FIRST: &str = "source,account,merchant,amount,tags
crad,ann,grocer,1.234,
";

// What is told of payments of `first`, which has no job file.
const CASES_OF_FIRST: &[(PFault, &str)] = &[
    (
        PFault::NoHeader,
        "P1
  The payments file has no record, not even a header.
  The header of this job is `source,account,merchant,amount,tags`.
  Write the header as its first line.
",
    ),
    (
        PFault::Source(1),
        "P4 row 1 (line 2)
  The first field of this row names no source of the job.
  It is `crad`. The sources are `card`.
  Write the name of a source node there.
",
    ),
    (
        PFault::Value(1, 2),
        "P5 row 1 column 2 (line 2, `amount`, an amount)
  This field isn't spelled as its column asks, or its value is out of range.
  It is `1.234`.
  A number is digits after an optional `-`; an amount may add `.` and 1 or 2 digits.
",
    ),
    (
        PFault::TooMuch(524_289),
        "P7 row 524289
  There are more rows than the weight of the job allows.
  The weight is 2, so 524288 rows are the most.
  Run fewer rows at a time (docs/SAVEPOINTS.md, Long files), or make the job lighter.
",
    ),
];

/// What stands before all that is told of them.
const HEAD_OF_FIRST: &str = "fries: payments file `p`: ";

fn told_of_first(alloc: Global, fault: PFault) -> Result<String, NoMemory> {
    let words = ["first", "p", "a", "1", "2", "3"];
    let files = [("p", ROWS_OF_FIRST)];
    told_of(alloc, &files, &words, Some(Fault::Payments(fault)), &[])
}

#[test]
fn faults_of_the_payments_of_first_are_told(rt: HostRuntime) {
    for (fault, told) in CASES_OF_FIRST {
        check_told_after(&rt, HEAD_OF_FIRST, told_of_first(rt.alloc(), *fault), told);
    }
}

#[test]
fn too_many_rows_are_told(rt: HostRuntime) {
    let told = "fries: payments file `pay.csv`: P7 row 524289
  There are more rows than the weight of the job allows.
  The weight is 2, so 524288 rows are the most.
  Run fewer rows at a time (docs/SAVEPOINTS.md, Long files), or make the job lighter.
";
    check_told(
        &rt,
        told_of_rows(rt.alloc(), ROWS, PFault::TooMuch(524_289)),
        told,
    );
}

#[test]
fn too_many_rows_of_make_are_told(rt: HostRuntime) {
    let told = "fries: made rows: P7 row 524289
  There are more rows than the weight of the job allows.
  The weight is 2, so 524288 rows are the most.
  Run fewer rows at a time (docs/SAVEPOINTS.md, Long files), or make the job lighter.
";
    let words = ["make", "job.toml", "--threads=2", "7", "524289"];
    let fault = Some(Fault::Payments(PFault::TooMuch(524_289)));
    check_told(
        &rt,
        told_of(rt.alloc(), &[("job.toml", JOB)], &words, fault, &[]),
        told,
    );
}
