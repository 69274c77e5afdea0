use crate::tests::{check_told, told_of};
use fries_help::skipped_rows;
use fries_lines::{Fault, FileIs};
use savepoint::SaveFault;
use std::alloc::Global;
use tuple_trace::NoMemory;

const SAVE: &str = "fries,save,8,2
tally,0,dee,1
big,0,ann,1
";

const CASES: &[(Fault, &str)] = &[
    (
        Fault::Save(SaveFault::Shape(1)),
        "fries: savepoint `save.csv`: S1 record 1 (line 2)
  This record of the savepoint isn't of the form that the command writes, or is missing.
  Give the file that `fries save` or `fries stream` wrote, as it was written.
",
    ),
    (
        Fault::Save(SaveFault::Shape(3)),
        "fries: savepoint `save.csv`: S1 record 3
  This record of the savepoint isn't of the form that the command writes, or is missing.
  Give the file that `fries save` or `fries stream` wrote, as it was written.
",
    ),
    (
        Fault::Save(SaveFault::Past(8)),
        "fries: savepoint `save.csv`: S2 rows 8
  The savepoint was made after this row, and there are fewer payments.
  Give the payments of the run that was saved, with those before the savepoint.
",
    ),
    (
        Fault::Save(SaveFault::Count(1)),
        "fries: savepoint `save.csv`: S3 requests 1
  Another number of requests was done before the savepoint than is due by its row now.
  Give the requests of the run that was saved; add only requests for later rows.
",
    ),
    (
        Fault::Save(SaveFault::State(2)),
        "fries: savepoint `save.csv`: S4 record 2 (line 3)
  Its worker doesn't count, or its key goes to another, is too long, or comes too early.
  Give the job of the run that was saved, and the savepoint as it was written.
",
    ),
    (
        Fault::Long(FileIs::Save),
        "fries: savepoint `save.csv`
  The savepoint is longer than the program reads.
  At most 536870912 bytes are read of it.
  Save after fewer rows, before there are so many counts, or run the job in one part.
",
    ),
];

const RESUME: &[&str] = &[
    "resume",
    "job.toml",
    "requests.toml",
    "pay.csv",
    "save.csv",
    "alerts.csv",
    "audit.csv",
];

fn told_of_case(alloc: Global, fault: Fault) -> Result<String, NoMemory> {
    told_of(alloc, &[("save.csv", SAVE)], RESUME, Some(fault), &[])
}

#[test]
fn each_fault_of_a_savepoint_is_told(rt: HostRuntime) {
    for (fault, told) in CASES {
        check_told(&rt, told_of_case(rt.alloc(), *fault), told);
    }
}

#[test]
fn the_skipped_rows_of_resume_are_told(rt: HostRuntime) {
    let cases = [
        (
            0,
            "fries: rows skipped, since the savepoint stands after them: 0\n",
        ),
        (
            8,
            "fries: rows skipped, since the savepoint stands after them: 8\n",
        ),
        (
            1_048_576,
            "fries: rows skipped, since the savepoint stands after them: 1048576\n",
        ),
    ];
    for (row, told) in &cases {
        check_told(&rt, skipped_rows(rt.alloc(), *row), told);
    }
}
