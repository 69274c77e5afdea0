ghost use Rattle.std.specs.Prelude.{◌≡◌, ◌≢◌, ◌≤◌, Ok, Err, IfOk, IfErr, count_by, length, not};
ghost use Rattle.csv.specs.Records.{fields_of as cells_of};
ghost use Rattle.jobs.specs.Job.{job_view};
ghost use Rattle.payments.specs.Reading.{header_of};
ghost use Rattle.stream_rows.specs.Rows.{stream_row};

use csv::ByteRecord;
use jobs::{Column, Job};
use payments::{PFault, row_from};
use std::alloc::Global;
use tuple_trace::Row;

/// How many cells a record has.
pub(crate) fn header_width(job: &Job) -> usize
    ensures { result ≡ length (header_of (job_view job.now)) }
{
    given_count(job.columns.as_slice()) + 1
}

// How many of the columns a payments file has.
fn given_count(columns: &[Column]) -> usize
    ensures value { result ≡ count_by (λ column. not column.own) columns.now }
    ensures few { result ≤ length columns.now }
{
    columns.iter().filter(|column| !column.own).count()
}

/// The row of a record, or the first thing that is wrong with it. `width` is how many cells it has
/// to have.
pub(crate) fn read_row(
    alloc: Global,
    job: &Job,
    width: usize,
    row: u64,
    cells: &ByteRecord,
) -> Result<Row, PFault>
    requires { width ≡ length (header_of (job_view job.now)) }
    ensures ok { IfOk result (λ made. stream_row (job_view job.now) row (cells_of cells.now)
        ≡ Ok made) }
    ensures fault { IfErr result (λ fault. fault ≢ PFault.NoMemory
        → stream_row (job_view job.now) row (cells_of cells.now) ≡ Err fault) }
{
    if cells.len() != width {
        return Err(PFault::Length(row));
    }
    row_from(alloc, job, row, cells)
}
