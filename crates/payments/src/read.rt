ghost use Rattle.std.specs.Prelude.{◌≡◌, ◌≢◌, ◌≤◌, ◌*◌, All, Ok, Err, IfOk, IfErr, length};
ghost use Rattle.csv.specs.Records.{fields_of as cells_of};
ghost use Rattle.jobs.specs.Job.{job_view};
ghost use Rattle.jobs.specs.Nodes.{AreFromSources};
ghost use Rattle.jobs.specs.Weights.{weight as weight_of};
ghost use Rattle.payments.specs.Reading.{header_of, rows_behind, rows_from, rows_of, work_max};
ghost use Rattle.jobs.specs.Limits.{HasShortTexts};
ghost use Rattle.tuple_trace.specs.declared.row.Row.{Row as RowIs};
ghost use Rattle.payments.specs.declared.read.PFault.TheVariants.{NoMemory as OutOfMemory};

use crate::cells::is_header;
use crate::records::TextRecords;
use crate::row::{Measure, row_of};
use csv::ByteRecord;
use jobs::{Job, weight};
use std::alloc::Global;
use tuple_trace::{NoMemory, Rows};

/// Why a payments file isn't read. Rows are counted from 1. A column's number is its place among
/// all columns of the job, from 0.
#[derive(Clone, Copy, Debug, PartialEq, Eq)]
pub enum PFault {
    /// The file has no record.
    NoHeader,
    /// The first record isn't `source` and then the names of the columns that aren't own, in the
    /// job's order.
    Header,
    /// The row has another number of fields than the header.
    Length(u64),
    /// The first field of the row names no source of the job.
    Source(u64),
    /// The row's number or amount in this column isn't spelled as one, or is outside the range of
    /// `i64`.
    Value(u64, u32),
    /// The row's text in this column has more than 48 bytes.
    TextLong(u64, u32),
    /// The row's number times the weight of the job is above 1,048,576.
    TooMuch(u64),
    NoMemory,
}

impl From<NoMemory> for PFault {
    ghost from_gives = { λ _ e. e ≡ OutOfMemory };

    fn from(_: NoMemory) -> Self {
        PFault::NoMemory
    }
}

/// The rows of a payments file of this job, or its first fault.
///
/// The file is CSV with a header. Its faults are looked for in this order: the header; then row by
/// row the number of rows, the number of fields, the source, and the columns from left to right.
/// Columns that are the job's own aren't in the file. The file is read in one pass, and no more of
/// it is kept than its rows.
pub fn read_rows(alloc: Global, job: &Job, bytes: &[u8]) -> Result<Rows, PFault>
    ensures ok { IfOk result (λ rows. rows_of (job_view job.now) bytes.now ≡ Ok rows) }
    ensures sources { IfOk result (λ rows. AreFromSources (job_view job.now) rows) }
    ensures work { IfOk result (λ rows. length rows * weight_of (job_view job.now) ≤ work_max) }
    ensures texts { IfOk result (λ rows. All (λ (row : RowIs). HasShortTexts row.tuple) rows) }
    ensures fault { IfErr result (λ fault. fault ≢ PFault.NoMemory
        → rows_of (job_view job.now) bytes.now ≡ Err fault) }
{
    let mut records = TextRecords::of(alloc, bytes);
    let mut cells = ByteRecord::new(alloc);
    rows_under_header(alloc, job, &mut records, &mut cells)
}

/// The rows of all records of a file, of which the first is the header. `cells` holds each record
/// in turn.
fn rows_under_header(
    alloc: Global,
    job: &Job,
    records: &mut TextRecords<'_>,
    cells: &mut ByteRecord,
) -> Result<Rows, PFault>
    ensures ok { IfOk result (λ rows. rows_behind (job_view job.now) records.old ≡ Ok rows) }
    ensures sources { IfOk result (λ rows. AreFromSources (job_view job.now) rows) }
    ensures work { IfOk result (λ rows. length rows * weight_of (job_view job.now) ≤ work_max) }
    ensures texts { IfOk result (λ rows. All (λ (row : RowIs). HasShortTexts row.tuple) rows) }
    ensures fault { IfErr result (λ fault. fault ≢ PFault.NoMemory
        → rows_behind (job_view job.now) records.old ≡ Err fault) }
{
    if !records.next(cells)? {
        return Err(PFault::NoHeader);
    }
    if !is_header(job.columns.as_slice(), cells) {
        return Err(PFault::Header);
    }
    later_rows(alloc, job, records, cells)
}

/// The rows of the records that are left. `cells` holds the header, and then each record in turn.
fn later_rows(
    alloc: Global,
    job: &Job,
    records: &mut TextRecords<'_>,
    cells: &mut ByteRecord,
) -> Result<Rows, PFault>
    requires header { length (cells_of cells.old) ≡ length (header_of (job_view job.now)) }
    ensures ok { IfOk result (λ rows. rows_from (job_view job.now) 1 records.old ≡ Ok rows) }
    ensures sources { IfOk result (λ rows. AreFromSources (job_view job.now) rows) }
    ensures work { IfOk result (λ rows. length rows * weight_of (job_view job.now) ≤ work_max) }
    ensures texts { IfOk result (λ rows. All (λ (row : RowIs). HasShortTexts row.tuple) rows) }
    ensures fault { IfErr result (λ fault. fault ≢ PFault.NoMemory
        → rows_from (job_view job.now) 1 records.old ≡ Err fault) }
{
    let measure = Measure {
        weight: weight(job),
        width: cells.len(),
    };
    let mut rows = Rows::new(alloc);
    for number in 1..u64::MAX {
        if !records.next(cells)? {
            return Ok(rows);
        }
        rows.push(row_of(alloc, job, measure, number, cells)?)?;
    }
    Err(PFault::NoMemory)
}
