ghost use Rattle.std.specs.Prelude.{◌≡◌, ◌≢◌, ◌+◌, ◌<◌, IfOk, Some, length};
ghost use Rattle.jobs.specs.Job.{job_view};
ghost use Rattle.stream_rows.specs.Rows.{sound_rows as rows_of_records};
ghost use Rattle.stream_rows.specs.declared.limits.TheConstants.{MAX_ROWS};

use crate::limits::MAX_ROWS;
use crate::row::{header_width, read_row};
use csv::ByteRecord;
use jobs::Job;
use payments::{PFault, TextRecords};
use std::alloc::Global;
use tuple_trace::{Items, NoMemory, Row};

/// The rows before the first fault, and that fault if there is one.
#[derive(Drop)]
pub struct SoundRows {
    /// Each is numbered by its place in the whole stream.
    pub rows: Items<Row>,
    /// What is wrong behind them.
    pub fault: Option<PFault>,
}

/// The rows of the records that are left. The first has the number `fed + 1`. `cells` holds each
/// record in turn.
pub(crate) fn sound_rows(
    alloc: Global,
    job: &Job,
    fed: u64,
    records: &mut TextRecords<'_>,
    cells: &mut ByteRecord,
) -> Result<SoundRows, NoMemory>
    requires { fed < MAX_ROWS }
    ensures sound { IfOk result (λ sound. sound
        ≡ rows_of_records (job_view job.now) (fed + 1) records.old) }
    ensures few { IfOk result (λ sound. fed + length sound.rows < MAX_ROWS) }
{
    let width = header_width(job);
    let mut rows = Items::new(alloc);
    for number in fed + 1..MAX_ROWS + 1 {
        if !records.next(cells)? {
            return Ok(SoundRows { rows, fault: None });
        }
        match read_row(alloc, job, width, number, cells) {
            Ok(row) => rows.push(row)?,
            Err(fault) => return stopped(rows, fault),
        }
    }
    Err(NoMemory)
}

// The rows before a fault. Out of memory is no fault of a row.
fn stopped(rows: Items<Row>, fault: PFault) -> Result<SoundRows, NoMemory>
    ensures { IfOk result (λ sound. (fault ≢ PFault.NoMemory)
        × (sound ≡ record { rows = rows; fault = Some fault })) }
{
    match fault {
        PFault::NoMemory => Err(NoMemory),
        fault => Ok(SoundRows {
            rows,
            fault: Some(fault),
        }),
    }
}
