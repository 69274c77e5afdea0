ghost use Rattle.std.specs.Prelude.{◌≡◌, ◌∷◌, ◌+◌, ◌<◌, IfOk};
ghost use Rattle.csv.specs.Machine.{line_feed};
ghost use Rattle.csv.specs.Reading.{default_config, records as records_of};
ghost use Rattle.jobs.specs.Job.{job_view};
ghost use Rattle.stream_rows.specs.Rows.{sound_rows as rows_of_records};
ghost use Rattle.stream_rows.specs.declared.limits.TheConstants.{MAX_ROWS};

use crate::SoundRows;
use crate::limits::MAX_ROWS;
use crate::sound::sound_rows;
use csv::ByteRecord;
use jobs::Job;
use payments::TextRecords;
use std::alloc::Global;
use tuple_trace::{Bytes, NoMemory};

/// The rows of a piece that stands somewhere after the header, up to its first fault. The first row
/// gets the number `fed` + 1. A byte order mark at the start of the piece is part of its first
/// cell.
///
/// # Errors
///
/// Only out of memory. It also comes instead of row 2^63 - 1.
pub fn rows_behind(alloc: Global, job: &Job, fed: u64, piece: &[u8]) -> Result<SoundRows, NoMemory>
    requires { fed < MAX_ROWS }
    ensures { IfOk result (λ sound. sound ≡ rows_of_records (job_view job.now) (fed + 1)
        (records_of default_config piece.now)) }
{
    let text = behind_line_feed(alloc, piece)?;
    let mut records = TextRecords::of(alloc, text.as_slice());
    let mut cells = ByteRecord::new(alloc);
    sound_rows(alloc, job, fed, &mut records, &mut cells)
}

/// The text behind a line feed. It has the same records, and no byte order mark at its start.
pub(crate) fn behind_line_feed(alloc: Global, text: &[u8]) -> Result<Bytes, NoMemory>
    ensures { IfOk result (λ behind. behind ≡ line_feed ∷ text.now) }
{
    let mut behind = Vec::with_capacity(alloc, text.len() + 1)?;
    behind.push(b'\n')?;
    behind.extend_from_slice(text)?;
    Ok(Bytes::from_vec(behind))
}
