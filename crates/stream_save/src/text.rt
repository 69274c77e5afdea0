ghost use Rattle.std.specs.Prelude.{◌≡◌, ◌++◌, IfOk, OnOk, length};
ghost use Rattle.jobs.specs.Job.{job_view};
ghost use Rattle.jobs.specs.Nodes.{worker_count};
ghost use Rattle.sink_journal.specs.Records.{record_text, records_text};
ghost use Rattle.stream_save.specs.StreamText.{stream_head, stream_save_text, wait_record};
ghost use Rattle.stream_save.specs.StreamText.{wait_records};

use crate::StreamSave;
use jobs::Job;
use savepoint_file::{Cells, SaveSheet};
use std::alloc::Global;
use tuple_trace::{Bytes, NoMemory};

/// The text of a stream's savepoint: a first record with its numbers, a record for each wait, and
/// one for each count.
///
/// A wait's record has the number of the request, from 1, and its row. The records of the counts
/// are those of `save_text` of `savepoint_file`.
///
/// # Errors
///
/// Only out of memory.
pub fn stream_text(alloc: Global, job: &Job, save: &StreamSave) -> Result<Bytes, NoMemory>
    requires { length save.now.start.states ≡ worker_count job.now.nodes }
    ensures { IfOk result (λ text. text ≡ stream_save_text (job_view job.now) save.now) }
{
    let mut sheet = SaveSheet::new(alloc);
    write_first(alloc, &mut sheet, save)?;
    sheet.write_counts(job, save.start.states.as_slice())?;
    sheet.finish()
}

// The first record and the waits.
fn write_first(alloc: Global, sheet: &mut SaveSheet, save: &StreamSave) -> Result<(), NoMemory>
    ensures { OnOk result (sheet.new ≡ sheet.old
        ++ (record_text (stream_head save.now) ++ records_text (wait_records 1 save.now.waits))) }
{
    let mut cells = Cells::new(alloc);
    fill_head(&mut cells, save)?;
    sheet.write(&cells)?;
    write_waits(sheet, &mut cells, save.waits.as_slice())
}

fn write_waits(sheet: &mut SaveSheet, cells: &mut Cells, waits: &[u64]) -> Result<(), NoMemory>
    ensures { OnOk result (sheet.new ≡ sheet.old ++ records_text (wait_records 1 waits.now)) }
{
    for (place, row) in waits.iter().enumerate() {
        fill_wait(cells, place as u64 + 1, *row)?;
        sheet.write(cells)?;
    }
    Ok(())
}

fn fill_head(cells: &mut Cells, save: &StreamSave) -> Result<(), NoMemory>
    ensures { OnOk result (cells.new ≡ stream_head save.now) }
{
    cells.clear();
    cells.push(b"fries")?;
    cells.push(b"stream")?;
    cells.push_printed(save.start.row)?;
    cells.push_printed(save.start.turned)?;
    cells.push_printed(save.read)?;
    cells.push_printed(save.alerts)?;
    cells.push_printed(save.audit)
}

fn fill_wait(cells: &mut Cells, number: u64, row: u64) -> Result<(), NoMemory>
    ensures { OnOk result (cells.new ≡ wait_record number row) }
{
    cells.clear();
    cells.push(b"wait")?;
    cells.push_printed(number)?;
    cells.push_printed(row)
}
