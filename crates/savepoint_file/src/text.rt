ghost use Rattle.std.specs.Prelude.{◌≡◌, IfOk, OnOk, length};
ghost use Rattle.jobs.specs.Job.{job_view};
ghost use Rattle.jobs.specs.Nodes.{worker_count};
ghost use Rattle.savepoint.specs.SaveText.{head_record, save_text as save_text_of};

use crate::cells::Cells;
use crate::save_sheet::SaveSheet;
use flow_model::Start;
use jobs::Job;
use std::alloc::Global;
use tuple_trace::{Bytes, NoMemory};

/// The text of a savepoint: a first record with the row and the number of requests, and then one
/// record for each count.
///
/// A count's record has the name of its node, the place of its worker, its key and its number. The
/// records come by the workers' numbers, and for one worker by the bytes of their keys. The only
/// error is out of memory.
pub fn save_text(alloc: Global, job: &Job, start: &Start) -> Result<Bytes, NoMemory>
    requires { length start.now.states ≡ worker_count job.now.nodes }
    ensures { IfOk result (λ text. text ≡ save_text_of (job_view job.now) start.now) }
{
    let mut cells = Cells::new(alloc);
    fill_head(&mut cells, start.row, start.turned)?;
    let mut sheet = SaveSheet::new(alloc);
    sheet.write(&cells)?;
    sheet.write_counts(job, start.states.as_slice())?;
    sheet.finish()
}

fn fill_head(cells: &mut Cells, row: u64, turned: u64) -> Result<(), NoMemory>
    ensures { OnOk result (cells.new ≡ head_record row turned) }
{
    cells.clear();
    cells.push(b"fries")?;
    cells.push(b"save")?;
    cells.push_printed(row)?;
    cells.push_printed(turned)
}
