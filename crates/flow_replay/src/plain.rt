ghost use Rattle.std.specs.Prelude.{◌≡◌, IfOk, OnOk, length};
ghost use Rattle.jobs.specs.Job.{job_view};
ghost use Rattle.jobs.specs.Nodes.{AreFromSources};
ghost use Rattle.flow_model.specs.Consistent.{IsConsistent};
ghost use Rattle.flow_model.specs.Record.{record_view};
ghost use Rattle.flow_model.specs.Run.{IsRun};
ghost use Rattle.flow_model.specs.Setup.{setup_view};
ghost use Rattle.flow_replay.specs.Order.{IsInOrder};
ghost use Rattle.flow_replay.specs.inner.Executor.{HasFed, IsNew, left_view};

use crate::executor::{Executor, Left};
use flow_model::{RunRecord, Setup, runs_are_consistent};
use std::alloc::Global;
use tuple_trace::{NoMemory, Rows};

/// Runs the rows on one thread: each row is delivered with all that it causes before the next one
/// is fed, and all workers that a request covers turn when it is issued. After an error the setup
/// is given up.
///
/// What it leaves is a run. So every row is whole at every request, as the laws of runs say; and
/// here each turn even stands between two rows.
pub fn plain_run(alloc: Global, setup: Setup, rows: &Rows) -> Result<RunRecord, NoMemory>
    requires { AreFromSources (job_view setup.job) rows.now }
    ensures run { IfOk result (λ ran. IsRun (setup_view setup) rows.now (record_view ran)) }
    ensures order { IfOk result (λ ran. IsInOrder (length rows.now) (record_view ran)) }
    ensures consistent { IfOk result (λ ran. IsConsistent rows.now (record_view ran)) }
    ensures same { IfOk result (λ ran. ran.setup ≡ setup) }
{
    rows.are_numbered();
    runs_are_consistent(&setup);
    let Left {
        feeds,
        journals,
        states,
    } = run_rows(alloc, &setup, rows)?;
    Ok(RunRecord {
        setup,
        feeds,
        journals,
        states,
    })
}

// Runs the rows by a setup. Returns what the run leaves.
fn run_rows(alloc: Global, setup: &Setup, rows: &Rows) -> Result<Left, NoMemory>
    requires { AreFromSources (job_view setup.now.job) rows.now }
    ensures run { IfOk result (λ left. IsRun (setup_view setup.now) rows.now
        (left_view (setup_view setup.now) left)) }
    ensures order { IfOk result (λ left. IsInOrder (length rows.now)
        (left_view (setup_view setup.now) left)) }
{
    let mut executor = Executor::new(alloc, setup)?;
    feed_all(&mut executor, rows)?;
    executor.finish()
}

// Feeds all rows, and issues each request directly after the row that it waits for.
fn feed_all(executor: &mut Executor<'_>, rows: &Rows) -> Result<(), NoMemory>
    requires new { IsNew executor.old.setup.now executor.old }
    requires sources { AreFromSources (job_view executor.old.setup.now.job) rows.now }
    ensures { OnOk result (HasFed executor.old.setup.now rows.now (length rows.now) executor.new) }
{
    let list = rows.as_slice();
    let count = list.len() as u64;
    executor.issue_up_to(0, count)?;
    for (place, row) in list.iter().enumerate() {
        executor.feed(row)?;
        executor.issue_up_to(place as u64 + 1, count)?;
    }
    Ok(())
}
