// A run in which the row of each request is its border.
ghost use Rattle.std.specs.Prelude.{◌≡◌, IfOk, length};
ghost use Rattle.jobs.specs.Job.{job_view};
ghost use Rattle.jobs.specs.Nodes.{AreFromSources, worker_count};
ghost use Rattle.job_file.specs.RequestSizes.{AreFew};
ghost use Rattle.fries_words.specs.Asked.{IsSize};
ghost use Rattle.fries_steps.specs.Running.{IsRunOf};
ghost use Rattle.fries_steps.specs.SetupFor.{AreSame};
ghost use Rattle.fries_call.specs.Run.{HasExactBorders};

use flow_exact::run_exactly;
use flow_model::{ordered_runs_are_serial, runs_are_consistent};
use fries_steps::{Done, Host, done_of, setup_of};
use fries_words::EngineSize;
use jobs::Job;
use lane_ring::RingLanes;
use std::sync::Wait;
use std::thread::Threads;
use tuple_trace::{Gate, NoMemory, Rows};
use versions::Requests;

/// As [`fries_steps::run_on_threads`], but each request takes effect just behind its row, or behind
/// the last row if that comes before.
pub(crate) fn run_with_borders<R, G>(
    host: &Host<'_, R, G>,
    size: EngineSize,
    job: Job,
    requests: &Requests,
    rows: &Rows,
    ordered: bool,
) -> Result<Done, NoMemory>
where
    R: Threads + Wait + Copy + Send + Sync + 'static,
    G: Gate + Sync,
    requires size { IsSize size }
    requires few { AreFew requests.now }
    requires sources { AreFromSources (job_view job) rows.now }
    ensures run { IfOk result (IsRunOf AreSame ordered (job_view job) requests.now rows.now) }
    ensures exact { IfOk result (HasExactBorders rows.now) }
    ensures journals { IfOk result (λ done. length done.ran.journals
        ≡ worker_count done.ran.setup.job.nodes) }
    ensures states { IfOk result (λ done. length done.ran.states
        ≡ worker_count done.ran.setup.job.nodes) }
{
    let alloc = host.alloc;
    let setup = setup_of(alloc, job, requests, ordered)?;
    let lanes = RingLanes;
    let engine = host.engine(&lanes, size);
    let ran = run_exactly(&engine, setup, rows)?;
    rows.are_numbered();
    runs_are_consistent(&ran.setup);
    ordered_runs_are_serial(&ran.setup, rows);
    done_of(alloc, ran, requests, rows)
}
