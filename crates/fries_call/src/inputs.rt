// What the files of a run hold.
ghost use Rattle.std.specs.Prelude.{◌≡◌, All, IfErr, IfOk, OnOk};
ghost use Rattle.jobs.specs.Job.{job_view};
ghost use Rattle.jobs.specs.Limits.{HasShortTexts};
ghost use Rattle.jobs.specs.Nodes.{AreFromSources};
ghost use Rattle.job_file.specs.RequestSizes.{AreFew};
ghost use Rattle.tuple_trace.specs.declared.row.Row.{Row};
ghost use Rattle.versions.specs.Kept.{HaveLimits};
ghost use Rattle.fries_words.specs.Asked.{plan_asked};
ghost use Rattle.fries_call.specs.Inputs.{AreInputsOf, AreNoInputs};

use fries_lines::Fault;
use fries_steps::{job_in, requests_in, rows_in};
use fries_words::PlanFiles;
use jobs::Job;
use payments::Shelf;
use std::thread::Threads;
use text_threads::Team;
use tuple_trace::{Rows, Word};
use versions::Requests;

/// What a run reads: a job, requests of it and rows of it.
#[derive(Drop)]
pub(crate) struct RunInputs {
    pub job: Job,
    pub requests: Requests,
    pub rows: Rows,
}

/// Reads a job, its requests and then its payments, these on the threads of the team. The first
/// fault ends it.
pub(crate) fn inputs_in<R: Threads + Sync, S: Shelf>(
    team: &Team<'_, R>,
    plan: &PlanFiles,
    payments: &Word,
    shelf: &mut S,
) -> Result<RunInputs, Fault>
    ensures inputs { IfOk result (λ inputs. AreInputsOf (S.state shelf.old).files
        (plan_asked plan.now) payments.now
        (job_view inputs.job) inputs.requests inputs.rows) }
    ensures few { IfOk result (λ inputs. AreFew inputs.requests) }
    ensures limits { IfOk result (λ inputs. HaveLimits inputs.requests) }
    ensures sources { IfOk result (λ inputs. AreFromSources (job_view inputs.job) inputs.rows) }
    ensures texts { IfOk result (λ inputs.
        All (λ (row : Row). HasShortTexts row.tuple) inputs.rows) }
    ensures kept { OnOk result (S.state shelf.new ≡ S.state shelf.old) }
    ensures files { (S.state shelf.new).files ≡ (S.state shelf.old).files }
    ensures draft { (S.state shelf.new).draft ≡ (S.state shelf.old).draft }
    ensures cause { IfErr result (AreNoInputs (S.state shelf.old).files (plan_asked plan.now)
        payments.now (S.state shelf.old).faults (S.state shelf.new).faults) }
{
    let alloc = team.alloc;
    let job = job_in(alloc, &plan.job, shelf)?;
    let requests = requests_in(alloc, &job, &plan.requests, shelf)?;
    let rows = rows_in(team, &job, payments, shelf)?;
    Ok(RunInputs {
        job,
        requests,
        rows,
    })
}
