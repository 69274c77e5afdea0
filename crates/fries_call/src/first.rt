ghost use Rattle.std.specs.Prelude.{◌≡◌, IfOk, IfErr, OnOk, length};
ghost use Rattle.jobs.specs.Nodes.{worker_count};
ghost use Rattle.fries_words.specs.Asked.{first_asked};
ghost use Rattle.fries_call.specs.First.{EndsFirst, IsRunOfFirst};
ghost use Rattle.payments.specs.World.{world};
ghost use Rattle.fries_steps.specs.FirstJob.{first_job as first_job_of};
ghost use Rattle.fries_steps.specs.Reading.{AreNoRows};

use fries_lines::Fault;
use fries_steps::{
    Answer, Done, Host, Outputs, first_job, first_requests, leave_run, rows_in, run_in_order,
};
use fries_words::First;
use payments::{Shelf, Sink};
use std::thread::Threads;
use text_threads::Team;

/// Reads the payments and runs them, stores the alerts and prints the summary. The first fault ends
/// it.
pub fn first_command<R: Threads + Sync, G, S: Shelf, O: Sink>(
    host: &Host<'_, R, G>,
    first: &First,
    shelf: &mut S,
    out: &mut O,
) -> Answer
    ensures { EndsFirst (first_asked first.now)
        (world (S.state shelf.old) (O.state out.old))
        (world (S.state shelf.new) (O.state out.new))
        result }
{
    let names = Outputs {
        alerts: &first.alerts,
        audit: None,
        save: None,
    };
    let team = host.team(1);
    match run_first(&team, first, shelf) {
        Ok(done) => leave_run(&team, done, names, shelf, out),
        Err(fault) => Answer::stopped(host.alloc, fault),
    }
}

// Reads the payments and runs them, with the one request.
fn run_first<R: Threads + Sync, S: Shelf>(
    team: &Team<'_, R>,
    first: &First,
    shelf: &mut S,
) -> Result<Done, Fault>
    ensures run { IfOk result (IsRunOfFirst (first_asked first.now) (S.state shelf.old).files) }
    ensures journals { IfOk result (λ done. length done.ran.journals
        ≡ worker_count done.ran.setup.job.nodes) }
    ensures states { IfOk result (λ done. length done.ran.states
        ≡ worker_count done.ran.setup.job.nodes) }
    ensures kept { OnOk result (S.state shelf.new ≡ S.state shelf.old) }
    ensures files { (S.state shelf.new).files ≡ (S.state shelf.old).files }
    ensures draft { (S.state shelf.new).draft ≡ (S.state shelf.old).draft }
    ensures cause { IfErr result (AreNoRows (S.state shelf.old).files first.now.payments
        (first_job_of first.now.least)
        (S.state shelf.old).faults (S.state shelf.new).faults) }
{
    let alloc = team.alloc;
    let job = first_job(alloc, first.least)?;
    let requests = first_requests(alloc, first)?;
    let rows = rows_in(team, &job, &first.payments, shelf)?;
    Ok(run_in_order(alloc, job, &requests, &rows)?)
}
