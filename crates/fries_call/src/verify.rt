ghost use Rattle.std.specs.Prelude.{◌≡◌, IfErr, IfOk, OnOk, length};
ghost use Rattle.std.specs.Result.{result_err};
ghost use Rattle.job_file.specs.RequestSizes.{AreFew};
ghost use Rattle.jobs.specs.Job.{job_view};
ghost use Rattle.jobs.specs.Nodes.{worker_count};
ghost use Rattle.fries_words.specs.Asked.{verify_asked};
ghost use Rattle.payments.specs.World.{world};
ghost use Rattle.fries_verify.specs.Audits.{verified_lines as verified_lines_of};
ghost use Rattle.fries_steps.specs.Effects.{Prints};
ghost use Rattle.fries_call.specs.Verify.{EndsVerify, IsNotRestored, IsNotVerified, IsRestoredRun};
ghost use Rattle.fries_call.specs.Verify.{IsSetupBy, IsVerifiedRun};

use crate::inputs::{RunInputs, inputs_in};
use flow_model::Setup;
use fries_lines::Fault;
use fries_steps::{Answer, Done, Host, print, setup_of, start_in};
use fries_verify::{
    Given, audited_later_run, audited_live_run, audited_run, audited_stream, check_alerts,
    stream_setup_of, verified_lines,
};
use fries_words::{AuditOf, VerifyFiles};
use jobs::Job;
use payments::{Shelf, Sink};
use std::alloc::Global;
use std::thread::Threads;
use text_threads::Team;
use tuple_trace::NoMemory;
use versions::Requests;

/// Reads a job, its requests and its payments, judges the requests, and then reads an audit of
/// `run`, of `live`, of `stream`, or of `resume` from a savepoint, which it reads before.
///
/// Rebuilds the run whose audit it is. If alerts are named it reads them, and they have to be just
/// those of this run. Prints that it is verified and the summary. The first fault ends it. No file
/// is changed.
pub fn verify_command<R: Threads + Sync, G, S: Shelf, O: Sink>(
    host: &Host<'_, R, G>,
    files: &VerifyFiles,
    shelf: &mut S,
    out: &mut O,
) -> Answer
    ensures { EndsVerify (verify_asked files.now)
        (world (S.state shelf.old) (O.state out.old))
        (world (S.state shelf.new) (O.state out.new))
        result }
{
    let alloc = host.alloc;
    let team = host.team(1);
    match verified_run(&team, files, shelf) {
        Ok(done) => {
            let fault = print_verified(alloc, &done, out).err();
            Answer::of_run(done, fault)
        }
        Err(fault) => Answer::stopped(alloc, fault),
    }
}

// Reads the files, and rebuilds the run whose audit and alerts they hold.
fn verified_run<R: Threads + Sync, S: Shelf>(
    team: &Team<'_, R>,
    files: &VerifyFiles,
    shelf: &mut S,
) -> Result<Done, Fault>
    ensures run { IfOk result (IsVerifiedRun (verify_asked files.now) (S.state shelf.old).files) }
    ensures journals { IfOk result (λ done. length done.ran.journals
        ≡ worker_count done.ran.setup.job.nodes) }
    ensures kept { OnOk result (S.state shelf.new ≡ S.state shelf.old) }
    ensures files { (S.state shelf.new).files ≡ (S.state shelf.old).files }
    ensures draft { (S.state shelf.new).draft ≡ (S.state shelf.old).draft }
    ensures cause { IfErr result (IsNotVerified (verify_asked files.now) (S.state shelf.old).files
        (S.state shelf.old).faults (S.state shelf.new).faults) }
{
    let done = rebuild(team, files, shelf)?;
    check_alerts(team.alloc, &done, &files.alerts, shelf)?;
    Ok(done)
}

// Reads the files, and rebuilds the run whose audit they hold.
fn rebuild<R: Threads + Sync, S: Shelf>(
    team: &Team<'_, R>,
    files: &VerifyFiles,
    shelf: &mut S,
) -> Result<Done, Fault>
    ensures run { IfOk result (IsRestoredRun (verify_asked files.now) (S.state shelf.old).files) }
    ensures journals { IfOk result (λ done. length done.ran.journals
        ≡ worker_count done.ran.setup.job.nodes) }
    ensures kept { OnOk result (S.state shelf.new ≡ S.state shelf.old) }
    ensures files { (S.state shelf.new).files ≡ (S.state shelf.old).files }
    ensures draft { (S.state shelf.new).draft ≡ (S.state shelf.old).draft }
    ensures cause { IfErr result (IsNotRestored (verify_asked files.now) (S.state shelf.old).files
        (S.state shelf.old).faults (S.state shelf.new).faults) }
{
    let alloc = team.alloc;
    let plan = &files.plan;
    let inputs = inputs_in(team, plan, &files.payments, shelf)?;
    let RunInputs {
        job,
        requests,
        rows,
    } = inputs;
    let setup = setup_by(alloc, &files.of, job, &requests, plan.ordered)?;
    let given = Given {
        requests: &requests,
        rows: &rows,
        audit: &files.audit,
    };
    match &files.of {
        AuditOf::Run => audited_run(alloc, setup, given, shelf),
        AuditOf::Live => audited_live_run(alloc, setup, given, shelf),
        AuditOf::Stream => audited_stream(alloc, setup, given, shelf),
        AuditOf::Resume(save) => {
            let start = start_in(alloc, &setup, rows.len() as u64, save, shelf)?;
            audited_later_run(alloc, setup, &start, given, shelf)
        }
    }
}

// The setup by which the command runs that wrote the audit.
fn setup_by(
    alloc: Global,
    of: &AuditOf,
    job: Job,
    requests: &Requests,
    ordered: bool,
) -> Result<Setup, NoMemory>
    requires { AreFew requests.now }
    ensures { IfOk result (IsSetupBy of.now ordered (job_view job) requests.now) }
{
    match of {
        AuditOf::Stream => stream_setup_of(alloc, job, requests, ordered),
        AuditOf::Run | AuditOf::Live | AuditOf::Resume(_) => {
            setup_of(alloc, job, requests, ordered)
        }
    }
}

#[tactic(auto, using(fries_steps::proofs::PrintLemmas::prints_nothing))]
fn print_verified<O: Sink>(alloc: Global, done: &Done, out: &mut O) -> Result<(), Fault>
    requires { length done.now.ran.journals ≡ worker_count done.now.ran.setup.job.nodes }
    ensures { Prints (verified_lines_of done.now)
        (O.state out.old) (O.state out.new) (result_err result) }
{
    let lines = verified_lines(alloc, done)?;
    print(out, lines.as_slice())
}
