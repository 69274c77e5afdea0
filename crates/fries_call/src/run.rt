ghost use Rattle.std.specs.Prelude.{◌≡◌, IfOk, IfErr, OnOk, length};
ghost use Rattle.jobs.specs.Nodes.{worker_count};
ghost use Rattle.fries_words.specs.Asked.{IsSize, run_asked};
ghost use Rattle.payments.specs.World.{world};
ghost use Rattle.fries_call.specs.Inputs.{AreNoInputs};
ghost use Rattle.fries_call.specs.Run.{EndsRun, IsRunOfFiles};

use crate::exact::run_with_borders;
use crate::inputs::{RunInputs, inputs_in};
use fries_lines::Fault;
use fries_steps::{Answer, Done, Host, Outputs, leave_run, run_on_threads};
use fries_words::RunFiles;
use payments::{Shelf, Sink};
use std::sync::Wait;
use std::thread::Threads;
use tuple_trace::Gate;

/// Reads a job, its requests and its payments, judges the requests and runs the payments, stores
/// the alerts and then the audit, and prints the refused requests and the summary. The first fault
/// ends it. If the borders are to be exact, the row of each request is its border.
pub fn run_command<R, S, O, G>(
    host: &Host<'_, R, G>,
    files: &RunFiles,
    shelf: &mut S,
    out: &mut O,
) -> Answer
where
    R: Threads + Wait + Copy + Send + Sync + 'static,
    S: Shelf,
    O: Sink,
    G: Gate + Sync,
    requires { IsSize files.now.size }
    ensures { EndsRun (run_asked files.now)
        (world (S.state shelf.old) (O.state out.old))
        (world (S.state shelf.new) (O.state out.new))
        result }
{
    let names = Outputs {
        alerts: &files.alerts,
        audit: Some(&files.audit),
        save: None,
    };
    let team = host.team(files.size.threads);
    match run_files(host, files, shelf) {
        Ok(done) => leave_run(&team, done, names, shelf, out),
        Err(fault) => Answer::stopped(host.alloc, fault),
    }
}

// Reads the files and runs what they hold.
fn run_files<R, S, G>(host: &Host<'_, R, G>, files: &RunFiles, shelf: &mut S) -> Result<Done, Fault>
where
    R: Threads + Wait + Copy + Send + Sync + 'static,
    S: Shelf,
    G: Gate + Sync,
    requires { IsSize files.now.size }
    ensures run { IfOk result (IsRunOfFiles (run_asked files.now) (S.state shelf.old).files) }
    ensures journals { IfOk result (λ done. length done.ran.journals
        ≡ worker_count done.ran.setup.job.nodes) }
    ensures states { IfOk result (λ done. length done.ran.states
        ≡ worker_count done.ran.setup.job.nodes) }
    ensures kept { OnOk result (S.state shelf.new ≡ S.state shelf.old) }
    ensures files { (S.state shelf.new).files ≡ (S.state shelf.old).files }
    ensures draft { (S.state shelf.new).draft ≡ (S.state shelf.old).draft }
    ensures cause { IfErr result (AreNoInputs (S.state shelf.old).files
        (run_asked files.now).plan files.now.payments
        (S.state shelf.old).faults (S.state shelf.new).faults) }
{
    let team = host.team(files.size.threads);
    let inputs = inputs_in(&team, &files.plan, &files.payments, shelf)?;
    let RunInputs {
        job,
        requests,
        rows,
    } = inputs;
    let ordered = files.plan.ordered;
    if files.exact {
        return Ok(run_with_borders(host, files.size, job, &requests, &rows, ordered)?);
    }
    Ok(run_on_threads(host, files.size, job, &requests, &rows, ordered)?)
}
