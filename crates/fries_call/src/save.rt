ghost use Rattle.std.specs.Prelude.{◌≡◌, IfOk, IfErr, OnOk};
ghost use Rattle.fries_words.specs.Asked.{IsSize, save_asked};
ghost use Rattle.payments.specs.World.{world};
ghost use Rattle.fries_steps.specs.Parts.{HasWorkers};
ghost use Rattle.fries_call.specs.Inputs.{AreNoInputs};
ghost use Rattle.fries_call.specs.Save.{EndsSave, IsSavedRun};

use crate::inputs::{RunInputs, inputs_in};
use fries_lines::Fault;
use fries_steps::{Answer, Done, Host, Outputs, leave_run, run_first_part};
use fries_words::SaveFiles;
use payments::{Shelf, Sink};
use std::sync::Wait;
use std::thread::Threads;
use tuple_trace::Gate;

/// Reads a job, its requests and its payments, and runs the first payments. Stores the alerts, the
/// audit and then the savepoint, and prints the refused requests and the summary. The first fault
/// ends it.
pub fn save_command<R, S, O, G>(
    host: &Host<'_, R, G>,
    files: &SaveFiles,
    shelf: &mut S,
    out: &mut O,
) -> Answer
where
    R: Threads + Wait + Copy + Send + Sync + 'static,
    S: Shelf,
    O: Sink,
    G: Gate + Sync,
    requires { IsSize files.now.run.size }
    ensures { EndsSave (save_asked files.now)
        (world (S.state shelf.old) (O.state out.old))
        (world (S.state shelf.new) (O.state out.new))
        result }
{
    let names = Outputs {
        alerts: &files.run.alerts,
        audit: Some(&files.run.audit),
        save: Some(&files.save),
    };
    let team = host.team(files.run.size.threads);
    match run_first(host, files, shelf) {
        Ok(done) => leave_run(&team, done, names, shelf, out),
        Err(fault) => Answer::stopped(host.alloc, fault),
    }
}

// Reads the files and runs the first part of what they hold.
fn run_first<R, S, G>(
    host: &Host<'_, R, G>,
    files: &SaveFiles,
    shelf: &mut S,
) -> Result<Done, Fault>
where
    R: Threads + Wait + Copy + Send + Sync + 'static,
    S: Shelf,
    G: Gate + Sync,
    requires { IsSize files.now.run.size }
    ensures run { IfOk result (IsSavedRun (save_asked files.now) (S.state shelf.old).files) }
    ensures workers { IfOk result HasWorkers }
    ensures kept { OnOk result (S.state shelf.new ≡ S.state shelf.old) }
    ensures files { (S.state shelf.new).files ≡ (S.state shelf.old).files }
    ensures draft { (S.state shelf.new).draft ≡ (S.state shelf.old).draft }
    ensures cause { IfErr result (AreNoInputs (S.state shelf.old).files
        (save_asked files.now).run.plan files.now.run.payments
        (S.state shelf.old).faults (S.state shelf.new).faults) }
{
    let run = &files.run;
    let team = host.team(run.size.threads);
    let inputs = inputs_in(&team, &run.plan, &run.payments, shelf)?;
    let RunInputs {
        job,
        requests,
        rows,
    } = inputs;
    Ok(run_first_part(host, run.size, job, &requests, &rows, files.rows)?)
}
