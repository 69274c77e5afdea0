ghost use Rattle.std.specs.Prelude.{◌≡◌, ◌⊎◌, IfOk, IfErr, OnOk};
ghost use Rattle.fries_words.specs.Asked.{IsSize, run_asked};
ghost use Rattle.payments.specs.World.{world};
ghost use Rattle.fries_lines.specs.declared.fault.Fault.TheVariants.{NoMemory as OutOfMemory};
ghost use Rattle.fries_steps.specs.Parts.{HasWorkers};
ghost use Rattle.fries_call.specs.Inputs.{AreNoInputs};
ghost use Rattle.fries_call.specs.Live.{EndsLive, IsLiveRunOfFiles};

use crate::inputs::{RunInputs, inputs_in};
use fries_lines::Fault;
use fries_steps::{Answer, Host, LiveDone, Outputs, leave_live, run_live};
use fries_words::RunFiles;
use live_control::Asks;
use payments::{Shelf, Sink};
use std::sync::Wait;
use std::thread::Threads;
use tuple_trace::Gate;

/// Reads a job, its requests and its payments, judges the requests and runs the payments, while an
/// input releases the requests. Stores the alerts and then the audit, and prints the refused
/// requests and the summary. The first fault ends it; a fault of the input comes last.
pub fn live_command<R, S, O, G, Q>(
    host: &Host<'_, R, G>,
    files: &RunFiles,
    shelf: &mut S,
    out: &mut O,
    asks: &mut Q,
) -> Answer
where
    R: Threads + Wait + Copy + Send + Sync + 'static,
    S: Shelf,
    O: Sink,
    G: Gate + Sync,
    Q: Asks,
    requires { IsSize files.now.size }
    ensures { EndsLive (run_asked files.now) (Q.state asks.old) (Q.state asks.new)
        (world (S.state shelf.old) (O.state out.old))
        (world (S.state shelf.new) (O.state out.new))
        result }
{
    let names = Outputs {
        alerts: &files.alerts,
        audit: Some(&files.audit),
        save: None,
    };
    let team = host.team(files.size.threads);
    match run_files(host, files, shelf, asks) {
        Ok(live) => leave_live(&team, live, names, shelf, out),
        Err(fault) => Answer::stopped(host.alloc, fault),
    }
}

// Reads the files and runs what they hold.
fn run_files<R, S, G, Q>(
    host: &Host<'_, R, G>,
    files: &RunFiles,
    shelf: &mut S,
    asks: &mut Q,
) -> Result<LiveDone, Fault>
where
    R: Threads + Wait + Copy + Send + Sync + 'static,
    S: Shelf,
    G: Gate + Sync,
    Q: Asks,
    requires { IsSize files.now.size }
    ensures run { IfOk result (IsLiveRunOfFiles (run_asked files.now) (S.state shelf.old).files
        (Q.state asks.old) (Q.state asks.new)) }
    ensures workers { IfOk result (λ live. HasWorkers live.done) }
    ensures kept { OnOk result (S.state shelf.new ≡ S.state shelf.old) }
    ensures files { (S.state shelf.new).files ≡ (S.state shelf.old).files }
    ensures draft { (S.state shelf.new).draft ≡ (S.state shelf.old).draft }
    ensures asks { IfErr result (λ why. (Q.state asks.new ≡ Q.state asks.old)
        ⊎ (why ≡ OutOfMemory)) }
    ensures cause { IfErr result (AreNoInputs (S.state shelf.old).files
        (run_asked files.now).plan files.now.payments
        (S.state shelf.old).faults (S.state shelf.new).faults) }
{
    let team = host.team(files.size.threads);
    let inputs = inputs_in(&team, &files.plan, &files.payments, shelf)?;
    let RunInputs {
        job,
        requests,
        rows,
    } = inputs;
    Ok(run_live(host, files.size, job, &requests, &rows, asks)?)
}
