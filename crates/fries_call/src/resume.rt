ghost use Rattle.std.specs.Prelude.{◌≡◌, IfOk, IfErr, OnOk};
ghost use Rattle.fries_words.specs.Asked.{IsSize, resume_asked};
ghost use Rattle.payments.specs.World.{world};
ghost use Rattle.fries_steps.specs.Parts.{HasWorkers};
ghost use Rattle.fries_call.specs.Resume.{EndsResume, IsNoResume, IsResumedRun};

use crate::inputs::{RunInputs, inputs_in};
use flow_model::Start;
use fries_lines::Fault;
use fries_steps::{Answer, Done, Host, Outputs, leave_run, run_later_part, setup_of, start_in};
use fries_words::ResumeFiles;
use payments::{Shelf, Sink};
use std::sync::Wait;
use std::thread::Threads;
use tuple_trace::Gate;

// A run from a savepoint on, and where it began.
#[derive(Drop)]
struct Resumed {
    done: Done,
    start: Start,
}

/// Reads a job, its requests and its payments, judges the requests, and then reads a savepoint.
/// Runs the later payments from there, stores the alerts and then the audit, and prints the refused
/// requests and the summary. The first fault ends it.
pub fn resume_command<R, S, O, G>(
    host: &Host<'_, R, G>,
    files: &ResumeFiles,
    shelf: &mut S,
    out: &mut O,
) -> Answer
where
    R: Threads + Wait + Copy + Send + Sync + 'static,
    S: Shelf,
    O: Sink,
    G: Gate + Sync,
    requires { IsSize files.now.run.size }
    ensures { EndsResume (resume_asked files.now)
        (world (S.state shelf.old) (O.state out.old))
        (world (S.state shelf.new) (O.state out.new))
        result }
{
    let names = Outputs {
        alerts: &files.run.alerts,
        audit: Some(&files.run.audit),
        save: None,
    };
    let team = host.team(files.run.size.threads);
    match run_later(host, files, shelf) {
        Ok(Resumed { done, start }) => {
            let mut answer = leave_run(&team, done, names, shelf, out);
            answer.start = Some(start);
            answer
        }
        Err(fault) => Answer::stopped(host.alloc, fault),
    }
}

// Reads the files and runs what they hold from the savepoint on.
fn run_later<R, S, G>(
    host: &Host<'_, R, G>,
    files: &ResumeFiles,
    shelf: &mut S,
) -> Result<Resumed, Fault>
where
    R: Threads + Wait + Copy + Send + Sync + 'static,
    S: Shelf,
    G: Gate + Sync,
    requires { IsSize files.now.run.size }
    ensures run { IfOk result (λ resumed.
        IsResumedRun (resume_asked files.now)
        (S.state shelf.old).files resumed.start resumed.done) }
    ensures workers { IfOk result (λ resumed. HasWorkers resumed.done) }
    ensures kept { OnOk result (S.state shelf.new ≡ S.state shelf.old) }
    ensures files { (S.state shelf.new).files ≡ (S.state shelf.old).files }
    ensures draft { (S.state shelf.new).draft ≡ (S.state shelf.old).draft }
    ensures cause { IfErr result (IsNoResume (resume_asked files.now) (S.state shelf.old).files
        (S.state shelf.old).faults (S.state shelf.new).faults) }
{
    let alloc = host.alloc;
    let run = &files.run;
    let team = host.team(run.size.threads);
    let inputs = inputs_in(&team, &run.plan, &run.payments, shelf)?;
    let RunInputs {
        job,
        requests,
        rows,
    } = inputs;
    let setup = setup_of(alloc, job, &requests, false)?;
    let start = start_in(alloc, &setup, rows.len() as u64, &files.save, shelf)?;
    let done = run_later_part(host, run.size, setup, &requests, &rows, &start)?;
    Ok(Resumed { done, start })
}
