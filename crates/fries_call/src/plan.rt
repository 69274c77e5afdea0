ghost use Rattle.std.specs.Prelude.{◌≡◌, IfOk, IfErr, OnOk};
ghost use Rattle.std.specs.Result.{result_err};
ghost use Rattle.fries_words.specs.Asked.{plan_asked};
ghost use Rattle.payments.specs.World.{world};
ghost use Rattle.fries_steps.specs.Effects.{Prints};
ghost use Rattle.fries_call.specs.Plan.{EndsPlan, IsNoSetup, IsSetupOf};
ghost use Rattle.fries_call.specs.Plan.{setup_lines as setup_lines_of};

use flow_model::Setup;
use fries_lines::{Fault, push_plans, push_refused};
use fries_steps::{Answer, job_in, print, requests_in, setup_of};
use fries_words::PlanFiles;
use payments::{Shelf, Sink};
use std::alloc::Global;
use tuple_trace::{Bytes, NoMemory};
use versions::{Judged, Refusals};

/// Reads a job and its requests, and prints the plan of each accepted request and then each refused
/// one. The first fault ends it.
pub fn plan_command<S: Shelf, O: Sink>(
    alloc: Global,
    files: &PlanFiles,
    shelf: &mut S,
    out: &mut O,
) -> Answer
    ensures { EndsPlan (plan_asked files.now)
        (world (S.state shelf.old) (O.state out.old))
        (world (S.state shelf.new) (O.state out.new))
        result }
{
    match setup_in(alloc, files, shelf) {
        Ok(setup) => {
            let fault = print_setup(alloc, &setup, out).err();
            Answer {
                fault,
                refused: refused_of(setup),
                ran: None,
                start: None,
            }
        }
        Err(fault) => Answer::stopped(alloc, fault),
    }
}

// Reads a job and its requests, and judges these.
fn setup_in<S: Shelf>(alloc: Global, files: &PlanFiles, shelf: &mut S) -> Result<Setup, Fault>
    ensures setup { IfOk result (IsSetupOf (plan_asked files.now) (S.state shelf.old).files) }
    ensures kept { OnOk result (S.state shelf.new ≡ S.state shelf.old) }
    ensures files { (S.state shelf.new).files ≡ (S.state shelf.old).files }
    ensures draft { (S.state shelf.new).draft ≡ (S.state shelf.old).draft }
    ensures cause { IfErr result (IsNoSetup (plan_asked files.now) (S.state shelf.old).files
        (S.state shelf.old).faults (S.state shelf.new).faults) }
{
    let job = job_in(alloc, &files.job, shelf)?;
    let requests = requests_in(alloc, &job, &files.requests, shelf)?;
    Ok(setup_of(alloc, job, &requests, files.ordered)?)
}

fn refused_of(setup: Setup) -> Refusals
    ensures { result ≡ setup.judged.refused }
{
    let Setup { judged, .. } = setup;
    let Judged { refused, .. } = judged;
    refused
}

#[tactic(auto, using(fries_steps::proofs::PrintLemmas::prints_nothing))]
fn print_setup<O: Sink>(alloc: Global, setup: &Setup, out: &mut O) -> Result<(), Fault>
    ensures { Prints (setup_lines_of setup.now)
        (O.state out.old) (O.state out.new) (result_err result) }
{
    let lines = setup_lines(alloc, setup)?;
    print(out, lines.as_slice())
}

fn setup_lines(alloc: Global, setup: &Setup) -> Result<Bytes, NoMemory>
    ensures { IfOk result (λ lines. lines ≡ setup_lines_of setup.now) }
{
    let mut lines = Bytes::new(alloc);
    push_plans(alloc, &setup.job, setup.plans.as_slice(), &mut lines)?;
    push_refused(alloc, setup.judged.refused.as_slice(), &mut lines)?;
    Ok(lines)
}
