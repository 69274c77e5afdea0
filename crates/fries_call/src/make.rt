ghost use Rattle.std.specs.Prelude.{◌≡◌, Ok, IfOk, IfErr, OnOk, length};
ghost use Rattle.std.specs.Result.{result_err};
ghost use Rattle.fries_words.specs.Asked.{IsThreads, make_asked};
ghost use Rattle.jobs.specs.Job.{job_view};
ghost use Rattle.jobs.specs.Nodes.{AreFromSources, worker_count};
ghost use Rattle.payments.specs.Made.{made_rows};
ghost use Rattle.fries_call.specs.Make.{EndsMake, IsMadeRun, IsNotMade, MakesNoRows};
ghost use Rattle.payments.specs.World.{world};
ghost use Rattle.fries_steps.specs.Effects.{Prints};
ghost use Rattle.fries_steps.specs.Running.{made_lines as made_lines_of};

use fries_lines::Fault;
use fries_steps::{Answer, Done, Host, job_in, made_lines, print, run_on_threads};
use fries_words::{EngineSize, Make};
use jobs::Job;
use payments::{Shelf, Sink, make_rows};
use std::alloc::Global;
use std::sync::Wait;
use std::thread::Threads;
use tuple_trace::{Gate, Rows, USUAL_CAPACITY};
use versions::Requests;

/// Reads a job, makes rows for it, runs them without requests, and prints the summary. It changes
/// no file. The first fault ends it.
pub fn make_command<R, S, O, G>(
    host: &Host<'_, R, G>,
    make: &Make,
    shelf: &mut S,
    out: &mut O,
) -> Answer
where
    R: Threads + Wait + Copy + Send + Sync + 'static,
    S: Shelf,
    O: Sink,
    G: Gate + Sync,
    requires { IsThreads make.now.threads }
    ensures { EndsMake (make_asked make.now)
        (world (S.state shelf.old) (O.state out.old))
        (world (S.state shelf.new) (O.state out.new))
        result }
{
    let alloc = host.alloc;
    match run_made(host, make, shelf) {
        Ok(done) => {
            let fault = print_run(alloc, &done, out).err();
            Answer::of_run(done, fault)
        }
        Err(fault) => Answer::stopped(alloc, fault),
    }
}

// Reads the job and runs the rows that are made for it.
fn run_made<R, S, G>(host: &Host<'_, R, G>, make: &Make, shelf: &mut S) -> Result<Done, Fault>
where
    R: Threads + Wait + Copy + Send + Sync + 'static,
    S: Shelf,
    G: Gate + Sync,
    requires { IsThreads make.now.threads }
    ensures run { IfOk result (IsMadeRun (make_asked make.now) (S.state shelf.old).files) }
    ensures journals { IfOk result (λ done. length done.ran.journals
        ≡ worker_count done.ran.setup.job.nodes) }
    ensures kept { OnOk result (S.state shelf.new ≡ S.state shelf.old) }
    ensures files { (S.state shelf.new).files ≡ (S.state shelf.old).files }
    ensures draft { (S.state shelf.new).draft ≡ (S.state shelf.old).draft }
    ensures cause { IfErr result (IsNotMade (make_asked make.now) (S.state shelf.old).files
        (S.state shelf.old).faults (S.state shelf.new).faults) }
{
    let alloc = host.alloc;
    let job = job_in(alloc, &make.job, shelf)?;
    let rows = rows_made(alloc, &job, make)?;
    let requests = Requests::new(alloc);
    let size = EngineSize {
        threads: make.threads,
        capacity: USUAL_CAPACITY,
    };
    Ok(run_on_threads(host, size, job, &requests, &rows, make.ordered)?)
}

#[tactic(auto, using(crate::proofs::MakeLemmas::makes_no_rows))]
fn rows_made(alloc: Global, job: &Job, make: &Make) -> Result<Rows, Fault>
    ensures rows { IfOk result (λ rows. made_rows (job_view job.now) make.now.seed make.now.rows
        ≡ Ok rows) }
    ensures sources { IfOk result (λ rows. AreFromSources (job_view job.now) rows) }
    ensures cause { IfErr result (MakesNoRows (make_asked make.now) (job_view job.now)) }
{
    Ok(make_rows(alloc, job, make.seed, make.rows)?)
}

#[tactic(auto, using(fries_steps::proofs::PrintLemmas::prints_nothing))]
fn print_run<O: Sink>(alloc: Global, done: &Done, out: &mut O) -> Result<(), Fault>
    requires { length done.now.ran.journals ≡ worker_count done.now.ran.setup.job.nodes }
    ensures { Prints (made_lines_of done.now)
        (O.state out.old) (O.state out.new) (result_err result) }
{
    let lines = made_lines(alloc, done)?;
    print(out, lines.as_slice())
}
