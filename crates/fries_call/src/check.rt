ghost use Rattle.std.specs.Result.{result_err};
ghost use Rattle.jobs.specs.Job.{job_view};
ghost use Rattle.fries_call.specs.Check.{EndsCheck};
ghost use Rattle.fries_lines.specs.Lines.{sizes_line as sizes_line_of};
ghost use Rattle.payments.specs.World.{world};
ghost use Rattle.fries_steps.specs.Effects.{Prints};

use fries_lines::{Fault, sizes_line};
use fries_steps::{Answer, job_in, print_made};
use jobs::Job;
use payments::{Shelf, Sink};
use std::alloc::Global;
use tuple_trace::Word;
use versions::Refusals;

/// Reads a job file and prints the sizes of its job. The first fault ends it.
pub fn check_command<S: Shelf, O: Sink>(
    alloc: Global,
    name: &Word,
    shelf: &mut S,
    out: &mut O,
) -> Answer
    ensures { EndsCheck name.now
        (world (S.state shelf.old) (O.state out.old))
        (world (S.state shelf.new) (O.state out.new))
        result }
{
    match job_in(alloc, name, shelf) {
        Ok(job) => Answer {
            fault: print_sizes(alloc, &job, out).err(),
            refused: Refusals::new(alloc),
            ran: None,
            start: None,
        },
        Err(fault) => Answer::stopped(alloc, fault),
    }
}

fn print_sizes<O: Sink>(alloc: Global, job: &Job, out: &mut O) -> Result<(), Fault>
    ensures { Prints (sizes_line_of (job_view job.now))
        (O.state out.old) (O.state out.new) (result_err result) }
{
    print_made(sizes_line(alloc, job), out)
}
