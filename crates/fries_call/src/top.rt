ghost use Rattle.std.specs.Prelude.{◌≡◌, IfNone, IfSome};
ghost use Rattle.std.specs.Result.{result_err};
ghost use Rattle.fries_call.specs.Answers.{outcome_as_view, Answered, Ends, Follows};
ghost use Rattle.fries_call.specs.Answers.{IsNothingAsked};
ghost use Rattle.fries_call.specs.Answers.{LeavesAsks};
ghost use Rattle.fries_call.specs.Prints.{PrintsText};
ghost use Rattle.fries_words.specs.Asked.{IsSized, asked_by};
ghost use Rattle.fries_words.specs.Words.{asked_of};
ghost use Rattle.fries_steps.specs.Effects.{Prints, PrintsReport};
ghost use Rattle.fries_steps.specs.Outcomes.{StopsFor};
ghost use Rattle.fries_lines.specs.FaultWords.{fault_line as fault_line_of};
ghost use Rattle.fries_lines.specs.Faults.{status_for};
ghost use Rattle.payments.specs.World.{world};

use crate::check::check_command;
use crate::first::first_command;
use crate::live::live_command;
use crate::make::make_command;
use crate::outcome::Outcome;
use crate::plan::plan_command;
use crate::resume::resume_command;
use crate::run::run_command;
use crate::save::save_command;
use crate::verify::verify_command;
use fries_lines::{Fault, FileIs, fault_line};
use fries_steps::{Answer, Host, print, print_made};
use fries_words::{Command, WordsFault, command_of, help_text, version_text};
use job_file::{faulty_is_no_job, files_have_one_fault};
use live_control::Asks;
use payments::{Shelf, Sink};
use std::alloc::Global;
use std::sync::Wait;
use std::thread::Threads;
use tuple_trace::{Gate, Word};
use versions::Refusals;

/// Does what the words ask for, and answers what it came to.
///
/// The words are those after the program's name. Files are reached by the shelf alone, and what is
/// printed goes to `out`. A fault ends the call: nothing is done after it but to print its line,
/// and once `out` has refused not even that. The statuses are those of [`Fault::status`]. `run` and
/// `make` start as many threads as their words ask for, and their workers call the gate. `live`
/// reads releases from `asks`, and no other command reads from it.
pub fn fries<R, S, O, G, Q>(
    host: &Host<'_, R, G>,
    words: &[Word],
    shelf: &mut S,
    out: &mut O,
    asks: &mut Q,
) -> Outcome
where
    R: Threads + Wait + Copy + Send + Sync + 'static,
    S: Shelf,
    O: Sink,
    G: Gate + Sync,
    Q: Asks,
    ensures usage { IfNone (asked_of words.now) (Answered (StopsFor IsNothingAsked)
        (world (S.state shelf.old) (O.state out.old))
        (world (S.state shelf.new) (O.state out.new))
        (outcome_as_view result)) }
    ensures answers { IfSome (asked_of words.now) (λ asked.
        Answered (Ends asked (Q.state asks.old) (Q.state asks.new))
        (world (S.state shelf.old) (O.state out.old))
        (world (S.state shelf.new) (O.state out.new))
        (outcome_as_view result)) }
    ensures file { IfSome (asked_of words.now) (λ asked. Follows asked
        (Q.state asks.old) (Q.state asks.new)
        (world (S.state shelf.old) (O.state out.old))
        (world (S.state shelf.new) (O.state out.new))
        result.fault) }
    ensures asks { IfSome (asked_of words.now) (λ asked. LeavesAsks asked (Q.state asks.old)
        (Q.state asks.new)) }
    ensures unasked { IfNone (asked_of words.now) (Q.state asks.new ≡ Q.state asks.old) }
    ensures status { result.status ≡ status_for result.fault result.refused }
{
    faulty_is_no_job();
    files_have_one_fault();
    let answer = answer_words(host, words, shelf, out, asks);
    report(host.alloc, answer.fault, out);
    let status = status_of(&answer);
    let Answer {
        fault,
        refused,
        ran,
        start,
    } = answer;
    Outcome {
        status,
        fault,
        refused,
        ran,
        start,
    }
}

// Does what the words ask for, and prints no fault.
fn answer_words<R, S, O, G, Q>(
    host: &Host<'_, R, G>,
    words: &[Word],
    shelf: &mut S,
    out: &mut O,
    asks: &mut Q,
) -> Answer
where
    R: Threads + Wait + Copy + Send + Sync + 'static,
    S: Shelf,
    O: Sink,
    G: Gate + Sync,
    Q: Asks,
    ensures usage { IfNone (asked_of words.now) (StopsFor IsNothingAsked
        (world (S.state shelf.old) (O.state out.old))
        (world (S.state shelf.new) (O.state out.new))
        result) }
    ensures ends { IfSome (asked_of words.now) (λ asked. Ends asked
        (Q.state asks.old) (Q.state asks.new)
        (world (S.state shelf.old) (O.state out.old))
        (world (S.state shelf.new) (O.state out.new))
        result) }
    ensures asks { IfSome (asked_of words.now) (λ asked. LeavesAsks asked (Q.state asks.old)
        (Q.state asks.new)) }
    ensures unasked { IfNone (asked_of words.now) (Q.state asks.new ≡ Q.state asks.old) }
{
    let alloc = host.alloc;
    match command_of(alloc, words) {
        Ok(command) => answer_command(host, command, shelf, out, asks),
        Err(WordsFault::Usage) => Answer::stopped(alloc, Fault::Usage),
        Err(WordsFault::NoMemory) => Answer::stopped(alloc, Fault::NoMemory),
    }
}

fn answer_command<R, S, O, G, Q>(
    host: &Host<'_, R, G>,
    command: Command,
    shelf: &mut S,
    out: &mut O,
    asks: &mut Q,
) -> Answer
where
    R: Threads + Wait + Copy + Send + Sync + 'static,
    S: Shelf,
    O: Sink,
    G: Gate + Sync,
    Q: Asks,
    requires { IsSized command }
    ensures ends { Ends (asked_by command) (Q.state asks.old) (Q.state asks.new)
        (world (S.state shelf.old) (O.state out.old))
        (world (S.state shelf.new) (O.state out.new))
        result }
    ensures asks { LeavesAsks (asked_by command) (Q.state asks.old) (Q.state asks.new) }
{
    let alloc = host.alloc;
    match command {
        Command::First(first) => first_command(host, &first, shelf, out),
        Command::Check(job) => check_command(alloc, &job, shelf, out),
        Command::Plan(files) => plan_command(alloc, &files, shelf, out),
        Command::Run(files) => run_command(host, &files, shelf, out),
        Command::Make(make) => make_command(host, &make, shelf, out),
        Command::Save(files) => save_command(host, &files, shelf, out),
        Command::Resume(files) => resume_command(host, &files, shelf, out),
        Command::Live(files) => live_command(host, &files, shelf, out, asks),
        Command::Verify(files) => verify_command(host, &files, shelf, out),
        Command::Help(topic) => text_command(alloc, help_text(topic), shelf, out),
        Command::Version => text_command(alloc, version_text(), shelf, out),
    }
}

fn text_command<S: Shelf, O: Sink>(alloc: Global, text: &str, shelf: &mut S, out: &mut O) -> Answer
    ensures { PrintsText text.now
        (world (S.state shelf.old) (O.state out.old))
        (world (S.state shelf.new) (O.state out.new))
        result }
{
    Answer {
        fault: print(out, text.as_bytes()).err(),
        refused: Refusals::new(alloc),
        ran: None,
        start: None,
    }
}

fn status_of(answer: &Answer) -> u8
    ensures { result ≡ status_for answer.now.fault answer.now.refused }
{
    match answer.fault {
        Some(fault) => fault.status(),
        None if answer.refused.is_empty() => 0,
        None => 8,
    }
}

// Prints the line of a fault, unless it is the output that failed. What printing it comes to
// changes no answer.
#[tactic(auto, using(fries_steps::proofs::PrintLemmas::reports))]
fn report<O: Sink>(alloc: Global, fault: Option<Fault>, out: &mut O)
    ensures { PrintsReport fault (O.state out.old) (O.state out.new) }
{
    match fault {
        None | Some(Fault::Write(FileIs::Out)) => {}
        Some(fault) => {
            let _ = print_fault(alloc, fault, out);
        }
    }
}

fn print_fault<O: Sink>(alloc: Global, fault: Fault, out: &mut O) -> Result<(), Fault>
    ensures { Prints (fault_line_of fault) (O.state out.old) (O.state out.new) (result_err result) }
{
    print_made(fault_line(alloc, fault), out)
}
