// What is run, and what a run leaves to be written.
ghost use Rattle.std.specs.Prelude.{◌≡◌, IsTrue, Some, IfOk, false, length, option_copied};
ghost use Rattle.std.specs.Result.{result_err};
ghost use Rattle.jobs.specs.Job.{job_view};
ghost use Rattle.jobs.specs.Nodes.{AreFromSources, worker_count};
ghost use Rattle.job_file.specs.RequestSizes.{AreFew};
ghost use Rattle.flow_model.specs.Record.{record_view};
ghost use Rattle.flow_replay.specs.Order.{IsInOrder};
ghost use Rattle.fries_words.specs.Asked.{IsSize};
ghost use Rattle.fries_steps.specs.Outcomes.{EndsAfterRun};
ghost use Rattle.payments.specs.World.{world};
ghost use Rattle.fries_steps.specs.SetupFor.{AreSame};
ghost use Rattle.fries_steps.specs.Running.{audit_of, files_written, run_lines as run_lines_of};
ghost use Rattle.fries_steps.specs.Running.{saved_of};
ghost use Rattle.fries_steps.specs.Running.{made_lines as made_lines_of};
ghost use Rattle.fries_steps.specs.Running.{serial_lines as serial_lines_of};
ghost use Rattle.fries_steps.specs.Running.{summary_of as summary_of_done, IsDoneOf, IsRunOf};
ghost use Rattle.serial_order.specs.Serials.{serials};

use crate::answer::Answer;
use crate::host::Host;
use crate::setup::setup_of;
use crate::writing::{FileText, Texts, write_texts};
use flow_engine::run_flow;
use flow_model::{RunRecord, ordered_runs_are_serial, runs_are_consistent};
use flow_replay::plain_run;
use fries_lines::{
    Fault, FileIs, Summary, alert_count, noted, push_refused, row_count, summary_line,
};
use fries_words::EngineSize;
use jobs::Job;
use lane_ring::RingLanes;
use payments::{Shelf, Sink};
use savepoint_file::{save_text, start_of};
use serial_order::{Serial, push_serial_line, serial};
use std::alloc::Global;
use std::sync::Wait;
use std::thread::Threads;
use text_threads::{Audited, Team, Text};
use tuple_trace::{Bytes, FeedRows, Gate, NoMemory, Rows, Word};
use versions::{Refusals, Requests};

/// What was run.
#[derive(Drop)]
pub struct Done {
    pub ran: RunRecord,
    /// How many requests there were.
    pub requests: usize,
    /// Those of them that judging refused.
    pub refused: Refusals,
    /// In ordered mode, after how many of the accepted requests each row comes; else nothing.
    pub serial: Serial,
    /// The row after which the run ended; 0 if there was none.
    pub row: u64,
}

/// Judges the requests, and runs the rows and those that are accepted on one thread, one row after
/// another.
pub fn run_in_order(
    alloc: Global,
    job: Job,
    requests: &Requests,
    rows: &Rows,
) -> Result<Done, NoMemory>
    requires few { AreFew requests.now }
    requires sources { AreFromSources (job_view job) rows.now }
    ensures run { IfOk result (IsRunOf AreSame false (job_view job) requests.now rows.now) }
    ensures order { IfOk result (λ done. IsInOrder (length rows.now) (record_view done.ran)) }
    ensures journals { IfOk result (λ done. length done.ran.journals
        ≡ worker_count done.ran.setup.job.nodes) }
    ensures states { IfOk result (λ done. length done.ran.states
        ≡ worker_count done.ran.setup.job.nodes) }
{
    let setup = setup_of(alloc, job, requests, false)?;
    rows.are_numbered();
    runs_are_consistent(&setup);
    ordered_runs_are_serial(&setup, rows);
    let ran = plain_run(alloc, setup, rows)?;
    done_of(alloc, ran, requests, rows)
}

/// Judges the requests, and runs the rows and those that are accepted by an engine of this size.
pub fn run_on_threads<R, G>(
    host: &Host<'_, R, G>,
    size: EngineSize,
    job: Job,
    requests: &Requests,
    rows: &Rows,
    ordered: bool,
) -> Result<Done, NoMemory>
where
    R: Threads + Wait + Copy + Send + Sync + 'static,
    G: Gate + Sync,
    requires size { IsSize size }
    requires few { AreFew requests.now }
    requires sources { AreFromSources (job_view job) rows.now }
    ensures run { IfOk result (IsRunOf AreSame ordered (job_view job) requests.now rows.now) }
    ensures journals { IfOk result (λ done. length done.ran.journals
        ≡ worker_count done.ran.setup.job.nodes) }
    ensures states { IfOk result (λ done. length done.ran.states
        ≡ worker_count done.ran.setup.job.nodes) }
{
    let alloc = host.alloc;
    let setup = setup_of(alloc, job, requests, ordered)?;
    rows.are_numbered();
    runs_are_consistent(&setup);
    ordered_runs_are_serial(&setup, rows);
    let lanes = RingLanes;
    let engine = host.engine(&lanes, size);
    let fed = FeedRows::all(rows);
    let flown = run_flow(&engine, setup, &fed)?;
    let ran = flown.record(alloc)?;
    done_of(alloc, ran, requests, rows)
}

/// What was run, with the refused requests, and in ordered mode the number of each row. The one
/// error is out of memory.
pub fn done_of(
    alloc: Global,
    ran: RunRecord,
    requests: &Requests,
    rows: &Rows,
) -> Result<Done, NoMemory>
    ensures { IfOk result (IsDoneOf ran requests.now rows.now) }
{
    let Beside { refused, serial } = beside_of(alloc, &ran, rows)?;
    Ok(Done {
        ran,
        requests: requests.len(),
        refused,
        serial,
        row: rows.len() as u64,
    })
}

/// What is kept of a run beside its record.
#[derive(Drop)]
struct Beside {
    refused: Refusals,
    serial: Serial,
}

fn beside_of(alloc: Global, ran: &RunRecord, rows: &Rows) -> Result<Beside, NoMemory>
    ensures refused { IfOk result (λ beside. beside.refused ≡ ran.now.setup.judged.refused) }
    ensures numbers { IfOk result (λ beside. IsTrue ran.now.setup.ordered
        → beside.serial ≡ serials (record_view ran.now) rows.now) }
{
    Ok(Beside {
        refused: Refusals::from_slice(alloc, ran.setup.judged.refused.as_slice())?,
        serial: serial_of(alloc, ran, rows)?,
    })
}

// In ordered mode the number of each row; else nothing.
fn serial_of(alloc: Global, ran: &RunRecord, rows: &Rows) -> Result<Serial, NoMemory>
    ensures { IfOk result (λ found. IsTrue ran.now.setup.ordered
        → found ≡ serials (record_view ran.now) rows.now) }
{
    if ran.setup.ordered {
        serial(alloc, ran, rows)
    } else {
        Ok(Serial::new(alloc))
    }
}

/// The names of the files that a run is written to.
#[derive(Clone, Copy, Debug)]
pub struct Outputs<'a> {
    pub alerts: &'a Word,
    /// That of the audit, if one is to be written.
    pub audit: Option<&'a Word>,
    /// That of the savepoint, if one is to be written after the audit.
    pub save: Option<&'a Word>,
}

/// Stores the files of a run, whose texts the team makes, and then prints its lines. The first
/// fault ends it.
pub fn leave_run<R: Threads + Sync, S: Shelf, O: Sink>(
    team: &Team<'_, R>,
    done: Done,
    names: Outputs<'_>,
    shelf: &mut S,
    out: &mut O,
) -> Answer
    requires journals { length done.ran.journals ≡ worker_count done.ran.setup.job.nodes }
    requires states { length done.ran.states ≡ worker_count done.ran.setup.job.nodes }
    ensures outcome { EndsAfterRun
        (files_written names.entry.alerts.now (option_copied names.entry.audit)
        (option_copied names.entry.save) done) (run_lines_of done)
        (world (S.state shelf.old) (O.state out.old))
        (world (S.state shelf.new) (O.state out.new))
        result.fault }
    ensures refused { result.refused ≡ done.refused }
    ensures ran { result.ran ≡ Some done.ran }
    ensures start { result.start ≡ None }
{
    let fault = write_run(team, &done, names, shelf, out).err();
    Answer::of_run(done, fault)
}

fn write_run<R: Threads + Sync, S: Shelf, O: Sink>(
    team: &Team<'_, R>,
    done: &Done,
    names: Outputs<'_>,
    shelf: &mut S,
    out: &mut O,
) -> Result<(), Fault>
    requires journals { length done.now.ran.journals ≡ worker_count done.now.ran.setup.job.nodes }
    requires states { length done.now.ran.states ≡ worker_count done.now.ran.setup.job.nodes }
    ensures { EndsAfterRun
        (files_written names.entry.alerts.now (option_copied names.entry.audit)
        (option_copied names.entry.save) done.now) (run_lines_of done.now)
        (world (S.state shelf.old) (O.state out.old))
        (world (S.state shelf.new) (O.state out.new))
        (result_err result) }
{
    let texts = texts_of(team, done, names)?;
    write_texts(&texts, shelf, out)
}

fn texts_of<'a, R: Threads + Sync>(
    team: &Team<'_, R>,
    done: &Done,
    names: Outputs<'a>,
) -> Result<Texts<'a>, NoMemory>
    requires journals { length done.now.ran.journals ≡ worker_count done.now.ran.setup.job.nodes }
    requires states { length done.now.ran.states ≡ worker_count done.now.ran.setup.job.nodes }
    ensures files { IfOk result (λ texts. texts.files.items ≡
        files_written names.entry.alerts.now (option_copied names.entry.audit)
        (option_copied names.entry.save) done.now) }
    ensures lines { IfOk result (λ texts. texts.lines ≡ run_lines_of done.now) }
{
    Ok(Texts {
        files: files_in(team, done, names)?,
        lines: run_lines(team.alloc, done)?,
    })
}

// The files with their texts, in the order in which they are stored.
pub(crate) fn files_in<'a, R: Threads + Sync>(
    team: &Team<'_, R>,
    done: &Done,
    names: Outputs<'a>,
) -> Result<Vec<FileText<'a>>, NoMemory>
    requires journals { length done.now.ran.journals ≡ worker_count done.now.ran.setup.job.nodes }
    requires states { length done.now.ran.states ≡ worker_count done.now.ran.setup.job.nodes }
    ensures { IfOk result (λ files. files.items ≡
        files_written names.entry.alerts.now (option_copied names.entry.audit)
        (option_copied names.entry.save) done.now) }
{
    let alloc = team.alloc;
    let alerts = FileText {
        file: FileIs::Alerts,
        name: names.alerts,
        text: team.alerts_text(&done.ran.setup.job, &done.ran.journals)?,
    };
    let mut files = Vec::from_array(alloc, [alerts])?;
    let Some(name) = names.audit else {
        return Ok(files);
    };
    let audit = FileText {
        file: FileIs::Audit,
        name,
        text: audit_in(team, done)?,
    };
    files.push(audit)?;
    let Some(name) = names.save else {
        return Ok(files);
    };
    let save = FileText {
        file: FileIs::Save,
        name,
        text: Text::from_bytes(alloc, save_in(alloc, done)?)?,
    };
    files.push(save)?;
    Ok(files)
}

// Where a run goes on after this one, as a savepoint.
fn save_in(alloc: Global, done: &Done) -> Result<Bytes, NoMemory>
    requires { length done.now.ran.states ≡ worker_count done.now.ran.setup.job.nodes }
    ensures { IfOk result (λ text. text ≡ saved_of done.now) }
{
    let start = start_of(alloc, &done.ran, done.row)?;
    save_text(alloc, &done.ran.setup.job, &start)
}

fn audit_in<R: Threads + Sync>(team: &Team<'_, R>, done: &Done) -> Result<Text, NoMemory>
    requires journals { length done.now.ran.journals ≡ worker_count done.now.ran.setup.job.nodes }
    requires states { length done.now.ran.states ≡ worker_count done.now.ran.setup.job.nodes }
    ensures { IfOk result (λ text. text ≡ audit_of done.now) }
{
    let ran = &done.ran;
    let refused = noted(team.alloc, done.refused.as_slice())?;
    team.audit_text(Audited {
        job: &ran.setup.job,
        refused: refused.as_slice(),
        feeds: &ran.feeds,
        journals: &ran.journals,
        states: &ran.states,
    })
}

/// What is printed of a run: the refused requests, in ordered mode the numbers of rows, and the
/// summary.
pub fn run_lines(alloc: Global, done: &Done) -> Result<Bytes, NoMemory>
    requires { length done.now.ran.journals ≡ worker_count done.now.ran.setup.job.nodes }
    ensures { IfOk result (λ lines. lines ≡ run_lines_of done.now) }
{
    let summary = summary_line(alloc, summary_of(done)?)?;
    let mut lines = Bytes::new(alloc);
    push_refused(alloc, done.refused.as_slice(), &mut lines)?;
    lines.extend_from_slice(serial_lines(alloc, done)?.as_slice())?;
    lines.extend_from_slice(summary.as_bytes())?;
    Ok(lines)
}

/// What is printed of rows that were made: only the summary, in either mode.
pub fn made_lines(alloc: Global, done: &Done) -> Result<Bytes, NoMemory>
    requires { length done.now.ran.journals ≡ worker_count done.now.ran.setup.job.nodes }
    ensures { IfOk result (λ lines. lines ≡ made_lines_of done.now) }
{
    let summary = summary_line(alloc, summary_of(done)?)?;
    Bytes::from_slice(alloc, summary.as_bytes())
}

// The line of an ordered run, and nothing of any other.
fn serial_lines(alloc: Global, done: &Done) -> Result<Bytes, NoMemory>
    ensures { IfOk result (λ lines. lines ≡ serial_lines_of done.now) }
{
    let mut lines = Bytes::new(alloc);
    if !done.ran.setup.ordered {
        return Ok(lines);
    }
    push_serial_line(
        alloc,
        &done.serial,
        done.ran.setup.request_count(),
        &mut lines,
    )?;
    Ok(lines)
}

/// The numbers of a run's summary. The one error is out of memory.
pub fn summary_of(done: &Done) -> Result<Summary, NoMemory>
    requires { length done.now.ran.journals ≡ worker_count done.now.ran.setup.job.nodes }
    ensures { IfOk result (λ summary. summary ≡ summary_of_done done.now) }
{
    let ran = &done.ran;
    Ok(Summary {
        rows: row_count(ran.feeds.as_slice()),
        alerts: alert_count(&ran.setup.job, ran.journals.as_slice())?,
        requests: done.requests,
        refused: done.refused.len(),
    })
}
