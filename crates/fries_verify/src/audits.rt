// The run whose audit a file holds: of `run`, of `live`, of `stream`, or of `resume`.
ghost use Rattle.std.specs.Prelude.{◌≡◌, ◌≤◌, Bool, IfErr, IfOk, OnOk, length};
ghost use Rattle.audit_laws.specs.Fits.{csv_records};
ghost use Rattle.jobs.specs.Job.{job_view};
ghost use Rattle.jobs.specs.JobView.{JobView};
ghost use Rattle.jobs.specs.Nodes.{AreFromSources, worker_count};
ghost use Rattle.flow_model.specs.Record.{record_view};
ghost use Rattle.flow_model.specs.Run.{Ran};
ghost use Rattle.flow_model.specs.Setup.{setup_view};
ghost use Rattle.flow_model.specs.Workers.{workers_in};
ghost use Rattle.fries_steps.specs.Live.{AreReleased};
ghost use Rattle.fries_steps.specs.Parts.{IsRunFromStart};
ghost use Rattle.fries_steps.specs.Running.{IsRunOf};
ghost use Rattle.fries_steps.specs.SetupFor.{AreSame, IsSetupFor};
ghost use Rattle.fries_verify.specs.Audits.{AreShown, AreStreamsShown, HaveOneVerdict};
ghost use Rattle.fries_verify.specs.Audits.{IsAuditedRun, IsFaultOn, IsNoAudit, IsToldBy};
ghost use Rattle.fries_verify.specs.Audits.{later_subject, live_subject, shown_subject};
ghost use Rattle.audit_stream.specs.Together.{together};
ghost use Rattle.fries_verify.specs.Audits.{Subject, stream_subject, subject_of};
ghost use Rattle.fries_verify.specs.StreamSetup.{IsStreamRunOf, IsStreamSetupFor};

use crate::in_parts::in_parts;
use crate::laws::{
    later_texts_have_one_verdict, live_runs_are_shown, live_texts_have_one_verdict,
    stream_texts_have_one_verdict, streams_are_shown, texts_have_one_verdict,
};
use crate::waits::with_waits;
use audit_fault::AuditFault;
use audit_live::{runs_that_wait_as_shown_are_live, shown_waits, shown_waits_fit};
use audit_restore::check_audit;
use audit_stream::put_together;
use flow_laws::later_rows_are_whole;
use flow_model::{Setup, Start, ordered_runs_are_serial, runs_are_consistent};
use fries_lines::{Fault, FileIs};
use fries_steps::{Done, done_of, read_file};
use jobs::Job;
use payments::Shelf;
use std::alloc::Global;
use tuple_trace::{Bytes, Rows, Word};
use versions::Requests;

/// What an audit is looked at with, beside a setup: the requests and the rows of the run, and the
/// name of the audit's file.
#[derive(Clone, Copy)]
pub struct Given<'a> {
    pub requests: &'a Requests,
    pub rows: &'a Rows,
    pub audit: &'a Word,
}

/// The run of `run` whose audit a file holds: that of a setup and these rows.
///
/// # Errors
///
/// The file couldn't be read, is too long, or holds the audit of no such run; or out of memory. The
/// setup is then lost.
pub fn audited_run<S: Shelf>(
    alloc: Global,
    setup: Setup,
    given: Given<'_>,
    shelf: &mut S,
) -> Result<Done, Fault>
    requires sources { AreFromSources (job_view setup.job) given.rows.now }
    ensures audited { IfOk result (IsAuditedRun (S.state shelf.old).files given.entry.audit.now
        (subject_of setup given.entry.rows.now)) }
    ensures run { IfOk result (λ done. (ordered : Bool) (job : JobView) →
        IsSetupFor AreSame ordered job given.entry.requests.now setup →
        IsRunOf AreSame ordered job given.entry.requests.now given.entry.rows.now done) }
    ensures same { IfOk result (λ done. done.ran.setup ≡ setup) }
    ensures journals { IfOk result (λ done. length done.ran.journals
        ≡ worker_count done.ran.setup.job.nodes) }
    ensures verdict { HaveOneVerdict (subject_of setup given.entry.rows.now) }
    ensures kept { OnOk result (S.state shelf.new ≡ S.state shelf.old) }
    ensures files { (S.state shelf.new).files ≡ (S.state shelf.old).files }
    ensures draft { (S.state shelf.new).draft ≡ (S.state shelf.old).draft }
    ensures cause { IfErr result (IsNoAudit (S.state shelf.old).files given.entry.audit.now
        (subject_of setup given.entry.rows.now) (S.state shelf.old).faults
        (S.state shelf.new).faults) }
{
    given.rows.are_numbered();
    runs_are_consistent(&setup);
    ordered_runs_are_serial(&setup, given.rows);
    texts_have_one_verdict(&setup, given.rows);
    let start = Start::first(alloc, &setup)?;
    let bytes = read_file(alloc, FileIs::Audit, given.audit, shelf)?;
    let ran = check_audit(alloc, setup, &start, given.rows, bytes.as_slice())?;
    Ok(done_of(alloc, ran, given.requests, given.rows)?)
}

/// The run of `live` whose audit a file holds: the requests wait for the rows that it shows.
///
/// Whatever rows the requests of a live run waited for, its audit shows them.
///
/// # Errors
///
/// As [`audited_run`].
pub fn audited_live_run<S: Shelf>(
    alloc: Global,
    setup: Setup,
    given: Given<'_>,
    shelf: &mut S,
) -> Result<Done, Fault>
    requires sources { AreFromSources (job_view setup.job) given.rows.now }
    ensures audited { IfOk result (IsAuditedRun (S.state shelf.old).files given.entry.audit.now
        (live_subject setup given.entry.rows.now)) }
    ensures run { IfOk result (λ done. (ordered : Bool) (job : JobView) →
        IsSetupFor AreSame ordered job given.entry.requests.now setup →
        IsRunOf (AreReleased (length given.entry.rows.now) done.ran.feeds) ordered job
        given.entry.requests.now given.entry.rows.now done) }
    ensures journals { IfOk result (λ done. length done.ran.journals
        ≡ worker_count done.ran.setup.job.nodes) }
    ensures shown { AreShown setup given.entry.rows.now }
    ensures verdict { HaveOneVerdict (live_subject setup given.entry.rows.now) }
    ensures kept { OnOk result (S.state shelf.new ≡ S.state shelf.old) }
    ensures files { (S.state shelf.new).files ≡ (S.state shelf.old).files }
    ensures draft { (S.state shelf.new).draft ≡ (S.state shelf.old).draft }
    ensures cause { IfErr result (IsNoAudit (S.state shelf.old).files given.entry.audit.now
        (live_subject setup given.entry.rows.now) (S.state shelf.old).faults
        (S.state shelf.new).faults) }
{
    live_runs_are_shown(&setup, given.rows);
    live_texts_have_one_verdict(&setup, given.rows);
    let bytes = read_file(alloc, FileIs::Audit, given.audit, shelf)?;
    Ok(shown_run(alloc, setup, given, bytes.as_slice())?)
}

/// The run of `stream` whose audit a file holds, from the beginning of the stream to its end. Its
/// parts are put together to one run, whose requests wait for the rows that it shows. Then each
/// part is looked at by itself: it is a run from where the part before it has ended.
///
/// # Errors
///
/// As [`audited_run`].
pub fn audited_stream<S: Shelf>(
    alloc: Global,
    setup: Setup,
    given: Given<'_>,
    shelf: &mut S,
) -> Result<Done, Fault>
    requires sources { AreFromSources (job_view setup.job) given.rows.now }
    ensures audited { IfOk result (IsAuditedRun (S.state shelf.old).files given.entry.audit.now
        (stream_subject setup given.entry.rows.now)) }
    ensures run { IfOk result (λ done. (ordered : Bool) (job : JobView) →
        IsStreamSetupFor AreSame ordered job given.entry.requests.now setup →
        IsStreamRunOf (AreReleased (length given.entry.rows.now) done.ran.feeds) ordered job
        given.entry.requests.now given.entry.rows.now done) }
    ensures journals { IfOk result (λ done. length done.ran.journals
        ≡ worker_count done.ran.setup.job.nodes) }
    ensures shown { AreStreamsShown setup given.entry.rows.now }
    ensures verdict { HaveOneVerdict (stream_subject setup given.entry.rows.now) }
    ensures kept { OnOk result (S.state shelf.new ≡ S.state shelf.old) }
    ensures files { (S.state shelf.new).files ≡ (S.state shelf.old).files }
    ensures draft { (S.state shelf.new).draft ≡ (S.state shelf.old).draft }
    ensures cause { IfErr result (IsNoAudit (S.state shelf.old).files given.entry.audit.now
        (stream_subject setup given.entry.rows.now) (S.state shelf.old).faults
        (S.state shelf.new).faults) }
{
    streams_are_shown(&setup, given.rows);
    stream_texts_have_one_verdict(&setup, given.rows);
    let bytes = read_file(alloc, FileIs::Audit, given.audit, shelf)?;
    let text = together_in(alloc, &setup.job, bytes.as_slice())?;
    let done = shown_run(alloc, setup, given, text.as_slice())?;
    Ok(in_parts(alloc, done, given.rows, bytes.as_slice())?)
}

// The audit of a stream that a text holds, as that of one run.
fn together_in(alloc: Global, job: &Job, text: &[u8]) -> Result<Bytes, AuditFault>
    ensures text { IfOk result (λ one.
        csv_records one ≡ together (job_view job.now) (csv_records text.now)) }
    ensures fault { (subject : Subject) →
        subject.records ≡ together (job_view job.now) (csv_records text.now) →
        IfErr result (IsFaultOn subject) }
{
    match put_together(alloc, job, text)? {
        Some(one) => Ok(one),
        None => Err(AuditFault::Shape(0)),
    }
}

// The run whose audit a text is, if each request waits for the rows that the text shows.
fn shown_run(alloc: Global, setup: Setup, given: Given<'_>, text: &[u8]) -> Result<Done, AuditFault>
    requires sources { AreFromSources (job_view setup.job) given.rows.now }
    ensures audited { IfOk result (λ done. IsToldBy (shown_subject setup given.entry.rows.now
        (csv_records text.now)) (record_view done.ran)) }
    ensures only { (ran : Ran) →
        IsToldBy (shown_subject setup given.entry.rows.now (csv_records text.now)) ran →
        IfOk result (λ done. record_view done.ran ≡ ran) }
    ensures refused { IfOk result (λ done.
        done.ran.setup.judged.refused ≡ setup.judged.refused) }
    ensures run { IfOk result (λ done. (ordered : Bool) (job : JobView) →
        IsSetupFor AreSame ordered job given.entry.requests.now setup →
        IsRunOf (AreReleased (length given.entry.rows.now) done.ran.feeds) ordered job
        given.entry.requests.now given.entry.rows.now done) }
    ensures stream { IfOk result (λ done. (ordered : Bool) (job : JobView) →
        IsStreamSetupFor AreSame ordered job given.entry.requests.now setup →
        IsStreamRunOf (AreReleased (length given.entry.rows.now) done.ran.feeds) ordered job
        given.entry.requests.now given.entry.rows.now done) }
    ensures journals { IfOk result (λ done. length done.ran.journals
        ≡ worker_count done.ran.setup.job.nodes) }
    ensures fault { IfErr result
        (IsFaultOn (shown_subject setup given.entry.rows.now (csv_records text.now))) }
{
    given.rows.are_numbered();
    let accepted = setup.judged.accepted.as_slice();
    let waits = shown_waits(alloc, accepted, given.rows, text)?;
    shown_waits_fit();
    let setup = with_waits(setup, waits.as_slice());
    runs_that_wait_as_shown_are_live();
    runs_are_consistent(&setup);
    ordered_runs_are_serial(&setup, given.rows);
    let start = Start::first(alloc, &setup)?;
    let ran = check_audit(alloc, setup, &start, given.rows, text)?;
    Ok(done_of(alloc, ran, given.requests, given.rows)?)
}

/// The run of `resume` whose audit a file holds: it went on from this start.
///
/// # Errors
///
/// As [`audited_run`].
pub fn audited_later_run<S: Shelf>(
    alloc: Global,
    setup: Setup,
    start: &Start,
    given: Given<'_>,
    shelf: &mut S,
) -> Result<Done, Fault>
    requires sources { AreFromSources (job_view setup.job) given.rows.now }
    requires turned { start.now.turned ≤ length (setup_view setup).requests }
    requires states { length start.now.states ≡ length (workers_in (setup_view setup).job) }
    ensures audited { IfOk result (IsAuditedRun (S.state shelf.old).files given.entry.audit.now
        (later_subject start.now setup given.entry.rows.now)) }
    ensures run { IfOk result (IsRunFromStart start.now setup given.entry.requests.now
        given.entry.rows.now) }
    ensures journals { IfOk result (λ done. length done.ran.journals
        ≡ worker_count done.ran.setup.job.nodes) }
    ensures verdict { HaveOneVerdict (later_subject start.now setup given.entry.rows.now) }
    ensures kept { OnOk result (S.state shelf.new ≡ S.state shelf.old) }
    ensures files { (S.state shelf.new).files ≡ (S.state shelf.old).files }
    ensures draft { (S.state shelf.new).draft ≡ (S.state shelf.old).draft }
    ensures cause { IfErr result (IsNoAudit (S.state shelf.old).files given.entry.audit.now
        (later_subject start.now setup given.entry.rows.now) (S.state shelf.old).faults
        (S.state shelf.new).faults) }
{
    later_rows_are_whole(&setup, given.rows);
    later_texts_have_one_verdict(&setup, start, given.rows);
    let bytes = read_file(alloc, FileIs::Audit, given.audit, shelf)?;
    let ran = check_audit(alloc, setup, start, given.rows, bytes.as_slice())?;
    Ok(done_of(alloc, ran, given.requests, given.rows)?)
}
