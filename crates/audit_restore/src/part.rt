// A checker of the audit of one part of a stream, which tells no counts.
ghost use Rattle.std.specs.Prelude.{◌≡◌, ◌↔◌, [], All, IfErr, IfOk, IsTrue, List, OnOk, length};
ghost use Rattle.jobs.specs.Job.{job_view};
ghost use Rattle.jobs.specs.Nodes.{AreFromSources};
ghost use Rattle.flow_model.specs.Record.{record_view};
ghost use Rattle.flow_model.specs.Run.{IsRunSince, Ran, ran_as};
ghost use Rattle.flow_model.specs.Setup.{setup_view};
ghost use Rattle.flow_model.specs.Workers.{workers_in};
ghost use Rattle.audit_laws.specs.declared.audit.Line.{Line as LineIs};
ghost use Rattle.audit_laws.specs.Delivered.{feed_of};
ghost use Rattle.audit_laws.specs.Faults.{AreTrimmedFinished};
ghost use Rattle.audit_laws.specs.Fits.{Fits, csv_records};
ghost use Rattle.audit_laws.specs.Lines.{feeds_in, refusals_in};
ghost use Rattle.audit_laws.specs.Part.{IsPartFaultOf, uncounted};
ghost use Rattle.audit_laws.specs.Verdict.{AreInShape};
ghost use Rattle.audit_fault.specs.declared.fault.AuditFault.TheVariants.{NoMemory as OutOfMemory};
ghost use Rattle.audit_fault.specs.Noting.{IsNoted};
ghost use Rattle.audit_check.specs.Telling.{Tells};
ghost use Rattle.audit_restore.specs.Restored.{AllRestored};
ghost use Rattle.audit_restore.specs.Untold.{AreUntold, IsFirstTold, IsPartFaultOfWorkers};

use crate::in_range::counts_are_in_range;
use crate::restore::{Restored, restore};
use audit_check::{Counted, Told, check_feed, check_refused, feed_of_rows, read_audit};
use audit_fault::AuditFault;
use audit_journal::check_law;
use audit_laws::{
    checked_journals_are_a_run, parts_fit_their_lines, texts_of_parts_have_no_fault,
    texts_of_parts_tell_the_run,
};
use flow_model::{RunRecord, Setup, Start};
use sink_journal::{Feed, Feeds, Noted};
use std::alloc::Global;
use tuple_trace::{Items, Rows};

/// The run of one part of a stream that a text is the audit of: the run of a setup and these rows,
/// from a start on. The rows before those of the start are not fed. A refusal gives the setup up.
///
/// A stream runs its rows in parts, and writes the audit of each part when it ends. Such an audit
/// tells the requests that were refused since the end of the part before, and no counts: only the
/// last part of a stream tells them, and its audit is one for `check_audit`. So the refused
/// requests are given here, and the counts of the returned run are those of its replay.
///
/// If such a run fits the text, the answer is that run or out of memory.
///
/// # Errors
///
/// The first fault of the text as the audit of a part, in the order of the codes, or out of memory.
/// A count that is told is the fault `State` of its worker.
pub fn check_part(
    alloc: Global,
    setup: Setup,
    start: &Start,
    refused: &[Noted],
    rows: &Rows,
    bytes: &[u8],
) -> Result<RunRecord, AuditFault>
    requires sources { AreFromSources (job_view setup.job) rows.now }
    requires states { length start.now.states ≡ length (workers_in (setup_view setup).job) }
    requires noted { All IsNoted refused.now }
    ensures run { IfOk result (λ ran.
        IsRunSince start.now (setup_view setup) rows.now (record_view ran)) }
    ensures fits { IfOk result (λ ran. Fits refused.now bytes.now (uncounted (record_view ran))) }
    ensures same { IfOk result (λ ran. ran.setup ≡ setup) }
    ensures fault { IfErr result (IsPartFaultOf start.now (setup_view setup) setup.job.dag.order
        refused.now rows.now (csv_records bytes.now)) }
    ensures only { (run : Ran) → IsRunSince start.now (setup_view setup) rows.now run →
        Fits refused.now bytes.now (uncounted run) → IfOk result (λ ran. record_view ran ≡ run) }
    ensures found { (run : Ran) → IsRunSince start.now (setup_view setup) rows.now run →
        Fits refused.now bytes.now (uncounted run) →
        IfErr result (λ fault. fault ≡ OutOfMemory) }
{
    match rebuild_part(alloc, &setup, start, refused, rows, bytes) {
        Ok((feeds, restored)) => Ok(RunRecord {
            setup,
            feeds,
            journals: restored.journals,
            states: restored.states,
        }),
        Err(fault) => Err(fault),
    }
}

// The feed, the journals and the counts of the run that a text is the audit of, as that of a part.
fn rebuild_part(
    alloc: Global,
    setup: &Setup,
    start: &Start,
    refused: &[Noted],
    rows: &Rows,
    bytes: &[u8],
) -> Result<(Feeds, Restored), AuditFault>
    requires sources { AreFromSources (setup_view setup.now).job rows.now }
    requires states { length start.now.states ≡ length (workers_in (setup_view setup.now).job) }
    requires noted { All IsNoted refused.now }
    ensures run { IfOk result (λ both. IsRunSince start.now (setup_view setup.now) rows.now
        (ran_as (setup_view setup.now) both.0 both.1.journals both.1.states)) }
    ensures fits { IfOk result (λ both. Fits refused.now bytes.now (uncounted
        (ran_as (setup_view setup.now) both.0 both.1.journals both.1.states))) }
    ensures fault { IfErr result (IsPartFaultOf start.now (setup_view setup.now)
        setup.now.job.dag.order refused.now rows.now (csv_records bytes.now)) }
    ensures only { (run : Ran) → IsRunSince start.now (setup_view setup.now) rows.now run →
        Fits refused.now bytes.now (uncounted run) → IfOk result (λ both.
        ran_as (setup_view setup.now) both.0 both.1.journals both.1.states ≡ run) }
    ensures found { (run : Ran) → IsRunSince start.now (setup_view setup.now) rows.now run →
        Fits refused.now bytes.now (uncounted run) →
        IfErr result (λ fault. fault ≡ OutOfMemory) }
{
    checked_journals_are_a_run(setup, rows);
    parts_fit_their_lines(setup);
    texts_of_parts_have_no_fault(setup, rows);
    texts_of_parts_tell_the_run(setup, rows);
    counts_are_in_range(start);
    let (told, feeds) = read_part(alloc, setup, start, refused, rows, bytes)?;
    let restored = restore_part(alloc, setup, start, rows, feeds.as_slice(), &told)?;
    Ok((feeds, restored))
}

// The passes of `check_text`. Each is called by itself: its clause speaks of every beginning, so it
// says that the fault isn't one of counts.
fn read_part(
    alloc: Global,
    setup: &Setup,
    start: &Start,
    refused: &[Noted],
    rows: &Rows,
    bytes: &[u8],
) -> Result<(Told, Feeds), AuditFault>
    ensures feeds { IfOk result (λ both.
        both.1 ≡ feed_of start.now (setup_view setup.now) rows.now) }
    ensures lines { IfOk result (λ both. (lines : List LineIs) ×
        AreInShape (setup_view setup.now).job (csv_records bytes.now) lines
        × (refusals_in lines ≡ refused.now)
        × (feeds_in lines ≡ feed_of start.now (setup_view setup.now) rows.now)
        × Tells (length (workers_in (setup_view setup.now).job)) lines both.0) }
    ensures fault { IfErr result
        (IsPartFaultOf start.now (setup_view setup.now) setup.now.job.dag.order refused.now
        rows.now (csv_records bytes.now)) }
{
    let told = read_audit(alloc, setup, bytes)?;
    let feeds = read_feed(alloc, setup, start, refused, rows, bytes)?;
    Ok((told, feeds))
}

// The feed of these rows from this beginning on, if the text tells these refused requests and this
// feed. The records are in shape.
fn read_feed(
    alloc: Global,
    setup: &Setup,
    start: &Start,
    refused: &[Noted],
    rows: &Rows,
    bytes: &[u8],
) -> Result<Feeds, AuditFault>
    requires { (lines : List LineIs) ×
        AreInShape (setup_view setup.now).job (csv_records bytes.now) lines }
    ensures feeds { IfOk result (λ feeds.
        feeds ≡ feed_of start.now (setup_view setup.now) rows.now) }
    ensures lines { OnOk result ((lines : List LineIs) →
        AreInShape (setup_view setup.now).job (csv_records bytes.now) lines →
        (refusals_in lines ≡ refused.now)
        × (feeds_in lines ≡ feed_of start.now (setup_view setup.now) rows.now)) }
    ensures fault { IfErr result
        (IsPartFaultOf start.now (setup_view setup.now) setup.now.job.dag.order refused.now
        rows.now (csv_records bytes.now)) }
{
    check_refused(alloc, setup, refused, bytes)?;
    let feeds = feed_of_rows(alloc, setup, start, rows)?;
    check_feed(alloc, setup, refused, feeds.as_slice(), bytes)?;
    Ok(feeds)
}

// The passes over the workers.
fn restore_part(
    alloc: Global,
    setup: &Setup,
    start: &Start,
    rows: &Rows,
    feeds: &[Feed],
    told: &Told,
) -> Result<Restored, AuditFault>
    requires sources { AreFromSources (setup_view setup.now).job rows.now }
    requires starts { length start.now.states ≡ length (workers_in (setup_view setup.now).job) }
    requires feeds { feeds.now ≡ feed_of start.now (setup_view setup.now) rows.now }
    requires journals { length told.now.journals.items
        ≡ length (workers_in (setup_view setup.now).job) }
    requires states { length told.now.states.items
        ≡ length (workers_in (setup_view setup.now).job) }
    ensures finished { OnOk result (AreTrimmedFinished start.now (setup_view setup.now) rows.now
        told.now.journals.items) }
    ensures restored { IfOk result (λ restored. AllRestored start.now (setup_view setup.now)
        rows.now told.now.journals.items restored.journals restored.states) }
    ensures untold { OnOk result (AreUntold told.now.states.items
        (length (workers_in (setup_view setup.now).job))) }
    ensures fault { IfErr result (IsPartFaultOfWorkers start.now (setup_view setup.now)
        setup.now.job.dag.order rows.now told.now.journals.items told.now.states.items) }
{
    let audit = told.journals.as_slice();
    check_law(alloc, setup, start, rows, audit)?;
    let restored = restore(alloc, setup, start, rows, feeds, audit)?;
    check_uncounted(setup.workers(), told.states.as_slice())?;
    Ok(restored)
}

// Whether no count is told of a worker. The fault is the least worker of which one is told.
fn check_uncounted(workers: u32, told: &[Items<Counted>]) -> Result<(), AuditFault>
    requires { length told.now ≡ workers }
    ensures ok { OnOk result (AreUntold told.now workers) }
    ensures fault { IfErr result (IsFirstTold told.now) }
{
    for worker in 0..workers {
        let place = worker as usize;
        if !is_untold(told[place].as_slice()) {
            return Err(AuditFault::State(worker));
        }
    }
    Ok(())
}

fn is_untold(counts: &[Counted]) -> bool
    ensures { IsTrue result ↔ (counts.now ≡ []) }
{
    counts.is_empty()
}
