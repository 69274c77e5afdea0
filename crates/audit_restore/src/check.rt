ghost use Rattle.std.specs.Prelude.{◌≡◌, ◌<◌, ◌^◌, All, IfErr, IfOk, OnOk, length, map};
ghost use Rattle.std.specs.FinMap.{entries};
ghost use Rattle.jobs.specs.Job.{job_view};
ghost use Rattle.jobs.specs.Nodes.{AreFromSources};
ghost use Rattle.flow_model.specs.Begin.{at_first};
ghost use Rattle.flow_model.specs.Consistent.{IsConsistent};
ghost use Rattle.flow_model.specs.Record.{record_view};
ghost use Rattle.flow_model.specs.Run.{IsRunSince, Ran, ran_as};
ghost use Rattle.flow_model.specs.Setup.{setup_view};
ghost use Rattle.flow_model.specs.Workers.{workers_in};
ghost use Rattle.audit_laws.specs.Delivered.{feed_of};
ghost use Rattle.audit_laws.specs.Faults.{AreTrimmedFinished, IsFaultOfWorkers};
ghost use Rattle.audit_fault.specs.declared.fault.AuditFault.TheVariants.{NoMemory as OutOfMemory};
ghost use Rattle.audit_laws.specs.Fits.{Fits, csv_records};
ghost use Rattle.audit_laws.specs.Verdict.{IsFirstFault};
ghost use Rattle.fries_lines.specs.Lines.{noted as noted_as};
ghost use Rattle.audit_restore.specs.Restored.{AllRestored};

use crate::counts::check_counts;
use crate::in_range::counts_are_in_range;
use crate::restore::{Restored, restore};
use audit_check::{Told, check_text};
use audit_fault::AuditFault;
use audit_journal::check_law;
use audit_laws::{
    checked_journals_are_a_run, runs_fit_their_lines, texts_of_runs_have_no_fault,
    texts_tell_the_run,
};
use flow_model::{RunRecord, Setup, Start, runs_are_consistent};
use fries_lines::noted;
use sink_journal::{Feed, Feeds, Noted};
use std::alloc::Global;
use tuple_trace::Rows;

/// The run of a setup and these rows, from a start on, that a text is the audit of. The rows before
/// those of the start are not fed. A refusal gives the setup up.
///
/// If such a run fits the text, the answer is that run or out of memory.
///
/// # Errors
///
/// The first fault of the text, in the order of the codes, or out of memory.
pub fn check_audit(
    alloc: Global,
    setup: Setup,
    start: &Start,
    rows: &Rows,
    bytes: &[u8],
) -> Result<RunRecord, AuditFault>
    requires sources { AreFromSources (job_view setup.job) rows.now }
    requires states { length start.now.states ≡ length (workers_in (setup_view setup).job) }
    ensures run { IfOk result (λ ran.
        IsRunSince start.now (setup_view setup) rows.now (record_view ran)) }
    ensures consistent { IfOk result (λ ran. start.now ≡ at_first (setup_view setup) →
        IsConsistent rows.now (record_view ran)) }
    ensures fits { IfOk result (λ ran. Fits (map noted_as setup.judged.refused) bytes.now
        (record_view ran)) }
    ensures same { IfOk result (λ ran. ran.setup ≡ setup) }
    ensures fault { IfErr result (IsFirstFault start.now (setup_view setup) setup.job.dag.order
        (map noted_as setup.judged.refused) rows.now (csv_records bytes.now)) }
    ensures only { (run : Ran) → IsRunSince start.now (setup_view setup) rows.now run →
        Fits (map noted_as setup.judged.refused) bytes.now run →
        IfOk result (λ ran. record_view ran ≡ run) }
    ensures found { (run : Ran) → IsRunSince start.now (setup_view setup) rows.now run →
        Fits (map noted_as setup.judged.refused) bytes.now run →
        IfErr result (λ fault. fault ≡ OutOfMemory) }
{
    rows.are_numbered();
    runs_are_consistent(&setup);
    match rebuild(alloc, &setup, start, rows, bytes) {
        Ok((feeds, restored)) => Ok(RunRecord {
            setup,
            feeds,
            journals: restored.journals,
            states: restored.states,
        }),
        Err(fault) => Err(fault),
    }
}

// The feed, the journals and the counts of the run that a text is the audit of.
fn rebuild(
    alloc: Global,
    setup: &Setup,
    start: &Start,
    rows: &Rows,
    bytes: &[u8],
) -> Result<(Feeds, Restored), AuditFault>
    requires sources { AreFromSources (setup_view setup.now).job rows.now }
    requires states { length start.now.states ≡ length (workers_in (setup_view setup.now).job) }
    ensures run { IfOk result (λ both. IsRunSince start.now (setup_view setup.now) rows.now
        (ran_as (setup_view setup.now) both.0 both.1.journals both.1.states)) }
    ensures fits { IfOk result (λ both. Fits (map noted_as setup.now.judged.refused) bytes.now
        (ran_as (setup_view setup.now) both.0 both.1.journals both.1.states)) }
    ensures fault { IfErr result (IsFirstFault start.now (setup_view setup.now)
        setup.now.job.dag.order (map noted_as setup.now.judged.refused) rows.now
        (csv_records bytes.now)) }
    ensures only { (run : Ran) → IsRunSince start.now (setup_view setup.now) rows.now run →
        Fits (map noted_as setup.now.judged.refused) bytes.now run →
        IfOk result (λ both.
        ran_as (setup_view setup.now) both.0 both.1.journals both.1.states ≡ run) }
    ensures found { (run : Ran) → IsRunSince start.now (setup_view setup.now) rows.now run →
        Fits (map noted_as setup.now.judged.refused) bytes.now run →
        IfErr result (λ fault. fault ≡ OutOfMemory) }
{
    checked_journals_are_a_run(setup, rows);
    runs_fit_their_lines(setup);
    texts_of_runs_have_no_fault(setup, rows);
    texts_tell_the_run(setup, rows);
    let refused = noted(alloc, setup.judged.refused.as_slice())?;
    places_are_narrow(refused.as_slice());
    counts_are_in_range(start);
    let (told, feeds) = check_text(alloc, setup, start, refused.as_slice(), rows, bytes)?;
    let restored = restore_all(alloc, setup, start, rows, feeds.as_slice(), &told)?;
    Ok((feeds, restored))
}

// The passes over the workers.
fn restore_all(
    alloc: Global,
    setup: &Setup,
    start: &Start,
    rows: &Rows,
    feeds: &[Feed],
    told: &Told,
) -> Result<Restored, AuditFault>
    requires sources { AreFromSources (setup_view setup.now).job rows.now }
    requires starts { length start.now.states ≡ length (workers_in (setup_view setup.now).job) }
    requires feeds { feeds.now ≡ feed_of start.now (setup_view setup.now) rows.now }
    requires journals { length told.now.journals.items
        ≡ length (workers_in (setup_view setup.now).job) }
    requires states { length told.now.states.items
        ≡ length (workers_in (setup_view setup.now).job) }
    ensures finished { OnOk result (AreTrimmedFinished start.now (setup_view setup.now) rows.now
        told.now.journals.items) }
    ensures restored { IfOk result (λ restored. AllRestored start.now (setup_view setup.now)
        rows.now told.now.journals.items restored.journals restored.states) }
    ensures states { IfOk result (λ restored. told.now.states.items ≡ map entries restored.states) }
    ensures fault { IfErr result (IsFaultOfWorkers start.now (setup_view setup.now)
        setup.now.job.dag.order rows.now told.now.journals.items told.now.states.items) }
{
    let audit = told.journals.as_slice();
    check_law(alloc, setup, start, rows, audit)?;
    let restored = restore(alloc, setup, start, rows, feeds, audit)?;
    check_counts(
        setup.workers(),
        told.states.as_slice(),
        restored.states.as_slice(),
    )?;
    Ok(restored)
}

// Every place of a refused request is in the range of its type.
fn places_are_narrow(refused: &[Noted])
    ensures { All (λ noted. noted.place < 2 ^ 32) refused.now }
{
    for noted in refused {
        let _place = place_of(*noted);
    }
}

fn place_of(noted: Noted) -> u32
    ensures value { result ≡ noted.place }
    ensures narrow { result < 2 ^ 32 }
{
    noted.place
}
