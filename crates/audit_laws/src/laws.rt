// Laws of audits. Each function proves its clauses from the definitions, and does nothing. They
// speak of runs from any beginning.
ghost use Rattle.std.specs.Prelude.{◌≡◌, ◌≢◌, ◌↔◌, ◌∷◌, ℕ, All, List, Some, map, slice_get};
ghost use Rattle.std.specs.FinMap.{entries};
ghost use Rattle.keyed_state.specs.Counts.{Counts};
ghost use Rattle.sink_journal.specs.Audit.{audit, audit_header};
ghost use Rattle.sink_journal.specs.declared.audit.Noted.{Noted as NotedIs};
ghost use Rattle.sink_journal.specs.declared.journal.Entry.{Entry as EntryIs};
ghost use Rattle.tuple_trace.specs.declared.row.Row.{Row as RowIs};
ghost use Rattle.flow_model.specs.Begin.{Begin};
ghost use Rattle.flow_model.specs.SetupView.{Worker};
ghost use Rattle.flow_model.specs.Run.{IsRunSince, Ran, ran_as};
ghost use Rattle.flow_model.specs.Setup.{setup_view};
ghost use Rattle.flow_model.specs.Workers.{workers_in};
ghost use Rattle.audit_laws.specs.declared.audit.AuditEntry.{AuditEntry as KeptIs};
ghost use Rattle.audit_fault.specs.declared.fault.AuditFault.{AuditFault as FaultIs};
ghost use Rattle.audit_fault.specs.declared.fault.AuditFault.TheVariants as TheFault;
ghost use Rattle.audit_laws.specs.Delivered.{feed_of};
ghost use Rattle.audit_laws.specs.Checked.{IsChecked, IsFinishedDraft, ShowsDelivered};
ghost use Rattle.audit_laws.specs.Faults.{IsFaultOfWorkers, Listed};
ghost use Rattle.audit_laws.specs.Fits.{Fits, HasForm, kept_lines, csv_records};
ghost use Rattle.audit_fault.specs.Noting.{IsNoted};
ghost use Rattle.audit_laws.specs.Range.{BeginsInRange};
ghost use Rattle.audit_laws.specs.Restoring.{LanesAgree, restored_by};
ghost use Rattle.audit_laws.specs.Trimmed.{trimmed};
ghost use Rattle.audit_laws.specs.Verdict.{IsFirstFault, fields_of};

use flow_model::Setup;
use tuple_trace::Rows;

/// Trimmed journals determine the run. Two runs of one setup, one beginning and the same rows are
/// equal if their journals are equal once trimmed.
pub fn journals_tell_the_run(setup: &Setup)
    ensures { (begin : Begin) (rows : List RowIs) (a b : Ran) →
        IsRunSince begin (setup_view setup.now) rows a →
        IsRunSince begin (setup_view setup.now) rows b →
        map trimmed a.journals ≡ map trimmed b.journals → a ≡ b }
{}

/// What passes the checks of an audit is a run, and every run passes them. So nothing is left
/// unchecked, and nothing more is asked.
pub fn checked_journals_are_a_run(setup: &Setup, rows: &Rows)
    ensures sound { (begin : Begin) (audit : List (List KeptIs)) (journals : List (List EntryIs))
        (states : List Counts) →
        IsChecked begin (setup_view setup.now) rows.now audit journals states →
        IsRunSince begin (setup_view setup.now) rows.now (ran_as (setup_view setup.now)
        (feed_of begin (setup_view setup.now) rows.now) journals states) }
    ensures complete { (begin : Begin) (ran : Ran) →
        IsRunSince begin (setup_view setup.now) rows.now ran →
        IsChecked begin (setup_view setup.now) rows.now
        (map trimmed ran.journals) ran.journals ran.states }
{
    let _numbered = rows.as_slice();
}

/// The audit of a run has no fault of its law, of a lane or of a state.
pub fn audits_of_runs_have_no_fault(setup: &Setup, rows: &Rows)
    ensures { (begin : Begin) (ran : Ran) (fault : FaultIs) →
        IsRunSince begin (setup_view setup.now) rows.now ran → fault ≢ TheFault.NoMemory →
        ¬ IsFaultOfWorkers begin (setup_view setup.now) setup.now.job.dag.order
        rows.now (map trimmed ran.journals) (map entries ran.states) fault }
{
    let _numbered = rows.as_slice();
}

/// If the law holds of a trimmed journal and each lane into its worker brings the journal's entries
/// of the lane, the journal is restored: each entry takes the next item of its lane.
pub fn journals_are_restored(setup: &Setup)
    ensures { (begin : Begin) (rows : List RowIs) (journals : List (List EntryIs)) (w : ℕ)
        (who : Worker) (journal : List KeptIs) →
        slice_get (workers_in (setup_view setup.now).job) w ≡ Some who →
        IsFinishedDraft begin (setup_view setup.now) rows who journal →
        LanesAgree begin (setup_view setup.now) rows journals w journal →
        (trimmed (restored_by begin (setup_view setup.now) rows journals journal) ≡ journal)
        × ShowsDelivered begin (setup_view setup.now) rows journals w
        (restored_by begin (setup_view setup.now) rows journals journal) }
{}

/// No audit has two faults of its law, a lane or a state. So the first code that holds is the only
/// one that holds.
pub fn audits_have_one_fault(setup: &Setup)
    ensures { (begin : Begin) (rows : List RowIs) (audit : List (List KeptIs))
        (states : List Listed) (f g : FaultIs) → f ≢ TheFault.NoMemory → g ≢ TheFault.NoMemory →
        IsFaultOfWorkers begin (setup_view setup.now) setup.now.job.dag.order rows audit states f →
        IsFaultOfWorkers begin (setup_view setup.now) setup.now.job.dag.order rows audit states g →
        f ≡ g }
{}

/// A run fits a text exactly if the text's records are the lines of what an audit keeps of the run.
pub fn runs_fit_their_lines(setup: &Setup)
    ensures { (begin : Begin) (rows : List RowIs) (refused : List NotedIs) (text : List ℕ)
        (ran : Ran) → IsRunSince begin (setup_view setup.now) rows ran →
        csv_records text ≡ audit_header
        ∷ fields_of (setup_view setup.now).job (kept_lines refused ran)
        ↔ Fits refused text ran }
{}

/// The text that is written of a run fits the run. So what is written is read again as it was.
pub fn written_audits_fit()
    ensures { (refused : List NotedIs) (ran : Ran) → Fits refused
        (audit ran.setup.job refused ran.feeds ran.journals ran.states) ran }
{}

/// The lines of a run have their form, if each refused request is noted by its place and its code,
/// and the counts at the beginning are in range. So every row, request, birth and count of a run is
/// in the range of its type.
pub fn lines_of_runs_have_form(setup: &Setup, rows: &Rows)
    ensures { (begin : Begin) (refused : List NotedIs) (ran : Ran) → BeginsInRange begin →
        All IsNoted refused → IsRunSince begin (setup_view setup.now) rows.now ran →
        HasForm refused ran }
{
    let _numbered = rows.as_slice();
    let _request_count = setup.request_count();
    let _plan_count = setup.plans.len();
}

/// A text that a run fits has no fault.
pub fn texts_of_runs_have_no_fault(setup: &Setup, rows: &Rows)
    ensures { (begin : Begin) (refused : List NotedIs) (text : List ℕ) (ran : Ran)
        (fault : FaultIs) → BeginsInRange begin → All IsNoted refused →
        IsRunSince begin (setup_view setup.now) rows.now ran → Fits refused text ran →
        fault ≢ TheFault.NoMemory → ¬ IsFirstFault begin (setup_view setup.now)
        setup.now.job.dag.order refused rows.now (csv_records text) fault }
{
    let _numbered = rows.as_slice();
    lines_of_runs_have_form(setup, rows);
}

/// No text has two faults. So the contract of a checker fixes its answer, out of memory aside.
pub fn texts_have_one_fault(setup: &Setup)
    ensures { (begin : Begin) (rows : List RowIs) (refused : List NotedIs) (text : List ℕ)
        (f g : FaultIs) → f ≢ TheFault.NoMemory → g ≢ TheFault.NoMemory →
        IsFirstFault begin (setup_view setup.now) setup.now.job.dag.order refused rows
        (csv_records text) f →
        IsFirstFault begin (setup_view setup.now) setup.now.job.dag.order refused rows
        (csv_records text) g → f ≡ g }
{}

/// A text determines the run: two runs from one beginning that fit one text are equal.
pub fn texts_tell_the_run(setup: &Setup, rows: &Rows)
    ensures { (begin : Begin) (refused : List NotedIs) (text : List ℕ) (a b : Ran) →
        BeginsInRange begin → All IsNoted refused →
        IsRunSince begin (setup_view setup.now) rows.now a →
        IsRunSince begin (setup_view setup.now) rows.now b →
        Fits refused text a → Fits refused text b → a ≡ b }
{
    lines_of_runs_have_form(setup, rows);
}
