// Laws of the audits of parts. The audit of a part tells no counts. Each function proves its clause
// from the definitions, and does nothing. They speak of parts from any beginning.
ghost use Rattle.std.specs.Prelude.{◌≡◌, ◌≢◌, ◌↔◌, ◌∷◌, ℕ, All, List};
ghost use Rattle.sink_journal.specs.Audit.{audit_header};
ghost use Rattle.sink_journal.specs.declared.audit.Noted.{Noted as NotedIs};
ghost use Rattle.tuple_trace.specs.declared.row.Row.{Row as RowIs};
ghost use Rattle.flow_model.specs.Begin.{Begin};
ghost use Rattle.flow_model.specs.Run.{IsRunSince, Ran};
ghost use Rattle.flow_model.specs.Setup.{setup_view};
ghost use Rattle.audit_fault.specs.declared.fault.AuditFault.{AuditFault as FaultIs};
ghost use Rattle.audit_fault.specs.declared.fault.AuditFault.TheVariants as TheFault;
ghost use Rattle.audit_fault.specs.Noting.{IsNoted};
ghost use Rattle.audit_laws.specs.Fits.{Fits, kept_lines, csv_records};
ghost use Rattle.audit_laws.specs.Part.{IsPartFaultOf, uncounted};
ghost use Rattle.audit_laws.specs.Range.{BeginsInRange};
ghost use Rattle.audit_laws.specs.Verdict.{fields_of};

use crate::laws::lines_of_runs_have_form;
use flow_model::Setup;
use tuple_trace::Rows;

/// A run fits a text without its counts exactly if the text's records are the lines of what the
/// audit of a part keeps of the run.
pub fn parts_fit_their_lines(setup: &Setup)
    ensures { (begin : Begin) (rows : List RowIs) (refused : List NotedIs) (text : List ℕ)
        (ran : Ran) → IsRunSince begin (setup_view setup.now) rows ran →
        csv_records text ≡ audit_header
        ∷ fields_of (setup_view setup.now).job (kept_lines refused (uncounted ran))
        ↔ Fits refused text (uncounted ran) }
{}

/// A text that a run fits without its counts has no fault as the audit of a part.
pub fn texts_of_parts_have_no_fault(setup: &Setup, rows: &Rows)
    ensures { (begin : Begin) (refused : List NotedIs) (text : List ℕ) (ran : Ran)
        (fault : FaultIs) → BeginsInRange begin → All IsNoted refused →
        IsRunSince begin (setup_view setup.now) rows.now ran →
        Fits refused text (uncounted ran) → fault ≢ TheFault.NoMemory →
        ¬ IsPartFaultOf begin (setup_view setup.now) setup.now.job.dag.order refused rows.now
        (csv_records text) fault }
{
    let _numbered = rows.as_slice();
    lines_of_runs_have_form(setup, rows);
}

/// No text has two faults as the audit of a part. So the contract of a checker of parts fixes its
/// answer, out of memory aside.
pub fn parts_have_one_fault(setup: &Setup)
    ensures { (begin : Begin) (rows : List RowIs) (refused : List NotedIs) (text : List ℕ)
        (f g : FaultIs) → f ≢ TheFault.NoMemory → g ≢ TheFault.NoMemory →
        IsPartFaultOf begin (setup_view setup.now) setup.now.job.dag.order refused rows
        (csv_records text) f →
        IsPartFaultOf begin (setup_view setup.now) setup.now.job.dag.order refused rows
        (csv_records text) g → f ≡ g }
{}

/// The audit of a part determines the run. Two runs from one beginning that fit one text without
/// their counts are equal: their counts follow from their journals.
pub fn texts_of_parts_tell_the_run(setup: &Setup, rows: &Rows)
    ensures { (begin : Begin) (refused : List NotedIs) (text : List ℕ) (a b : Ran) →
        BeginsInRange begin → All IsNoted refused →
        IsRunSince begin (setup_view setup.now) rows.now a →
        IsRunSince begin (setup_view setup.now) rows.now b →
        Fits refused text (uncounted a) → Fits refused text (uncounted b) → a ≡ b }
{
    lines_of_runs_have_form(setup, rows);
}
