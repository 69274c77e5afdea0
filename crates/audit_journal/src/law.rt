// Whether journals are finished by the law of journals.
ghost use Rattle.std.specs.Prelude.{◌≡◌, ◌↔◌, IfErr, IfOk, IsTrue, OnOk, length};
ghost use Rattle.flow_model.specs.Setup.{setup_view};
ghost use Rattle.flow_model.specs.SetupWorker.{setup_here, who_here};
ghost use Rattle.flow_model.specs.Workers.{workers_in};
ghost use Rattle.audit_laws.specs.Checked.{IsFinishedDraft};
ghost use Rattle.audit_laws.specs.Faults.{AreTrimmedFinished};
ghost use Rattle.audit_journal.specs.Course.{IsFaultOfLaw};

use crate::course::Course;
use audit_fault::AuditFault;
use audit_laws::AuditEntry;
use flow_model::{Setup, SetupWorker, Start};
use std::alloc::Global;
use tuple_trace::{Items, NoMemory, Rows};

/// Whether the trimmed journal of each worker is finished, from a start on.
///
/// # Errors
///
/// The least worker whose journal isn't, or out of memory.
pub fn check_law(
    alloc: Global,
    setup: &Setup,
    start: &Start,
    rows: &Rows,
    audit: &[Items<AuditEntry>],
) -> Result<(), AuditFault>
    requires { length audit.now ≡ length (workers_in (setup_view setup.now).job) }
    ensures ok { OnOk result
        (AreTrimmedFinished start.now (setup_view setup.now) rows.now audit.now) }
    ensures fault { IfErr result (IsFaultOfLaw start.now (setup_view setup.now) rows.now
        audit.now) }
{
    for worker in 0..setup.workers() {
        let journal = audit[worker as usize].as_slice();
        let who = SetupWorker {
            setup,
            number: worker,
        };
        if !is_finished(alloc, start, who, rows, journal)? {
            return Err(AuditFault::Law(worker));
        }
    }
    Ok(())
}

/// Whether the trimmed journal of a worker is finished, from a start on.
pub fn is_finished(
    alloc: Global,
    start: &Start,
    who: SetupWorker<'_>,
    rows: &Rows,
    journal: &[AuditEntry],
) -> Result<bool, NoMemory>
    ensures { IfOk result (λ finished. IsTrue finished
        ↔ IsFinishedDraft start.now (setup_here who.entry) rows.now
        (who_here who.entry) journal.now) }
{
    let count = rows.as_slice().len() as u64;
    let mut course = Course::new(alloc, start, who);
    for entry in journal {
        if !course.admits(start, who, count, entry) {
            return Ok(false);
        }
        course.enter(who, entry)?;
    }
    Ok(course.is_done(who))
}
