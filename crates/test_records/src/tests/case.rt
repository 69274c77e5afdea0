//! Audits of the plain executor, and what the checker says of them.
ghost use Rattle.std.specs.Prelude.{◌≡◌, length};
ghost use Rattle.jobs.specs.Job.{job_view};
ghost use Rattle.jobs.specs.Nodes.{worker_count as count_of};
ghost use Rattle.flow_model.specs.Workers.{workers_in};

use crate::tests::check_text;
use audit_fault::AuditFault;
use audit_restore::check_audit;
use flow_model::{RunRecord, Start};
use fries_lines::noted;
use jobs::worker_count;
use sink_journal::audit_text;
use std::alloc::Global;
use std::process::Abort;
use test_runs::{Case, Inputs};
use tuple_trace::Bytes;

/// What the checker says of a text.
pub enum Said {
    /// It answers a run, of which this is the audit.
    Run(Bytes),
    /// It answers a fault.
    Fault(AuditFault),
    /// The case has no run, or memory ran out.
    Nothing,
}

/// The audit of what the plain executor leaves.
pub fn audit_of(alloc: Global, case: Inputs<'_>) -> Option<Bytes> {
    let ran = case.run(alloc)?;
    written(alloc, &ran)
}

// The audit of a record, if it has a journal and counts for each worker.
fn written(alloc: Global, ran: &RunRecord) -> Option<Bytes> {
    let workers = worker_count(&ran.setup.job) as usize;
    if ran.journals.len() != workers {
        return None;
    }
    if ran.states.len() != workers {
        return None;
    }
    text_of(alloc, ran)
}

fn text_of(alloc: Global, ran: &RunRecord) -> Option<Bytes>
    requires journals { length ran.now.journals ≡ count_of ran.now.setup.job.nodes }
    requires states { length ran.now.states ≡ count_of ran.now.setup.job.nodes }
{
    let Ok(refused) = noted(alloc, ran.setup.judged.refused.as_slice()) else {
        return None;
    };
    let text = audit_text(
        alloc,
        &ran.setup.job,
        refused.as_slice(),
        &ran.feeds,
        &ran.journals,
        &ran.states,
    );
    match text {
        Ok(text) => Some(text),
        Err(_) => None,
    }
}

/// What the checker says of a text.
pub fn said_of(alloc: Global, case: Inputs<'_>, text: &[u8]) -> Said {
    match case.read(alloc) {
        Some(case) => said_by(alloc, checked(alloc, case, text)),
        None => Said::Nothing,
    }
}

/// What the checker says of a text, of the part of a run that begins at a start.
pub fn said_from(alloc: Global, case: Case, start: &Start, text: &[u8]) -> Said
    requires { length start.now.states ≡ length (workers_in (job_view case.setup.value.job)) }
{
    said_by(alloc, checked_from(alloc, case, start, text))
}

fn checked(alloc: Global, case: Case, text: &[u8]) -> Result<Box<RunRecord>, AuditFault> {
    let start = Start::first(alloc, &case.setup)?;
    checked_from(alloc, case, &start, text)
}

fn checked_from(
    alloc: Global,
    case: Case,
    start: &Start,
    text: &[u8],
) -> Result<Box<RunRecord>, AuditFault>
    requires { length start.now.states ≡ length (workers_in (job_view case.setup.value.job)) }
{
    let Case { setup, rows } = case;
    match check_audit(alloc, Box::into_inner(setup), start, &rows, text) {
        Ok(ran) => Box::new(alloc, ran).ok().ok_or(AuditFault::NoMemory),
        Err(fault) => Err(fault),
    }
}

fn said_by(alloc: Global, checked: Result<Box<RunRecord>, AuditFault>) -> Said {
    match checked {
        Ok(ran) => said_run(alloc, &ran),
        Err(AuditFault::NoMemory) => Said::Nothing,
        Err(fault) => Said::Fault(fault),
    }
}

fn said_run(alloc: Global, ran: &RunRecord) -> Said {
    match written(alloc, ran) {
        Some(text) => Said::Run(text),
        None => Said::Nothing,
    }
}

/// The fault that the checker answers. `None` if it answers none.
pub fn fault_in(said: Said) -> Option<AuditFault> {
    match said {
        Said::Fault(fault) => Some(fault),
        Said::Run(_) | Said::Nothing => None,
    }
}

/// The fault that the checker answers of a text. `None` if it answers none.
pub fn fault_of(alloc: Global, case: Inputs<'_>, text: &str) -> Option<AuditFault> {
    fault_in(said_of(alloc, case, text.as_bytes()))
}

/// Asserts that the checker answers the run of this text.
pub fn check_run(rt: &impl Abort, said: Said, text: &str) {
    match said {
        Said::Run(again) => check_text(rt, again.as_slice(), text),
        Said::Fault(fault) => assert_eq!(rt; Some(fault), None),
        Said::Nothing => check_text(rt, b"nothing", text),
    }
}

/// Whether the checker answers the run of this text.
pub fn is_verified(alloc: Global, case: Inputs<'_>, text: &[u8]) -> bool {
    match said_of(alloc, case, text) {
        Said::Run(again) => again.as_slice() == text,
        Said::Fault(_) | Said::Nothing => false,
    }
}
