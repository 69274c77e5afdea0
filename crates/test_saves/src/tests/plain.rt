//! What the plain executor leaves.
use crate::tests::Input;
use flow_model::RunRecord;
use jobs::worker_count;
use sink_journal::{alerts_text, audit_text};
use std::alloc::Global;
use test_runs::Inputs;
use tuple_trace::{Bytes, NoMemory};

/// The texts of a record.
#[derive(Drop)]
pub struct Texts {
    pub alerts: Bytes,
    /// Without the refused requests.
    pub audit: Bytes,
}

/// The texts of a record. It is an error if it hasn't a journal and counts for each worker.
pub fn texts_of(alloc: Global, ran: &RunRecord) -> Result<Texts, NoMemory> {
    let job = &ran.setup.job;
    let count = worker_count(job);
    if ran.journals.len() as u64 != count || ran.states.len() as u64 != count {
        return Err(NoMemory);
    }
    Ok(Texts {
        alerts: alerts_text(alloc, job, &ran.journals)?,
        audit: audit_text(alloc, job, &[], &ran.feeds, &ran.journals, &ran.states)?,
    })
}

/// The texts of the plain executor. It is an error if a reader refuses a text.
pub fn plain_texts(alloc: Global, input: Input<'_>) -> Result<Texts, NoMemory> {
    let ran = plainly(alloc, input)?;
    texts_of(alloc, &ran)
}

/// The texts of a call's files, for the plain executor.
pub fn inputs_of(input: Input<'_>) -> Inputs<'_> {
    Inputs {
        job: input.job,
        requests: input.requests,
        payments: input.payments,
        ordered: false,
    }
}

fn plainly(alloc: Global, input: Input<'_>) -> Result<Box<RunRecord>, NoMemory> {
    inputs_of(input).run(alloc).ok_or(NoMemory)
}
