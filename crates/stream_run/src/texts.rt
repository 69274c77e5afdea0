// What is written of a part.
ghost use Rattle.std.specs.Prelude.{◌≡◌, IfOk, length};
ghost use Rattle.jobs.specs.Nodes.{worker_count};
ghost use Rattle.flow_model.specs.Record.{record_view};
ghost use Rattle.stream_run.specs.Files.{alerts_text, audit_text};
ghost use Rattle.stream_run.specs.Growing.{without_counts};

use flow_model::{RunRecord, Start};
use sink_journal::{Noted, alerts_part_text, audit_part_text};
use std::alloc::Global;
use tuple_trace::{Bytes, NoMemory};

/// The texts by which the files of a stream grow.
#[derive(Drop)]
pub struct PartTexts {
    pub alerts: Bytes,
    pub audit: Bytes,
}

impl PartTexts {
    /// The texts of a part, before whose end these requests were refused. The audit has no counts,
    /// which a savepoint has. The one error is out of memory.
    pub fn of_part(alloc: Global, ran: &RunRecord, refused: &[Noted]) -> Result<PartTexts, NoMemory>
        requires { length ran.now.journals ≡ worker_count ran.now.setup.job.nodes }
        ensures alerts { IfOk result (λ texts.
            texts.alerts ≡ alerts_text (record_view ran.now)) }
        ensures audit { IfOk result (λ texts.
            texts.audit ≡ audit_text refused.now (without_counts (record_view ran.now))) }
    {
        let none = Start::first(alloc, &ran.setup)?;
        let job = &ran.setup.job;
        Ok(PartTexts {
            alerts: alerts_part_text(alloc, job, &ran.journals)?,
            audit: audit_part_text(alloc, job, refused, &ran.feeds, &ran.journals, &none.states)?,
        })
    }

    /// The texts of the last part of a stream, whose audit has the counts at the end. The one error
    /// is out of memory.
    pub fn of_last(alloc: Global, ran: &RunRecord, refused: &[Noted]) -> Result<PartTexts, NoMemory>
        requires journals { length ran.now.journals ≡ worker_count ran.now.setup.job.nodes }
        requires states { length ran.now.states ≡ worker_count ran.now.setup.job.nodes }
        ensures alerts { IfOk result (λ texts.
            texts.alerts ≡ alerts_text (record_view ran.now)) }
        ensures audit { IfOk result (λ texts.
            texts.audit ≡ audit_text refused.now (record_view ran.now)) }
    {
        let job = &ran.setup.job;
        Ok(PartTexts {
            alerts: alerts_part_text(alloc, job, &ran.journals)?,
            audit: audit_part_text(alloc, job, refused, &ran.feeds, &ran.journals, &ran.states)?,
        })
    }
}
