// How far the parts of a stream were looked at.
ghost use Rattle.std.specs.Prelude.{◌≡◌, ◌≤◌, IfErr, IfOk, length, take};
ghost use Rattle.flow_model.specs.Begin.{at_first};
ghost use Rattle.flow_model.specs.Run.{Ran};
ghost use Rattle.flow_model.specs.Setup.{setup_view};
ghost use Rattle.audit_fault.specs.declared.fault.AuditFault.TheVariants.{NoMemory as OutOfMemory};
ghost use Rattle.stream_replay.specs.InParts.{IsLastReplay, IsPartReplay};
ghost use Rattle.stream_replay.specs.InParts.{due_count as due_count_of};
ghost use Rattle.stream_replay.specs.InParts.{row_in, start_after, told_up_to, turned_in};
ghost use Rattle.stream_replay.specs.inner.Progress.{IsCounted, IsOfWhole, IsProgress, body_of};
ghost use Rattle.stream_replay.specs.inner.Progress.{given_of, start_in};

use crate::setups::with_first;
use crate::whole::Whole;
use audit_fault::AuditFault;
use audit_parts::AuditPart;
use audit_restore::{check_audit, check_part};
use flow_model::{RunRecord, Setup, Start};
use std::alloc::Global;
use tuple_trace::{NoMemory, Row, Rows};
use versions::{Refusals, Request};

/// The parts of a stream that were found to be runs one after another, and where the next begins.
#[derive(Drop)]
pub(crate) struct Progress {
    pub setup: Setup,
    pub start: Start,
    /// The rows that the parts fed.
    pub fed: Rows,
    /// How many refused requests the parts told.
    pub told: usize,
}

/// How far a part goes, by what its records count.
#[derive(Clone, Copy)]
struct Extent {
    row: u64,
    turned: u64,
    told: usize,
}

impl Progress {
    /// No part.
    pub fn begin(alloc: Global, setup: Setup, whole: &Whole<'_>) -> Result<Progress, NoMemory>
        requires { IsOfWhole whole.now (setup_view setup) }
        ensures progress { IfOk result (IsProgress whole.now) }
        ensures setup { IfOk result (λ progress. progress.setup ≡ setup) }
        ensures start { IfOk result (λ progress. progress.start ≡ at_first (setup_view setup)) }
        ensures told { IfOk result (λ progress. progress.told ≡ 0) }
    {
        let start = Start::first(alloc, &setup)?;
        Ok(Progress {
            setup,
            start,
            fed: Rows::new(alloc),
            told: 0,
        })
    }

    /// How far a part goes that begins here.
    fn extent(&self, whole: &Whole<'_>, part: &AuditPart) -> Extent
        requires progress { IsProgress whole.now self.now }
        requires counted { IsCounted part.now }
        ensures row { result.row ≡ row_in (given_of whole.now (setup_view self.now.setup))
            (start_in self.now) (body_of part.now) }
        ensures turned { result.turned ≡ turned_in (given_of whole.now (setup_view self.now.setup))
            (start_in self.now) (body_of part.now) }
        ensures told { result.told ≡ told_up_to (given_of whole.now (setup_view self.now.setup))
            (start_in self.now) (body_of part.now) }
        ensures within { result.row ≤ length whole.now.rows.now }
        ensures there { result.turned ≤ length whole.now.requests }
        ensures noted { result.told ≤ length whole.now.noted.items }
        ensures later { self.now.start.row ≤ result.row }
        ensures more { self.now.told ≤ result.told }
    {
        let rows = whole.rows.len() as u64;
        let row = self.start.row.saturating_add(part.fed).min(rows);
        let pending = &whole.requests.as_slice()[self.start.turned as usize..];
        let issued = part.issued.min(due_count(pending, row));
        let refused = part.refused.min((whole.noted.len() - self.told) as u64);
        Extent {
            row,
            turned: self.start.turned + issued,
            told: self.told + refused as usize,
        }
    }

    /// The progress after a part that isn't the last. The error says that the part is no run from
    /// here, or that memory ran out.
    pub fn pass(
        self,
        alloc: Global,
        whole: &Whole<'_>,
        part: &AuditPart,
    ) -> Result<Progress, AuditFault>
        requires progress { IsProgress whole.now self }
        requires counted { IsCounted part.now }
        ensures progress { IfOk result (IsProgress whole.now) }
        ensures given { IfOk result (λ next. given_of whole.now (setup_view next.setup)
            ≡ given_of whole.now (setup_view self.setup)) }
        ensures job { IfOk result (λ next. next.setup.job ≡ self.setup.job) }
        ensures part { IfOk result (λ next. (left : Ran)
            × IsPartReplay (given_of whole.now (setup_view self.setup)) (start_in self)
            (body_of part.now) left
            × (start_in next ≡ start_after (given_of whole.now (setup_view self.setup))
            (start_in self) (body_of part.now) left)) }
        ensures only { (left : Ran)
            → IsPartReplay (given_of whole.now (setup_view self.setup)) (start_in self)
            (body_of part.now) left
            → IfOk result (λ next. start_in next
            ≡ start_after (given_of whole.now (setup_view self.setup)) (start_in self)
            (body_of part.now) left) }
        ensures found { (left : Ran)
            → IsPartReplay (given_of whole.now (setup_view self.setup)) (start_in self)
            (body_of part.now) left → IfErr result (λ fault. fault ≡ OutOfMemory) }
    {
        let extent = self.extent(whole, part);
        let Progress {
            setup,
            start,
            fed,
            told,
        } = self;
        let none = Refusals::new(alloc);
        let setup = with_first(alloc, setup, whole, extent.turned as usize, none)?;
        let fed = fed_up_to(fed, whole.rows, extent.row)?;
        let refused = &whole.noted[told..extent.told];
        let ran = check_part(alloc, setup, &start, refused, &fed, part.text.as_slice())?;
        let RunRecord { setup, states, .. } = ran;
        let start = Start {
            row: extent.row,
            turned: extent.turned,
            states,
        };
        Ok(Progress {
            setup,
            start,
            fed,
            told: extent.told,
        })
    }

    /// The setup with all requests, once the last part is a run from here. The error says that it
    /// is none, or that memory ran out.
    pub fn end(
        self,
        alloc: Global,
        whole: &Whole<'_>,
        part: &AuditPart,
    ) -> Result<Setup, AuditFault>
        requires progress { IsProgress whole.now self }
        requires counted { IsCounted part.now }
        ensures view { IfOk result (λ setup.
            setup_view setup ≡ (given_of whole.now (setup_view self.setup)).setup) }
        ensures job { IfOk result (λ setup. setup.job ≡ self.setup.job) }
        ensures refused { IfOk result (λ setup. setup.judged.refused ≡ whole.now.refused) }
        ensures part { IfOk result (λ setup. (left : Ran)
            × IsLastReplay (given_of whole.now (setup_view self.setup)) (start_in self)
            (body_of part.now) left) }
        ensures found { (left : Ran)
            → IsLastReplay (given_of whole.now (setup_view self.setup)) (start_in self)
            (body_of part.now) left → IfErr result (λ fault. fault ≡ OutOfMemory) }
    {
        let Progress {
            setup,
            start,
            fed: _fed,
            told,
        } = self;
        let refused = Refusals::from_slice(alloc, whole.refused.as_slice())?;
        let later = Refusals::from_slice(alloc, &whole.refused.as_slice()[told..])?;
        let setup = with_first(alloc, setup, whole, whole.requests.len(), later)?;
        let ran = check_audit(alloc, setup, &start, whole.rows, part.text.as_slice())?;
        let mut setup = ran.setup;
        setup.judged.refused = refused;
        Ok(setup)
    }
}

// How many of these requests wait for no later row.
fn due_count(requests: &[Request], row: u64) -> u64
    ensures due { result ≡ due_count_of row requests.now }
    ensures within { result ≤ length requests.now }
{
    requests
        .iter()
        .filter(|request| request.after <= row)
        .count() as u64
}

// The first rows up to this one; those before were fed. The one error is out of memory.
fn fed_up_to(fed: Rows, rows: &Rows, row: u64) -> Result<Rows, NoMemory>
    requires fed { fed ≡ take (length fed) rows.now }
    requires later { length fed ≤ row }
    requires within { row ≤ length rows.now }
    ensures { IfOk result (λ fed. fed ≡ take row rows.now) }
{
    let mut fed = fed;
    let all = rows.as_slice();
    for place in fed.len()..row as usize {
        fed.push(copy_of(&all[place])?)?;
    }
    Ok(fed)
}

// An equal row. The one error is out of memory.
fn copy_of(row: &Row) -> Result<Row, NoMemory>
    ensures { IfOk result (λ copy. copy ≡ row.now) }
{
    Ok(row.clone()?)
}
