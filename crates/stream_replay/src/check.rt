ghost use Rattle.std.specs.Prelude.{◌≡◌, ◌+◌, ◌++◌, ◌∷◌, [], IfErr, IfOk, List, OnOk, Some};
ghost use Rattle.std.specs.Prelude.{length};
ghost use Rattle.jobs.specs.Job.{job_view};
ghost use Rattle.jobs.specs.Nodes.{AreFromSources};
ghost use Rattle.flow_model.specs.Setup.{setup_view};
ghost use Rattle.audit_laws.specs.Fits.{csv_records};
ghost use Rattle.audit_parts.specs.Cut.{parts_of};
ghost use Rattle.stream_replay.specs.InParts.{AreRunInParts, Given, Records, given_in_parts};
ghost use Rattle.stream_replay.specs.Loose.{IsLooseIn};
ghost use Rattle.stream_replay.specs.declared.fault.PartFault.TheVariants.{NoMemory as OutOfMemory};
ghost use Rattle.stream_replay.specs.inner.Progress.{HasPassed, IsCounted, IsLooseAmong};
ghost use Rattle.stream_replay.specs.inner.Progress.{IsLooseFor, IsProgress, body_of, fault_of};
ghost use Rattle.stream_replay.specs.inner.Progress.{given_of};
ghost use Rattle.audit_parts.specs.Reading.{parts_left};

use crate::fault::PartFault;
use crate::progress::Progress;
use crate::whole::Whole;
use audit_fault::AuditFault;
use audit_parts::{AuditPart, AuditParts};
use flow_model::Setup;
use std::alloc::Global;
use tuple_trace::Rows;

// More parts than any text has.
const MOST_PARTS: u64 = u64::MAX;

/// Whether the parts of a stream, whose audit a text is, are runs one after another, and together
/// of all these rows. The setup is returned, with a copy of its requests.
///
/// Each request waits for the row for which it waits in the setup. A part goes as far as its
/// records count. The rows are copied, part by part, and a part's counts are copied from those of
/// the part before, so a stream of many parts and keys takes long.
///
/// # Errors
///
/// The first part that is no run from where the one before it has ended, or out of memory. Both
/// give up the setup.
pub fn check_parts(
    alloc: Global,
    setup: Setup,
    rows: &Rows,
    bytes: &[u8],
) -> Result<Setup, PartFault>
    requires { AreFromSources (job_view setup.job) rows.now }
    ensures view { IfOk result (λ back. setup_view back ≡ setup_view setup) }
    ensures job { IfOk result (λ back. back.job ≡ setup.job) }
    ensures refused { IfOk result (λ back. back.judged.refused ≡ setup.judged.refused) }
    ensures parts { IfOk result (λ back. (earlier : List Records) (last : Records)
        → parts_of (csv_records bytes.now) ≡ Some (earlier ++ last ∷ [])
        → AreRunInParts (given_in_parts setup rows.now) earlier last) }
    ensures loose { IfErr result (IsLooseIn (given_in_parts setup rows.now)
        (csv_records bytes.now)) }
    ensures found { (earlier : List Records) (last : Records)
        → parts_of (csv_records bytes.now) ≡ Some (earlier ++ last ∷ [])
        → AreRunInParts (given_in_parts setup rows.now) earlier last
        → IfErr result (λ fault. fault ≡ OutOfMemory) }
{
    match AuditParts::of(alloc, bytes)? {
        Some(parts) => check_all(alloc, setup, rows, parts),
        None => Ok(setup),
    }
}

// Looks at all parts, none of which was read.
fn check_all(
    alloc: Global,
    setup: Setup,
    rows: &Rows,
    parts: AuditParts<'_>,
) -> Result<Setup, PartFault>
    requires { AreFromSources (job_view setup.job) rows.now }
    ensures view { IfOk result (λ back. setup_view back ≡ setup_view setup) }
    ensures job { IfOk result (λ back. back.job ≡ setup.job) }
    ensures refused { IfOk result (λ back. back.judged.refused ≡ setup.judged.refused) }
    ensures loose { IfErr result (IsLooseAmong (given_in_parts setup rows.now)
        (parts_left parts.entry)) }
    ensures parts { IfOk result (λ back. (earlier : List Records) (last : Records)
        → parts_left parts.entry ≡ earlier ++ last ∷ []
        → AreRunInParts (given_in_parts setup rows.now) earlier last) }
{
    let mut parts = parts;
    match parts.next_part()? {
        Some(first) => check_from(alloc, setup, rows, parts, first),
        None => Ok(setup),
    }
}

// Looks at all parts, of which the first was read.
fn check_from(
    alloc: Global,
    setup: Setup,
    rows: &Rows,
    parts: AuditParts<'_>,
    first: AuditPart,
) -> Result<Setup, PartFault>
    requires sources { AreFromSources (job_view setup.job) rows.now }
    requires counted { IsCounted first }
    ensures view { IfOk result (λ back. setup_view back ≡ setup_view setup) }
    ensures job { IfOk result (λ back. back.job ≡ setup.job) }
    ensures refused { IfOk result (λ back. back.judged.refused ≡ setup.judged.refused) }
    ensures loose { IfErr result (IsLooseAmong (given_in_parts setup rows.now)
        (body_of first ∷ parts_left parts.entry)) }
    ensures parts { IfOk result (λ back. (earlier : List Records) (last : Records)
        → body_of first ∷ parts_left parts.entry ≡ earlier ++ last ∷ []
        → AreRunInParts (given_in_parts setup rows.now) earlier last) }
{
    let whole = Whole::of(alloc, &setup, rows)?;
    let progress = Progress::begin(alloc, setup, &whole)?;
    pass_all(alloc, &whole, progress, parts, first)
}

// The same from the progress before the first part.
fn pass_all(
    alloc: Global,
    whole: &Whole<'_>,
    progress: Progress,
    parts: AuditParts<'_>,
    first: AuditPart,
) -> Result<Setup, PartFault>
    requires progress { HasPassed whole.now (given_of whole.now (setup_view progress.setup)) []
        progress }
    requires counted { IsCounted first }
    ensures view { IfOk result (λ back.
        setup_view back ≡ (given_of whole.now (setup_view progress.setup)).setup) }
    ensures job { IfOk result (λ back. back.job ≡ progress.setup.job) }
    ensures refused { IfOk result (λ back. back.judged.refused ≡ whole.now.refused) }
    ensures parts { IfOk result (λ back. (earlier : List Records) (last : Records)
        → body_of first ∷ parts_left parts.entry ≡ earlier ++ last ∷ []
        → AreRunInParts (given_of whole.now (setup_view progress.setup)) earlier last) }
    ensures loose { IfErr result (IsLooseAmong (given_of whole.now (setup_view progress.setup))
        (body_of first ∷ parts_left parts.entry)) }
{
    let mut progress = progress;
    let mut parts = parts;
    let mut part = first;
    'parts: for number in 1..MOST_PARTS {
        let Some(next) = parts.next_part()? else {
            return end_at(alloc, whole, progress, &part, number);
        };
        progress = go_on(alloc, whole, progress, &part, number)?;
        part = next;
    }
    // Not reached: a text of so many parts has no place in memory.
    Err(PartFault::NoMemory)
}

// The progress after the part with this number, which isn't the last.
fn go_on(
    alloc: Global,
    whole: &Whole<'_>,
    progress: Progress,
    part: &AuditPart,
    number: u64,
) -> Result<Progress, PartFault>
    requires progress { IsProgress whole.now progress }
    requires counted { IsCounted part.now }
    ensures passed { (given : Given) (parts : List Records)
        → HasPassed whole.now given parts progress
        → IfOk result (HasPassed whole.now given (parts ++ body_of part.now ∷ [])) }
    ensures job { IfOk result (λ next. next.setup.job ≡ progress.setup.job) }
    ensures loose { (given : Given) (parts later : List Records) (last : Records)
        → HasPassed whole.now given parts progress → number ≡ length parts + 1
        → IfErr result (IsLooseFor given (parts ++ body_of part.now ∷ later) last) }
{
    match progress.pass(alloc, whole, part) {
        Ok(next) => Ok(next),
        Err(fault) => Err(fault_at(fault, number)),
    }
}

// The setup with all requests, once the part with this number, which is the last, is a run.
fn end_at(
    alloc: Global,
    whole: &Whole<'_>,
    progress: Progress,
    part: &AuditPart,
    number: u64,
) -> Result<Setup, PartFault>
    requires progress { IsProgress whole.now progress }
    requires counted { IsCounted part.now }
    ensures view { IfOk result (λ back.
        setup_view back ≡ (given_of whole.now (setup_view progress.setup)).setup) }
    ensures job { IfOk result (λ back. back.job ≡ progress.setup.job) }
    ensures refused { IfOk result (λ back. back.judged.refused ≡ whole.now.refused) }
    ensures parts { (given : Given) (parts : List Records)
        → HasPassed whole.now given parts progress
        → OnOk result (AreRunInParts given parts (body_of part.now)) }
    ensures loose { (given : Given) (parts : List Records)
        → HasPassed whole.now given parts progress → number ≡ length parts + 1
        → IfErr result (IsLooseFor given parts (body_of part.now)) }
{
    match progress.end(alloc, whole, part) {
        Ok(setup) => Ok(setup),
        Err(fault) => Err(fault_at(fault, number)),
    }
}

// The fault of the part with this number, which is no run, if memory was found.
fn fault_at(fault: AuditFault, number: u64) -> PartFault
    ensures { result ≡ fault_of number fault }
{
    match fault {
        AuditFault::NoMemory => PartFault::NoMemory,
        _ => PartFault::Loose(number),
    }
}
