// The third pass: whether the feeder's steps in an audit are those of the rows.
ghost use Rattle.std.specs.Prelude.{◌≡◌, ◌≢◌, ◌<◌, ◌∷◌, ◌↔◌, ℕ, IfErr, IfNone, IfOk, IfSome};
ghost use Rattle.std.specs.Prelude.{◌+◌, ◌^◌, IsTrue, List, OnOk, Some, length, slice_get};
ghost use Rattle.csv.specs.Records.{fields_of};
ghost use Rattle.sink_journal.specs.Audit.{feed_fields};
ghost use Rattle.sink_journal.specs.declared.journal.Feed.{Feed as FeedIs};
ghost use Rattle.tuple_trace.specs.declared.row.Row.{Row as RowIs};
ghost use Rattle.flow_model.specs.Begin.{Begin};
ghost use Rattle.flow_model.specs.Setup.{setup_view};
ghost use Rattle.audit_laws.specs.Delivered.{feed_of};
ghost use Rattle.audit_laws.specs.declared.audit.Line.{Line as LineIs};
ghost use Rattle.audit_laws.specs.Fits.{csv_records};
ghost use Rattle.audit_laws.specs.Lines.{IsStep, feeds_in, refusals_in};
ghost use Rattle.audit_laws.specs.Verdict.{AreInShape, IsFirstFault};

use crate::feeds::step_in;
use crate::records::six_of;
use audit_fault::AuditFault;
use csv::ByteRecord;
use flow_model::Setup;
use payments::TextRecords;
use sink_journal::{Feed, Noted};
use std::alloc::Global;
use tuple_trace::NoMemory;

/// Whether the feeder's steps in a text are `wanted`, the feed of some rows. The records are in
/// shape, and the refused requests are these.
///
/// # Errors
///
/// The first record that differs, or out of memory.
pub fn check_feed(
    alloc: Global,
    setup: &Setup,
    refused: &[Noted],
    wanted: &[Feed],
    bytes: &[u8],
) -> Result<(), AuditFault>
    requires { (lines : List LineIs) ×
        AreInShape (setup_view setup.now).job (csv_records bytes.now) lines
        × (refusals_in lines ≡ refused.now) }
    ensures ok { OnOk result ((lines : List LineIs) →
        AreInShape (setup_view setup.now).job (csv_records bytes.now) lines →
        refusals_in lines ≡ refused.now → feeds_in lines ≡ wanted.now) }
    ensures fault { (begin : Begin) (rows : List RowIs) →
        wanted.now ≡ feed_of begin (setup_view setup.now) rows → IfErr result
        (IsFirstFault begin (setup_view setup.now) setup.now.job.dag.order refused.now rows
        (csv_records bytes.now)) }
{
    let mut records = TextRecords::of(alloc, bytes);
    let mut cells = ByteRecord::new(alloc);
    check_records(setup, refused, wanted, &mut records, &mut cells)
}

// Whether the feeder's steps in these records are `wanted`. The header and the refused requests are
// the first records, and `cells` holds each record in turn.
fn check_records(
    setup: &Setup,
    refused: &[Noted],
    wanted: &[Feed],
    records: &mut TextRecords<'_>,
    cells: &mut ByteRecord,
) -> Result<(), AuditFault>
    requires { (lines : List LineIs) ×
        AreInShape (setup_view setup.now).job records.old lines
        × (refusals_in lines ≡ refused.now) }
    ensures ok { OnOk result ((lines : List LineIs) →
        AreInShape (setup_view setup.now).job records.old lines →
        refusals_in lines ≡ refused.now → feeds_in lines ≡ wanted.now) }
    ensures fault { (begin : Begin) (rows : List RowIs) →
        wanted.now ≡ feed_of begin (setup_view setup.now) rows → IfErr result
        (IsFirstFault begin (setup_view setup.now) setup.now.job.dag.order refused.now rows
        records.old) }
{
    if !records.next(cells)? {
        return Err(AuditFault::NoMemory);
    }
    for _ in 0..refused.len() {
        if !records.next(cells)? {
            return Err(AuditFault::NoMemory);
        }
    }
    for place in 0..wanted.len() {
        let Some(found) = next_step(records, cells)? else {
            return Err(AuditFault::Feed(number_of(refused, place)));
        };
        if !is_at(wanted, place, found) {
            return Err(AuditFault::Feed(number_of(refused, place)));
        }
    }
    match next_step(records, cells)? {
        Some(_) => Err(AuditFault::Feed(number_of(refused, wanted.len()))),
        None => Ok(()),
    }
}

// The number of the record of a step.
fn number_of(refused: &[Noted], place: usize) -> u64
    requires { place < 2 ^ 63 }
    ensures { result ≡ 1 + length refused.now + place }
{
    1 + refused.len() as u64 + place as u64
}

// Whether this step stands at the place.
fn is_at(wanted: &[Feed], place: usize, found: Feed) -> bool
    requires { place < length wanted.now }
    ensures { IsTrue result ↔ (slice_get wanted.now place ≡ Some found) }
{
    are_same(wanted[place], found)
}

fn are_same(one: Feed, other: Feed) -> bool
    ensures { IsTrue result ↔ (one ≡ other) }
{
    match one {
        Feed::Fed(row) => match other {
            Feed::Fed(other) => row == other,
            Feed::Issued(_) | Feed::Stopped => false,
        },
        Feed::Issued(request) => match other {
            Feed::Issued(other) => request == other,
            Feed::Fed(_) | Feed::Stopped => false,
        },
        Feed::Stopped => match other {
            Feed::Stopped => true,
            Feed::Fed(_) | Feed::Issued(_) => false,
        },
    }
}

// The step that the next record tells.
fn next_step(
    records: &mut TextRecords<'_>,
    cells: &mut ByteRecord,
) -> Result<Option<Feed>, NoMemory>
    ensures some { IfOk result (λ found. IfSome found (λ step.
        IsStep step × (records.old ≡ feed_fields step ∷ records.new))) }
    ensures none { IfOk result (λ found. IfNone found ((step : FeedIs)
        (left : List (List (List ℕ))) → IsStep step → records.old ≢ feed_fields step ∷ left)) }
{
    if !records.next(cells)? {
        return Ok(None);
    }
    match step_of(cells) {
        Some(step) => Ok(Some(step)),
        None => Ok(None),
    }
}

fn step_of(cells: &ByteRecord) -> Option<Feed>
    ensures some { IfSome result (λ step.
        IsStep step × (fields_of cells.now ≡ feed_fields step)) }
    ensures none { IfNone result ((step : FeedIs) → IsStep step →
        fields_of cells.now ≢ feed_fields step) }
{
    match six_of(cells) {
        Some(six) => step_in(six),
        None => None,
    }
}
