// The second pass: whether the refused requests of an audit are those of the setup.
ghost use Rattle.std.specs.Prelude.{◌≡◌, ◌≢◌, ◌<◌, ◌∷◌, ◌↔◌, ℕ, IfErr, IfNone, IfOk, IfSome};
ghost use Rattle.std.specs.Prelude.{IsTrue, List, OnOk, Some, length, slice_get};
ghost use Rattle.csv.specs.Records.{fields_of};
ghost use Rattle.sink_journal.specs.Audit.{refused_fields};
ghost use Rattle.sink_journal.specs.declared.audit.Noted.{Noted as NotedIs};
ghost use Rattle.tuple_trace.specs.declared.row.Row.{Row as RowIs};
ghost use Rattle.flow_model.specs.Begin.{Begin};
ghost use Rattle.flow_model.specs.Setup.{setup_view};
ghost use Rattle.audit_laws.specs.declared.audit.Line.{Line as LineIs};
ghost use Rattle.audit_laws.specs.Fits.{csv_records};
ghost use Rattle.audit_fault.specs.Noting.{IsNoted};
ghost use Rattle.audit_laws.specs.Lines.{refusals_in};
ghost use Rattle.audit_laws.specs.Verdict.{AreInShape, IsFirstFault};

use crate::feeds::refused_in;
use crate::records::six_of;
use audit_fault::AuditFault;
use csv::ByteRecord;
use flow_model::Setup;
use payments::TextRecords;
use sink_journal::Noted;
use std::alloc::Global;
use tuple_trace::NoMemory;

/// Whether the refused requests of a text are these. The records are in shape.
///
/// # Errors
///
/// The first record that differs, or out of memory.
pub fn check_refused(
    alloc: Global,
    setup: &Setup,
    refused: &[Noted],
    bytes: &[u8],
) -> Result<(), AuditFault>
    requires { (lines : List LineIs) ×
        AreInShape (setup_view setup.now).job (csv_records bytes.now) lines }
    ensures ok { OnOk result ((lines : List LineIs) →
        AreInShape (setup_view setup.now).job (csv_records bytes.now) lines →
        refusals_in lines ≡ refused.now) }
    ensures fault { (begin : Begin) (rows : List RowIs) → IfErr result
        (IsFirstFault begin (setup_view setup.now) setup.now.job.dag.order refused.now rows
        (csv_records bytes.now)) }
{
    let mut records = TextRecords::of(alloc, bytes);
    let mut cells = ByteRecord::new(alloc);
    check_records(setup, refused, &mut records, &mut cells)
}

// Whether the refused requests of these records are these. The header is the first record, and
// `cells` holds each record in turn.
fn check_records(
    setup: &Setup,
    refused: &[Noted],
    records: &mut TextRecords<'_>,
    cells: &mut ByteRecord,
) -> Result<(), AuditFault>
    requires { (lines : List LineIs) ×
        AreInShape (setup_view setup.now).job records.old lines }
    ensures ok { OnOk result ((lines : List LineIs) →
        AreInShape (setup_view setup.now).job records.old lines →
        refusals_in lines ≡ refused.now) }
    ensures fault { (begin : Begin) (rows : List RowIs) → IfErr result
        (IsFirstFault begin (setup_view setup.now) setup.now.job.dag.order refused.now rows
        records.old) }
{
    if !records.next(cells)? {
        return Err(AuditFault::NoMemory);
    }
    for place in 0..refused.len() {
        let Some(found) = next_refused(records, cells)? else {
            return Err(AuditFault::Refused(place as u64 + 1));
        };
        if !is_at(refused, place, found) {
            return Err(AuditFault::Refused(place as u64 + 1));
        }
    }
    match next_refused(records, cells)? {
        Some(_) => Err(AuditFault::Refused(refused.len() as u64 + 1)),
        None => Ok(()),
    }
}

// Whether this request stands at the place.
fn is_at(refused: &[Noted], place: usize, found: Noted) -> bool
    requires { place < length refused.now }
    ensures { IsTrue result ↔ (slice_get refused.now place ≡ Some found) }
{
    are_same(refused[place], found)
}

fn are_same(one: Noted, other: Noted) -> bool
    ensures { IsTrue result ↔ ((one.place ≡ other.place) × (one.code ≡ other.code)) }
{
    one.place == other.place && one.code == other.code
}

// The refused request that the next record tells.
fn next_refused(
    records: &mut TextRecords<'_>,
    cells: &mut ByteRecord,
) -> Result<Option<Noted>, NoMemory>
    ensures some { IfOk result (λ found. IfSome found (λ noted.
        IsNoted noted × (records.old ≡ refused_fields noted ∷ records.new))) }
    ensures none { IfOk result (λ found. IfNone found ((noted : NotedIs)
        (left : List (List (List ℕ))) → IsNoted noted →
        records.old ≢ refused_fields noted ∷ left)) }
{
    if !records.next(cells)? {
        return Ok(None);
    }
    match noted_in(cells) {
        Some(noted) => Ok(Some(noted)),
        None => Ok(None),
    }
}

fn noted_in(cells: &ByteRecord) -> Option<Noted>
    ensures some { IfSome result (λ noted.
        IsNoted noted × (fields_of cells.now ≡ refused_fields noted)) }
    ensures none { IfNone result ((noted : NotedIs) → IsNoted noted →
        fields_of cells.now ≢ refused_fields noted) }
{
    match six_of(cells) {
        Some(six) => refused_in(six),
        None => None,
    }
}
