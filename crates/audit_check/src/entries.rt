// Steps and counts of workers, as the records of an audit tell them.
ghost use Rattle.std.specs.Prelude.{◌≡◌, ◌≢◌, ◌<◌, ◌^◌, ◌↔◌, [], ℕ, ℤ, IfNone, IfOk, IfSome};
ghost use Rattle.std.specs.Prelude.{IsTrue, List, codes};
ghost use Rattle.std.specs.Int.Signed.{mag};
ghost use Rattle.flow_model.specs.Setup.{setup_view};
ghost use Rattle.audit_laws.specs.declared.audit.AuditEntry.{AuditEntry as KeptIs};
ghost use Rattle.audit_laws.specs.Lines.{IsEntryAt, count_fields, kept_fields};
ghost use Rattle.audit_laws.specs.Names.{Named};
ghost use Rattle.audit_check.specs.Cells.{IsNamed, cells_of};

use crate::feeds::is_blank;
use crate::names::lane_into;
use crate::records::Six;
use crate::spelling::{births, signed, wide};
use audit_laws::AuditEntry;
use flow_model::Setup;
use std::alloc::Global;
use tuple_trace::NoMemory;

/// The step of this worker that a record tells.
pub(crate) fn entry_in(
    alloc: Global,
    setup: &Setup,
    worker: u32,
    six: Six<'_>,
) -> Result<Option<AuditEntry>, NoMemory>
    ensures some { IfOk result (λ found. IfSome found (λ entry.
        IsEntryAt (setup_view setup.now).job worker entry × ((x : Named) → IsNamed six.entry x →
        cells_of six.entry ≡ kept_fields x entry))) }
    ensures none { IfOk result (λ found. IfNone found ((x : Named) (entry : KeptIs) →
        IsEntryAt (setup_view setup.now).job worker entry →
        cells_of six.entry ≢ kept_fields x entry)) }
{
    if six.entry == b"met".as_slice() {
        return met_in(alloc, setup, worker, six);
    }
    Ok(other_in(setup, worker, six))
}

fn met_in(
    alloc: Global,
    setup: &Setup,
    worker: u32,
    six: Six<'_>,
) -> Result<Option<AuditEntry>, NoMemory>
    requires { six.entry.now ≡ codes "met" }
    ensures some { IfOk result (λ found. IfSome found (λ entry.
        IsEntryAt (setup_view setup.now).job worker entry × ((x : Named) → IsNamed six.entry x →
        cells_of six.entry ≡ kept_fields x entry))) }
    ensures none { IfOk result (λ found. IfNone found ((x : Named) (entry : KeptIs) →
        IsEntryAt (setup_view setup.now).job worker entry →
        cells_of six.entry ≢ kept_fields x entry)) }
{
    let Some(lane) = lane_into(setup, worker, six.lane) else {
        return Ok(None);
    };
    let Some(row) = wide(six.number) else {
        return Ok(None);
    };
    match births(alloc, six.extra)? {
        Some(birth) => Ok(Some(AuditEntry::Met { lane, row, birth })),
        None => Ok(None),
    }
}

// A step that isn't the meeting of a tuple.
fn other_in(setup: &Setup, worker: u32, six: Six<'_>) -> Option<AuditEntry>
    requires { six.entry.now ≢ codes "met" }
    ensures some { IfSome result (λ entry.
        IsEntryAt (setup_view setup.now).job worker entry × ((x : Named) → IsNamed six.entry x →
        cells_of six.entry ≡ kept_fields x entry)) }
    ensures none { IfNone result ((x : Named) (entry : KeptIs) →
        IsEntryAt (setup_view setup.now).job worker entry →
        cells_of six.entry ≢ kept_fields x entry) }
{
    if !is_blank(six.extra) {
        return None;
    }
    if six.entry == b"marked".as_slice() {
        return marked_in(setup, worker, six);
    }
    if six.entry == b"turned".as_slice() {
        return turned_in(setup, worker, six);
    }
    if six.entry == b"ended".as_slice() {
        return ended_in(setup, worker, six);
    }
    None
}

fn marked_in(setup: &Setup, worker: u32, six: Six<'_>) -> Option<AuditEntry>
    requires named { six.entry.now ≡ codes "marked" }
    requires empty { six.extra.now ≡ [] }
    ensures some { IfSome result (λ entry.
        IsEntryAt (setup_view setup.now).job worker entry × ((x : Named) → IsNamed six.entry x →
        cells_of six.entry ≡ kept_fields x entry)) }
    ensures none { IfNone result ((x : Named) (entry : KeptIs) →
        IsEntryAt (setup_view setup.now).job worker entry →
        cells_of six.entry ≢ kept_fields x entry) }
{
    let Some(lane) = lane_into(setup, worker, six.lane) else {
        return None;
    };
    let Some(request) = wide(six.number) else {
        return None;
    };
    Some(AuditEntry::Marked { lane, request })
}

fn turned_in(setup: &Setup, worker: u32, six: Six<'_>) -> Option<AuditEntry>
    requires named { six.entry.now ≡ codes "turned" }
    requires empty { six.extra.now ≡ [] }
    ensures some { IfSome result (λ entry.
        IsEntryAt (setup_view setup.now).job worker entry × ((x : Named) → IsNamed six.entry x →
        cells_of six.entry ≡ kept_fields x entry)) }
    ensures none { IfNone result ((x : Named) (entry : KeptIs) →
        IsEntryAt (setup_view setup.now).job worker entry →
        cells_of six.entry ≢ kept_fields x entry) }
{
    if !is_blank(six.lane) {
        return None;
    }
    let Some(request) = wide(six.number) else {
        return None;
    };
    Some(AuditEntry::Turned { request })
}

fn ended_in(setup: &Setup, worker: u32, six: Six<'_>) -> Option<AuditEntry>
    requires named { six.entry.now ≡ codes "ended" }
    requires empty { six.extra.now ≡ [] }
    ensures some { IfSome result (λ entry.
        IsEntryAt (setup_view setup.now).job worker entry × ((x : Named) → IsNamed six.entry x →
        cells_of six.entry ≡ kept_fields x entry)) }
    ensures none { IfNone result ((x : Named) (entry : KeptIs) →
        IsEntryAt (setup_view setup.now).job worker entry →
        cells_of six.entry ≢ kept_fields x entry) }
{
    if !is_blank(six.number) {
        return None;
    }
    let Some(lane) = lane_into(setup, worker, six.lane) else {
        return None;
    };
    Some(AuditEntry::Ended { lane })
}

/// The count that a record tells. Its key is the last cell.
pub(crate) fn count_in(six: Six<'_>) -> Option<i64>
    ensures some { IfSome result (λ count. (x : Named) → IsNamed six.entry x →
        cells_of six.entry ≡ count_fields x (six.entry.extra.now, count)) }
    ensures none { IfNone result ((x : Named) (key : List ℕ) (count : ℤ) → mag count < 2 ^ 63 →
        cells_of six.entry ≢ count_fields x (key, count)) }
{
    if !is_state(six) {
        return None;
    }
    match signed(six.number) {
        Some(count) => Some(count),
        None => None,
    }
}

fn is_state(six: Six<'_>) -> bool
    ensures { IsTrue result ↔ ((six.entry.entry.now ≡ codes "state")
        × (six.entry.lane.now ≡ [])) }
{
    six.entry == b"state".as_slice() && is_blank(six.lane)
}
