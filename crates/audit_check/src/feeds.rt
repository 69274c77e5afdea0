// Refused requests and the feeder's steps, as the records of an audit tell them.
ghost use Rattle.std.specs.Prelude.{◌≡◌, ◌≢◌, ◌≤◌, ◌↔◌, [], ℕ, IfNone, IfSome, IsTrue, codes};
ghost use Rattle.std.specs.Prelude.{decimal};
ghost use Rattle.sink_journal.specs.Audit.{code_word, feed_fields, refused_fields};
ghost use Rattle.sink_journal.specs.declared.audit.Noted.{Noted as NotedIs};
ghost use Rattle.sink_journal.specs.declared.journal.Feed.{Feed as FeedIs};
ghost use Rattle.audit_fault.specs.Noting.{IsNoted};
ghost use Rattle.audit_laws.specs.Lines.{IsStep};
ghost use Rattle.audit_check.specs.Cells.{AreEmpty, cells_of};

use crate::records::Six;
use crate::spelling::{narrow, number_up_to, wide};
use audit_fault::LAST_REFUSAL_CODE;
use sink_journal::{Feed, Noted};

/// The refused request that a record tells.
pub(crate) fn refused_in(six: Six<'_>) -> Option<Noted>
    ensures some { IfSome result (λ noted.
        IsNoted noted × (cells_of six.entry ≡ refused_fields noted)) }
    ensures none { IfNone result ((noted : NotedIs) → IsNoted noted →
        cells_of six.entry ≢ refused_fields noted) }
{
    if !is_refused(six) {
        return None;
    }
    let Some(place) = narrow(six.number) else {
        return None;
    };
    let Some(code) = code_in(six.extra) else {
        return None;
    };
    Some(Noted { place, code })
}

fn is_refused(six: Six<'_>) -> bool
    ensures { IsTrue result ↔ ((six.entry.entry.now ≡ codes "refused")
        × AreEmpty six.entry.node.now six.entry.worker.now six.entry.lane.now) }
{
    six.entry == b"refused".as_slice() && are_empty(six.node, six.worker, six.lane)
}

fn are_empty(one: &[u8], two: &[u8], three: &[u8]) -> bool
    ensures { IsTrue result ↔ AreEmpty one.now two.now three.now }
{
    is_blank(one) && is_blank(two) && is_blank(three)
}

/// Whether a cell has no text.
pub(crate) fn is_blank(text: &[u8]) -> bool
    ensures { IsTrue result ↔ (text.now ≡ []) }
{
    text.is_empty()
}

fn code_in(text: &[u8]) -> Option<u8>
    ensures some { IfSome result (λ code. (1 ≤ code) × (code ≤ LAST_REFUSAL_CODE)
        × (text.now ≡ code_word code)) }
    ensures none { IfNone result ((code : ℕ) → 1 ≤ code → code ≤ LAST_REFUSAL_CODE
        → text.now ≢ code_word code) }
{
    match text.strip_prefix(b"Q") {
        Some(digit) => small(digit),
        None => None,
    }
}

fn small(text: &[u8]) -> Option<u8>
    ensures some { IfSome result (λ code. (1 ≤ code) × (code ≤ LAST_REFUSAL_CODE)
        × (text.now ≡ decimal code)) }
    ensures none { IfNone result ((code : ℕ) → 1 ≤ code → code ≤ LAST_REFUSAL_CODE
        → text.now ≢ decimal code) }
{
    match number_up_to(text, LAST_REFUSAL_CODE) {
        Some(code) if code > 0 => Some(code as u8),
        _ => None,
    }
}

/// The step of the feeder that a record tells.
pub(crate) fn step_in(six: Six<'_>) -> Option<Feed>
    ensures some { IfSome result (λ step.
        IsStep step × (cells_of six.entry ≡ feed_fields step)) }
    ensures none { IfNone result ((step : FeedIs) → IsStep step →
        cells_of six.entry ≢ feed_fields step) }
{
    if !is_plain(six) {
        return None;
    }
    if is_stopped(six) {
        return Some(Feed::Stopped);
    }
    let Some(number) = wide(six.number) else {
        return None;
    };
    if six.entry == b"fed".as_slice() {
        return Some(Feed::Fed(number));
    }
    if six.entry == b"issued".as_slice() {
        return Some(Feed::Issued(number));
    }
    None
}

fn is_plain(six: Six<'_>) -> bool
    ensures { IsTrue result ↔ (AreEmpty six.entry.node.now six.entry.worker.now six.entry.lane.now
        × (six.entry.extra.now ≡ [])) }
{
    are_empty(six.node, six.worker, six.lane) && is_blank(six.extra)
}

fn is_stopped(six: Six<'_>) -> bool
    ensures { IsTrue result ↔ ((six.entry.entry.now ≡ codes "stopped")
        × (six.entry.number.now ≡ [])) }
{
    six.entry == b"stopped".as_slice() && is_blank(six.number)
}
