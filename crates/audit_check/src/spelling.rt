// Numbers, as the cells of an audit spell them: exactly as they are printed.
ghost use Rattle.std.specs.Prelude.{◌≡◌, ◌≢◌, ◌<◌, ◌≤◌, ◌^◌, ◌↔◌, ℕ, ℤ, All, IfNone, IfOk, IfSome};
ghost use Rattle.std.specs.Prelude.{IsTrue, List, decimal, map};
ghost use Rattle.std.specs.Fmt.{signed_decimal};
ghost use Rattle.std.specs.Int.Signed.{mag};
ghost use Rattle.payments.specs.Spelling.{after_sign, is_negative, number_in_text, signed_of};
ghost use Rattle.sink_journal.specs.Audit.{dotted};
ghost use Rattle.audit_check.specs.Parts.{parts_at_dots, texts_of};

use itoa::Buffer;
use std::alloc::{AllocError, Global};
use tuple_trace::{Births, Items, NoMemory, digits_up_to};

/// The number that a cell spells, if it is at most `limit`.
pub(crate) fn number_up_to(text: &[u8], limit: u64) -> Option<u64>
    ensures some { IfSome result (λ number. (number ≤ limit) × (text.now ≡ decimal number)) }
    ensures none { IfNone result ((number : ℕ) → number ≤ limit → text.now ≢ decimal number) }
{
    match digits_up_to(text, limit) {
        Some(number) if is_printed(text, number) => Some(number),
        _ => None,
    }
}

fn is_printed(text: &[u8], number: u64) -> bool
    ensures { IsTrue result ↔ (text.now ≡ decimal number) }
{
    let mut printed = Buffer::new();
    text == printed.format(number).as_bytes()
}

/// The number of 32 bits that a cell spells.
pub(crate) fn narrow(text: &[u8]) -> Option<u32>
    ensures some { IfSome result (λ number. text.now ≡ decimal number) }
    ensures none { IfNone result ((number : ℕ) → number < 2 ^ 32 → text.now ≢ decimal number) }
{
    match number_up_to(text, u32::MAX as u64) {
        Some(number) => Some(number as u32),
        None => None,
    }
}

/// The number of 64 bits that a cell spells.
pub(crate) fn wide(text: &[u8]) -> Option<u64>
    ensures some { IfSome result (λ number. text.now ≡ decimal number) }
    ensures none { IfNone result ((number : ℕ) → number < 2 ^ 64 → text.now ≢ decimal number) }
{
    number_up_to(text, u64::MAX)
}

/// The count that a cell spells.
pub(crate) fn signed(text: &[u8]) -> Option<i64>
    ensures some { IfSome result (λ count. text.now ≡ signed_decimal count) }
    ensures none { IfNone result ((count : ℤ) → mag count < 2 ^ 63 →
        text.now ≢ signed_decimal count) }
{
    match loosely(text) {
        Some(count) if is_signed(text, count) => Some(count),
        _ => None,
    }
}

fn is_signed(text: &[u8], count: i64) -> bool
    ensures { IsTrue result ↔ (text.now ≡ signed_decimal count) }
{
    let mut printed = Buffer::new();
    text == printed.format(count).as_bytes()
}

// The number that an optional `-` and digits spell, if it is an `i64`.
#[tactic(auto, using(payments::proofs::SpellingLemmas::with_sign_at_most))]
fn loosely(text: &[u8]) -> Option<i64>
    ensures { result ≡ number_in_text text.now }
{
    let (negative, rest) = without_sign(text);
    in_range(negative, digits_up_to(rest, u64::MAX)?)
}

fn without_sign(text: &[u8]) -> (bool, &[u8])
    ensures sign { result.0 ≡ is_negative text.now }
    ensures rest { result.1.now ≡ after_sign text.now }
{
    match text {
        [b'-', rest @ ..] => (true, rest),
        _ => (false, text),
    }
}

fn in_range(negative: bool, size: u64) -> Option<i64>
    ensures { result ≡ signed_of negative size }
{
    let size = i128::from(size);
    i64::try_from(if negative { -size } else { size }).ok()
}

/// The births that a cell spells.
pub(crate) fn births(alloc: Global, text: &[u8]) -> Result<Option<Births>, NoMemory>
    ensures some { IfOk result (λ found. IfSome found (λ births.
        (text.now ≡ dotted births) × All (λ birth. birth < 2 ^ 32) births)) }
    ensures none { IfOk result (λ found. IfNone found ((births : List ℕ) →
        All (λ birth. birth < 2 ^ 32) births → text.now ≢ dotted births)) }
{
    if text.is_empty() {
        return Ok(Some(Births::new(alloc)));
    }
    let parts = parts_of(alloc, text)?;
    match numbers_in(alloc, parts.as_slice())? {
        Some(births) => Ok(Some(Births::from_slice(alloc, births.as_slice())?)),
        None => Ok(None),
    }
}

fn parts_of(alloc: Global, text: &[u8]) -> Result<Vec<&[u8]>, AllocError>
    ensures { IfOk result (λ parts. texts_of parts.items ≡ parts_at_dots text.now) }
{
    text.split(|byte| *byte == b'.').collect(alloc)
}

fn numbers_in(alloc: Global, parts: &[&[u8]]) -> Result<Option<Items<u32>>, NoMemory>
    ensures some { IfOk result (λ found. IfSome found (λ births.
        (texts_of parts.now ≡ map decimal births) × All (λ birth. birth < 2 ^ 32) births)) }
    ensures none { IfOk result (λ found. IfNone found ((births : List ℕ) →
        All (λ birth. birth < 2 ^ 32) births → texts_of parts.now ≢ map decimal births)) }
{
    let mut births = Items::new(alloc);
    for part in parts {
        let Some(birth) = narrow(part) else {
            return Ok(None);
        };
        births.push(birth)?;
    }
    Ok(Some(births))
}
