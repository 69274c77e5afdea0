ghost use Rattle.std.specs.Prelude.{◌≡◌, ◌-◌, ◌^◌, position, nat_eq, Bool};
ghost use Rattle.tuple_trace.specs.Digits.{at_most, digits_of};
ghost use Rattle.payments.specs.Spelling.{after_sign, amount_of, cents, size_of, with_sign};
ghost use Rattle.payments.specs.Spelling.{hundredths_of, is_negative, number_in_text, signed_of};

use tuple_trace::digits_up_to;

/// The number that a cell spells: an optional `-` and one or more digits. None where it is spelled
/// otherwise or no `i64`.
#[tactic(auto, using(crate::proofs::SpellingLemmas::with_sign_at_most))]
pub(crate) fn number(text: &[u8]) -> Option<i64>
    ensures { result ≡ number_in_text text.now }
{
    let (negative, rest) = signed(text);
    in_range(negative, u128::from(digits(rest)?))
}

/// The cents of the amount that a cell spells: as a number, and behind its digits optionally a `.`
/// with one or two more.
pub(crate) fn amount(text: &[u8]) -> Option<i64>
    ensures { result ≡ amount_of text.now }
{
    let (negative, rest) = signed(text);
    in_range(negative, size(rest)?)
}

fn signed(text: &[u8]) -> (bool, &[u8])
    ensures sign { result.0 ≡ is_negative text.now }
    ensures rest { result.1.now ≡ after_sign text.now }
{
    match text {
        [b'-', rest @ ..] => (true, rest),
        _ => (false, text),
    }
}

fn in_range(negative: bool, size: u128) -> Option<i64>
    ensures { result ≡ signed_of negative size }
{
    let size = i128::try_from(size).ok()?;
    i64::try_from(if negative { -size } else { size }).ok()
}

/// A size past 2^64 - 1 is none, which is out of range in any case.
fn size(text: &[u8]) -> Option<u128>
    ensures { (negative : Bool) → with_sign negative result
        ≡ with_sign negative (size_of text.now) }
{
    match point_of(text) {
        None => sum(digits(text), Some(0)),
        Some(point) => sum(digits(&text[..point]), hundredths(&text[point + 1..])),
    }
}

fn point_of(text: &[u8]) -> Option<usize>
    ensures { result ≡ position (λ byte. nat_eq byte 46) text.now }
{
    text.iter().position(|byte| *byte == b'.')
}

fn hundredths(text: &[u8]) -> Option<u64>
    ensures { result ≡ hundredths_of text.now }
{
    match text {
        [tens] => digits(&[*tens, b'0']),
        [_, _] => digits(text),
        _ => None,
    }
}

fn sum(whole: Option<u64>, part: Option<u64>) -> Option<u128>
    ensures { result ≡ cents whole part }
{
    Some(u128::from(whole?) * 100 + u128::from(part?))
}

fn digits(text: &[u8]) -> Option<u64>
    ensures { result ≡ at_most (2 ^ 64 - 1) (digits_of text.now) }
{
    digits_up_to(text, u64::MAX)
}
