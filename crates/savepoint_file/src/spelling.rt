// Numbers, as the cells of a savepoint spell them.
ghost use Rattle.std.specs.Prelude.{◌≡◌};
ghost use Rattle.payments.specs.Spelling.{after_sign, is_negative, number_in_text, signed_of};
ghost use Rattle.savepoint.specs.SaveReading.{head_number as head_number_of};

use tuple_trace::digits_up_to;

/// The number that a cell spells: an optional `-` and digits. `None` if it is no `i64`.
#[tactic(auto, using(payments::proofs::SpellingLemmas::with_sign_at_most))]
pub(crate) fn number(text: &[u8]) -> Option<i64>
    ensures { result ≡ number_in_text text.now }
{
    let (negative, rest) = signed(text);
    in_range(negative, digits_up_to(rest, u64::MAX)?)
}

fn signed(text: &[u8]) -> (bool, &[u8])
    ensures sign { result.0 ≡ is_negative text.now }
    ensures rest { result.1.now ≡ after_sign text.now }
{
    match text {
        [b'-', rest @ ..] => (true, rest),
        _ => (false, text),
    }
}

fn in_range(negative: bool, size: u64) -> Option<i64>
    ensures { result ≡ signed_of negative size }
{
    let size = i128::from(size);
    i64::try_from(if negative { -size } else { size }).ok()
}

/// A number of the first record: digits, below 2^63. `None` if the text is no such number.
pub fn head_number(text: &[u8]) -> Option<u64>
    ensures { result ≡ head_number_of text.now }
{
    digits_up_to(text, i64::MAX as u64)
}
