ghost use Rattle.std.specs.Prelude.{◌≡◌, ◌-◌, ◌^◌};
ghost use Rattle.tuple_trace.specs.Digits.{at_most, digit_after as digit_after_of, digits_of};

/// The number that a text of decimal digits spells, where it is at most `limit`.
///
/// One or more of `0` to `9`, with leading zeros allowed and no sign. None where the text is
/// anything else, or the number greater.
pub fn digits_up_to(text: &[u8], limit: u64) -> Option<u64>
    ensures { result ≡ at_most limit (digits_of text.now) }
{
    if text.is_empty() {
        return None;
    }
    let mut number = 0;
    for byte in text {
        number = digit_after(number, *byte)?;
    }
    if number <= limit { Some(number) } else { None }
}

fn digit_after(number: u64, byte: u8) -> Option<u64>
    ensures { result ≡ at_most (2 ^ 64 - 1) (digit_after_of number byte) }
{
    if byte.is_ascii_digit() {
        number.checked_mul(10)?.checked_add(u64::from(byte - b'0'))
    } else {
        None
    }
}
