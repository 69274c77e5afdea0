ghost use Rattle.std.specs.Prelude.{◌≡◌, pos, ◌≤ℤ◌, ◌*ℤ◌, ◌+ℤ◌};
ghost use Rattle.std.specs.Int.{int_div_euclid};
ghost use Rattle.keyed_state.specs.Counts.{clamp as clamp_of, scaled};

/// The number, cut to the range of an `i64`.
pub fn clamp(number: i128) -> i64
    ensures { result ≡ clamp_of number }
{
    if number < -9_223_372_036_854_775_808 {
        i64::MIN
    } else if number > 9_223_372_036_854_775_807 {
        i64::MAX
    } else {
        number as i64
    }
}

/// The sum, cut to the range of an `i64`.
pub(crate) fn total(count: i64, by: i64) -> i64
    ensures { result ≡ clamp_of (count +ℤ by) }
{
    count.saturating_add(by)
}

/// A count times `by`, divided by `over` and rounded down, and then cut to the range of an `i64`.
/// `over` is at least 1.
pub(crate) fn scale(count: i64, by: i64, over: i64) -> i64
    requires { pos 1 ≤ℤ over }
    ensures { result ≡ scaled by over count }
{
    clamp(quotient(count, by, over))
}

fn quotient(count: i64, by: i64, over: i64) -> i128
    requires { pos 1 ≤ℤ over }
    ensures { result ≡ int_div_euclid (count *ℤ by) over }
{
    let product = count as i128 * by as i128;
    product.div_euclid(over as i128)
}
