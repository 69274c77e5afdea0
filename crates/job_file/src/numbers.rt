ghost use Rattle.std.specs.Prelude.{◌≡◌};
ghost use Rattle.job_file.specs.Numbers.{nearest};

/// The greatest number of 32 bits.
pub(crate) const NUMBER_MAX: i64 = 4_294_967_295;

/// The number of 32 bits that is nearest to a number of a file.
pub(crate) fn nearest(number: i64) -> u32
    ensures { result ≡ nearest number }
{
    number.clamp(0, NUMBER_MAX) as u32
}
