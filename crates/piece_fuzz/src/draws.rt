// Random numbers.
ghost use Rattle.std.specs.Prelude.{◌<◌, ◌≤◌, ◌^◌};

use rand_core::Rng;
use rand_pcg::Pcg32;

/// A number below a limit.
pub fn below(draws: &mut Pcg32, limit: usize) -> usize
    requires some { 0 < limit }
    ensures { result < limit }
{
    draws.next_u32() as usize % limit
}

/// A size from 1 to `2^most`, at most 2^15. Small ones are as likely as large ones.
pub fn size(draws: &mut Pcg32, most: u32) -> usize
    requires { most ≤ 15 }
    ensures some { 0 < result }
    ensures most { result ≤ 2 ^ 15 }
{
    let bits = draws.next_u32() % (most + 1);
    below(draws, 1 << bits) + 1
}
