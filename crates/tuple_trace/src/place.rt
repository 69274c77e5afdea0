ghost use Rattle.std.specs.Prelude.{◌≡◌, ◌≤◌};
ghost use Rattle.tuple_trace.specs.Spread.{spread_of};

use crate::MAX_NODE_WORKERS;

/// Which of the workers of a counter a key belongs to, counted from 0.
///
/// The polynomial hash `h := 31 h + byte` modulo 2^32 over the bytes of the key, modulo the number
/// of workers, which is 1 to 8.
pub fn spread(text: &[u8], workers: u32) -> u32
    requires some { 1 ≤ workers }
    requires few { workers ≤ MAX_NODE_WORKERS }
    ensures { result ≡ spread_of text.now workers }
{
    let mut hash = 0u32;
    for byte in text {
        hash = hash.wrapping_mul(31).wrapping_add(u32::from(*byte));
    }
    hash % workers
}
