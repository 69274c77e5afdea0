// Bytes in memory that are given one after another.

ghost use Rattle.std.specs.Prelude.{◌≡◌, ◌<◌, ◌≤◌, ◌++◌, [], drop, length, min, take};

use tuple_trace::Bytes;

/// Bytes in memory, and how many of them are taken.
#[derive(Drop)]
pub(crate) struct Tank {
    bytes: Bytes,
    taken: usize,
    ghost within: { taken ≤ length bytes },
}

impl Tank {
    ghost use Rattle.input_pieces.specs.Taps.{count_given, left_in};

    /// All of these bytes.
    pub(crate) fn new(bytes: Bytes) -> Self
        ensures { left_in result ≡ bytes }
    {
        Tank { bytes, taken: 0 }
    }

    /// The bytes that are left.
    pub(crate) fn left(&self) -> &[u8]
        ensures { result.now ≡ left_in self.now }
    {
        &self.bytes.as_slice()[self.taken..]
    }

    /// Gives the first bytes, at most `most` but at least one if there is one, and room for it.
    /// Returns how many.
    pub(crate) fn give(&mut self, most: usize, room: &mut [u8]) -> usize
        ensures count { result ≡ count_given most (length room.old) (left_in self.old) }
        ensures within { result ≤ length room.new }
        ensures given { left_in self.old ≡ take result room.new ++ left_in self.new }
        ensures end { result ≡ 0 → 0 < length room.new → left_in self.new ≡ [] }
    {
        let left = self.left();
        let most = most.max(1).min(self.bytes.len() - self.taken);
        let count = copy_prefix(&left[..most], room);
        self.taken += count;
        count
    }
}

// Copies as many bytes as both have, and returns how many.
fn copy_prefix(from: &[u8], to: &mut [u8]) -> usize
    ensures count { result ≡ min (length from.now) (length to.old) }
    ensures copied { to.new ≡ take result from.now ++ drop result to.old }
{
    let count = from.len().min(to.len());
    to[..count].copy_from_slice(&from[..count]);
    count
}
