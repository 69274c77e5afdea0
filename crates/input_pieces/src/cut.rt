ghost use Rattle.std.specs.Prelude.{◌≤◌, drop, length, take};
ghost use Rattle.csv.specs.Reading.{default_config};
ghost use Rattle.input_pieces.specs.Cut.{IsCut, IsUncut};

use crate::place::{Place, Scanned, scan};

/// How many of the first bytes of a text stand before the last place where it can be cut between
/// records. 0 if there is no such place behind its first byte. Takes no memory.
pub fn last_cut(text: &[u8]) -> usize
    ensures within { result ≤ length text.now }
    ensures cut { IsCut default_config (take result text.now) }
    ensures longest { IsUncut default_config (drop result text.now) }
{
    let Scanned { place: _, cut } = scan(Place::StartRecord, text);
    match cut {
        Some(cut) => cut,
        None => 0,
    }
}
