// Sets of places as masks.
ghost use Rattle.std.specs.Prelude.{◌≡◌, ◌≢◌, ℕ, ◌<◌, ◌≤◌, Some, nat_lt, not, ◌&&◌, true};
ghost use Rattle.flow_dag.specs.Masks.{has};
ghost use Rattle.flow_worker.specs.Masks.{IsFirstFrom, IsMaskWith, IsTakenFrom};

use marker_align::{LANE_SET_BITS, LaneSet, MAX_LANES_IN};

/// Returns the mask with a place in it or out of it. A shift of 128 bits is dear, and place 0, the
/// one place of most workers, needs none.
pub fn with_place(mask: LaneSet, place: u32, is_in: bool) -> LaneSet
    requires { place < LANE_SET_BITS }
    ensures { IsMaskWith place is_in mask result }
{
    if place == 0 {
        if is_in { mask | 1 } else { mask & !1 }
    } else if is_in {
        mask | 1 << place
    } else {
        mask & !(1 << place)
    }
}

/// Returns the places of a mask that are not in another.
pub fn without(mask: LaneSet, other: LaneSet) -> LaneSet
    ensures { (k : ℕ) → has result k ≡ (has mask k && not (has other k)) }
{
    mask & !other
}

/// Takes a place out of the mask, if it has one.
pub fn take_place(mask: &mut LaneSet) -> Option<u32>
    ensures { IsTakenFrom mask.old result mask.new }
{
    let was = *mask;
    if was == 0 {
        return None;
    }
    let (place, rest) = split_lowest(was);
    *mask = rest;
    Some(place)
}

// The lowest place of the mask, and the mask without it.
fn split_lowest(mask: LaneSet) -> (u32, LaneSet)
    requires { mask ≢ 0 }
    ensures { IsTakenFrom mask (Some result.0) result.1 }
{
    (mask.trailing_zeros(), mask & (mask - 1))
}

/// Returns the first place of the mask from a place on. Place 0 is tried without a shift.
pub fn first_from(mask: LaneSet, from: u32) -> Option<u32>
    requires { from < LANE_SET_BITS }
    ensures { IsFirstFrom mask from result }
{
    if mask & 1 == 1 && from == 0 {
        return Some(0);
    }
    let rest = mask >> from;
    if rest == 0 {
        return None;
    }
    Some(from + rest.trailing_zeros())
}

/// Returns the mask of the first places.
pub fn all_places(count: usize) -> LaneSet
    requires { count ≤ MAX_LANES_IN }
    ensures { (k : ℕ) → has result k ≡ nat_lt k count }
{
    (1 << count as u32) - 1
}

/// Returns a mask of the first places, [`LANE_SET_BITS`] at most.
pub fn first_places(count: usize) -> u128
    ensures { (k : ℕ) → k < LANE_SET_BITS → k < count → has result k ≡ true }
{
    if count <= MAX_LANES_IN {
        all_places(count)
    } else {
        u128::MAX
    }
}
