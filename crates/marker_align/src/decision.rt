ghost use Rattle.std.specs.Prelude.{◌≡◌, ◌<◌, ◌≤◌, length, map, position, not, ◌||◌};
ghost use Rattle.std.specs.List.{enumerate_from, list_all, list_any};
ghost use Rattle.std.specs.Option.{option_copied};
ghost use Rattle.flow_dag.specs.Masks.{has};
ghost use Rattle.marker_align.specs.Decision.{decided, may_turn as may_turn_of};
ghost use Rattle.marker_align.specs.Decision.{next_tuple as next_tuple_of};
ghost use Rattle.marker_align.specs.Hands.{is_issued, is_last, is_marker, is_tuple};

use crate::{Hands, Holder, LANE_SET_BITS, MAX_LANES_IN};
use flow_dag::has_wide_bit;

/// A set of places of a worker. Its lanes in are its places, by rising lane number, and there are
/// at most 127.
pub type LaneSet = u128;

/// The next request that covers a worker.
#[derive(Clone, Copy, Debug, PartialEq, Eq)]
pub struct Due {
    pub request: u64,
    /// Whether the worker's node is a head of the request's cover.
    pub head: bool,
    /// The places of the lanes on covered edges.
    pub lanes: LaneSet,
    /// The mask of the nodes that the request covers.
    pub cover: u64,
}

/// What a worker does next.
#[derive(Clone, Copy, Debug, PartialEq, Eq)]
pub enum Act {
    /// Turn for the request with this number.
    Turn(u64),
    /// Process the tuple in the hand at this place.
    Process(u32),
    /// End: every lane has come to its end.
    Close,
    Nothing,
}

/// What a worker with these hands does next. `due` is its next request, `posted` whether that was
/// posted in its box, and `start` the place at which it looks for a tuple first. Takes no memory.
///
/// The first rule that applies decides:
/// 1. At a head, the due was posted, or some hand holds a tuple fed under it or a later request:
///    turn for the due.
/// 2. Elsewhere, the hand of each of the due's lanes holds its marker: turn for the due.
/// 3. Some hand holds a tuple: process the first from `start` on, going round.
/// 4. Nothing is due, and all hands hold ends: close.
/// 5. Nothing.
pub fn decide(hands: &Hands, due: Option<&Due>, posted: bool, start: u32) -> Act
    requires few { length hands.now ≤ MAX_LANES_IN }
    requires start { start < length hands.now }
    ensures { result ≡ decided hands.now (option_copied due.entry) posted start }
{
    decide_among(hands.as_slice(), due, posted, start)
}

/// [`decide`] over what has hands.
pub fn decide_among<H: Holder>(hands: &[H], due: Option<&Due>, posted: bool, start: u32) -> Act
    requires few { length hands.now ≤ MAX_LANES_IN }
    requires start { start < length hands.now }
    ensures { result ≡ decided (map H.hand hands.now) (option_copied due.entry) posted start }
{
    if let Some(due) = due {
        if may_turn(hands, due, posted) {
            return Act::Turn(due.request);
        }
    }
    if let Some(place) = next_tuple(hands, start) {
        return Act::Process(place);
    }
    if due.is_none() && all_last(hands) {
        return Act::Close;
    }
    Act::Nothing
}

fn may_turn<H: Holder>(hands: &[H], due: &Due, posted: bool) -> bool
    ensures { result ≡ may_turn_of (map H.hand hands.now) due.now posted }
{
    if due.head {
        posted || some_issued(hands, due.request)
    } else {
        is_aligned(hands, due)
    }
}

fn some_issued<H: Holder>(hands: &[H], request: u64) -> bool
    ensures { result ≡ list_any (λ holder. is_issued request (H.hand holder)) hands.now }
{
    hands.iter().any(|holder| holder.hand().is_issued(request))
}

fn is_aligned<H: Holder>(hands: &[H], due: &Due) -> bool
    ensures { result ≡ list_all (λ (place, holder). not (has due.now.lanes place)
        || is_marker due.now.request due.now.cover (H.hand holder)) (enumerate_from 0 hands.now) }
{
    hands.iter().enumerate().all(|(place, holder)| {
        !is_in(due.lanes, place) || holder.hand().is_marker(due)
    })
}

fn is_in(lanes: LaneSet, place: usize) -> bool
    ensures { result ≡ has lanes place }
{
    place < LANE_SET_BITS && has_wide_bit(lanes, place as u32)
}

fn next_tuple<H: Holder>(hands: &[H], start: u32) -> Option<u32>
    requires few { length hands.now ≤ MAX_LANES_IN }
    requires start { start < length hands.now }
    ensures { result ≡ next_tuple_of start (map H.hand hands.now) }
{
    let (before, from) = hands.split_at(start as usize);
    match first_tuple(from) {
        Some(place) => Some(start + place as u32),
        None => match first_tuple(before) {
            Some(place) => Some(place as u32),
            None => None,
        },
    }
}

fn first_tuple<H: Holder>(hands: &[H]) -> Option<usize>
    ensures { result ≡ position (λ holder. is_tuple (H.hand holder)) hands.now }
{
    hands.iter().position(|holder| holder.hand().is_tuple())
}

fn all_last<H: Holder>(hands: &[H]) -> bool
    ensures { result ≡ list_all (λ holder. is_last (H.hand holder)) hands.now }
{
    hands.iter().all(|holder| holder.hand().is_last())
}
