// The lanes into a worker, with masks over its hands.
ghost use Rattle.std.specs.Prelude.{◌≡◌, ◌+◌, ◌<◌, ◌≤◌, ◌++◌, [], ◌∷◌, IsTrue, None, Some, false};
ghost use Rattle.std.specs.Prelude.{◌↔◌, length, map, slice_get};
ghost use Rattle.std.specs.Option.{option_copied};
ghost use Rattle.marker_align.specs.Decision.{decided, next_tuple as next_tuple_of, turn};
ghost use Rattle.marker_align.specs.declared.held.Hand.TheVariants.{Empty, Holds};
ghost use Rattle.sink_journal.specs.declared.journal.Entry.TheVariants.{Met};
ghost use Rattle.tuple_trace.specs.declared.tuple.Item.TheVariants.{Carry};
ghost use Rattle.tuple_trace.specs.declared.tuple.Tuple.{Tuple as TupleIs};
ghost use Rattle.flow_worker.specs.Endpoints.{Filled, LaneInIs, all_taken};
ghost use Rattle.flow_worker.specs.Masks.{FilledAt, IsMaskOf, has_empty, issued_of};
ghost use Rattle.flow_worker.specs.Pairs.{EachOne, EachPair};
ghost use Rattle.flow_worker.specs.Steps.{HasTuple, all_emptied, emptied, ended_entries, laid_down};
ghost use Rattle.flow_worker.specs.Steps.{marked_entries};

use crate::acts::{note_ends, note_markers, note_tuple, tuple_at};
use crate::lane_in::LaneIn;
use crate::masks::{all_places, first_from, take_place, with_place, without};
use lane_core::Lanes;
use marker_align::{Act, Due, Hand, Holder, LaneSet, MAX_LANES_IN, decide_among};
use sink_journal::Entry;
use std::marker::Model;
use tuple_trace::{Item, Reserved, Tuple};

/// The lanes into a worker, 1 to 127, in the order of their numbers. Masks over their hands stand
/// beside them.
#[derive(Drop)]
pub struct LanesIn<L: Lanes> {
    lanes: Vec<LaneIn<L>>,
    // The places of the empty hands.
    empty: LaneSet,
    // The places of the hands that hold a tuple.
    tuples: LaneSet,
    // No tuple in hand was fed after this request.
    newest: u64,
}

impl<L: Lanes> Model for LanesIn<L> {
    ghost use Rattle.std.specs.Prelude.{List};
    ghost use Rattle.flow_worker.specs.Endpoints.{LaneInIs};
    ghost use Rattle.flow_worker.specs.Masks.{AreMasks};

    ghost Value = { List LaneInIs };

    ghost view = { λ o. o.lanes.items };

    ghost invariant = { λ o. AreMasks o.empty o.tuples o.newest o.lanes.items };
}

impl<L: Lanes> LanesIn<L> {
    /// Keeps new lanes. Takes no memory.
    pub fn new(lanes: Vec<LaneIn<L>>) -> LanesIn<L>
        requires few { length lanes.items ≤ MAX_LANES_IN }
        requires hands { EachOne (λ (a : LaneInIs). a.hand ≡ Empty) lanes.items }
        ensures { result ≡ lanes.items }
    {
        let empty = all_places(lanes.len());
        LanesIn {
            lanes,
            empty,
            tuples: 0,
            newest: 0,
        }
    }

    /// Returns how many lanes there are.
    pub fn len(&self) -> usize
        ensures is { result ≡ length self.now }
        ensures few { result ≤ MAX_LANES_IN }
    {
        self.lanes.len()
    }

    /// Returns the lanes. Takes no memory.
    pub fn into_vec(self) -> Vec<LaneIn<L>>
        ensures { result.items ≡ self }
    {
        let LanesIn { lanes, .. } = self;
        lanes
    }

    /// Takes into each empty hand. Returns whether any took an item.
    pub fn fill(&mut self, need: &mut L::Need) -> bool
        ensures filled { EachPair Filled self.old self.new }
        ensures moved { IsTrue result ↔ (all_taken self.old < all_taken self.new) }
    {
        if self.len() == 1 {
            return self.fill_at(0, need);
        }
        self.fill_each(need)
    }

    // Apart, so that a worker with one lane doesn't pay for masks.
    #[inline(never)]
    fn fill_each(&mut self, need: &mut L::Need) -> bool
        ensures filled { EachPair Filled self.old self.new }
        ensures moved { IsTrue result ↔ (all_taken self.old < all_taken self.new) }
    {
        let mut moved = false;
        let mut left = self.empty_places();
        while let Some(place) = take_place(&mut left) {
            if self.fill_at(place, need) {
                moved = true;
            }
        }
        moved
    }

    fn empty_places(&self) -> LaneSet
        ensures { IsMaskOf has_empty result self.now }
    {
        self.empty
    }

    // Takes into the empty hand at a place. Returns whether it took an item. It is inlined, since a
    // shift of a mask costs nothing where the place is known.
    #[inline(always)]
    fn fill_at(&mut self, place: u32, need: &mut L::Need) -> bool
        requires within { place < length self.old }
        ensures filled { FilledAt place self.old self.new }
        ensures moved { IsTrue result ↔ (all_taken self.old < all_taken self.new) }
    {
        let lane = &mut self.lanes[place as usize];
        if !lane.fill(need) {
            return false;
        }
        self.empty = with_place(self.empty, place, false);
        if let Some(issued) = issued_in(lane.hand()) {
            self.tuples = with_place(self.tuples, place, true);
            if self.newest < issued {
                self.newest = issued;
            }
        }
        true
    }

    /// Decides by the rules of [`decide_among`]. The masks answer but for turns and ends.
    pub fn decide(&self, due: Option<&Due>, posted: bool, start: u32) -> Act
        requires start { start < length self.now }
        ensures { result ≡ decided (map (λ (a : LaneInIs). a.hand) self.now)
            (option_copied due.entry) posted start }
    {
        if self.tuples | self.empty == 0 || self.may_turn(due, posted) {
            return decide_among(self.lanes.as_slice(), due, posted, start);
        }
        match self.next_tuple(start) {
            Some(place) => Act::Process(place),
            None => Act::Nothing,
        }
    }

    // Whether the due may turn as far as the masks show. Where not, it may not.
    fn may_turn(&self, due: Option<&Due>, posted: bool) -> bool
        ensures { result ≡ false
            → turn (map (λ (a : LaneInIs). a.hand) self.now) (option_copied due.entry) posted
            ≡ None }
    {
        let Some(due) = due else {
            return false;
        };
        if due.head {
            posted || due.request <= self.newest
        } else {
            due.lanes & (self.empty | self.tuples) == 0
        }
    }

    // The first place with a tuple from `start` on, going round.
    fn next_tuple(&self, start: u32) -> Option<u32>
        requires start { start < length self.now }
        ensures { result ≡ next_tuple_of start (map (λ (a : LaneInIs). a.hand) self.now) }
    {
        match first_from(self.tuples, start) {
            Some(place) => Some(place),
            None => first_from(self.tuples, 0),
        }
    }

    /// Notes the markers of the due in the journal, place by place, and empties their hands.
    pub fn note_markers(&mut self, due: &Due, journal: &mut Reserved<Entry>)
        requires memory { length journal.old.items + length self.old < journal.old.memory }
        ensures ins { self.new ≡ emptied due.now.lanes 0 self.old }
        ensures journal { journal.new.items ≡ journal.old.items
            ++ marked_entries due.now.lanes due.now.request 0 self.old }
        ensures memory { length journal.new.items < journal.new.memory }
    {
        note_markers(&mut self.lanes, due, journal);
        self.empty |= due.lanes & all_places(self.lanes.len());
        self.tuples = without(self.tuples, due.lanes);
    }

    /// Notes the end of each lane, and empties its hand.
    pub fn note_ends(&mut self, journal: &mut Reserved<Entry>)
        requires memory { length journal.old.items + length self.old ≤ journal.old.memory }
        ensures ins { self.new ≡ all_emptied self.old }
        ensures journal { journal.new.items ≡ journal.old.items ++ ended_entries self.old }
    {
        note_ends(&mut self.lanes, journal);
        self.empty = all_places(self.lanes.len());
        self.tuples = 0;
    }

    /// Returns the tuple in the hand at a place.
    pub fn tuple_at(&self, place: u32) -> &Tuple
        requires within { place < length self.now }
        requires held { HasTuple self.now place }
        ensures { (a : LaneInIs) → slice_get self.now place ≡ Some a
            → a.hand ≡ Holds (Carry result.now) }
    {
        tuple_at(&self.lanes, place)
    }

    /// Notes the tuple in the hand at a place in the journal, and empties the hand.
    pub fn note_tuple(&mut self, place: u32, journal: &mut Reserved<Entry>)
        requires within { place < length self.old }
        requires held { HasTuple self.old place }
        requires memory { length journal.old.items < journal.old.memory }
        ensures ins { self.new ≡ laid_down place self.old }
        ensures journal { (a : LaneInIs) (t : TupleIs) → slice_get self.old place ≡ Some a
            → a.hand ≡ Holds (Carry t)
            → journal.new.items ≡ journal.old.items ++ Met a.number t ∷ [] }
    {
        self.empty = with_place(self.empty, place, true);
        self.tuples = with_place(self.tuples, place, false);
        note_tuple(&mut self.lanes, place, journal);
    }
}

// The request that was issued latest when the row of the tuple in hand was fed.
fn issued_in(hand: &Hand) -> Option<u64>
    ensures { result ≡ issued_of hand.now }
{
    match hand {
        Hand::Holds(Item::Carry(tuple)) => Some(tuple.issued),
        _ => None,
    }
}
