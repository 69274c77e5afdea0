// The lanes out of a worker, with a mask of those on which an item waits.
ghost use Rattle.std.specs.Prelude.{◌≡◌, ◌<◌, ◌≤◌, [], ◌∷◌, IsTrue, OnErr, OnOk, get_or};
ghost use Rattle.std.specs.Prelude.{◌↔◌, if◌then◌else◌, length, ◌++◌};
ghost use Rattle.std.specs.List.{list_any};
ghost use Rattle.flow_dag.specs.Masks.{has};
ghost use Rattle.tuple_trace.specs.declared.tuple.Item.TheVariants.{Mark, Last};
ghost use Rattle.flow_worker.specs.Endpoints.{Appended, Flushed, HasRoomFor, IsSteadyOut};
ghost use Rattle.flow_worker.specs.Endpoints.{LaneOutIs};
ghost use Rattle.flow_worker.specs.Endpoints.{Reserved, SameButMemory, sent_in_all, is_waiting};
ghost use Rattle.flow_worker.specs.Masks.{FlushedAt, IsMarkOf};
ghost use Rattle.flow_worker.specs.Pairs.{EachOne, EachPair};
ghost use Rattle.flow_worker.specs.Steps.{PushedAt};

use crate::acts::{push_ends, push_markers};
use crate::lane_out::{LaneOut, flush_all, reserve_each};
use crate::masks::{first_places, take_place, with_place};
use flow_dag::MAX_EDGES;
use lane_core::Lanes;
use marker_align::{Due, LANE_SET_BITS};
use std::marker::Model;
use tuple_trace::{Item, NoMemory};

/// The lanes out of a worker, in the order of their numbers. A mask of those on which an item waits
/// stands beside them. It has room for the first 128; of a worker with more, each lane is asked.
#[derive(Drop)]
pub struct LanesOut<L: Lanes> {
    lanes: Vec<LaneOut<L>>,
    // All of the first 128 places on which an item waits.
    waiting: u128,
    // Each lane has memory for this many items.
    room: usize,
}

impl<L: Lanes> Model for LanesOut<L> {
    ghost use Rattle.std.specs.Prelude.{List};
    ghost use Rattle.flow_worker.specs.Endpoints.{LaneOutIs};
    ghost use Rattle.flow_worker.specs.Masks.{AreMarked};

    ghost Value = { List LaneOutIs };

    ghost view = { λ o. o.lanes.items };

    ghost invariant = { λ o. AreMarked o.waiting o.room o.lanes.items };
}

impl<L: Lanes> LanesOut<L> {
    /// Keeps new lanes. Takes no memory.
    pub fn new(lanes: Vec<LaneOut<L>>) -> LanesOut<L>
        requires { EachOne (λ (out : LaneOutIs). out.waiting ≡ []) lanes.items }
        ensures { result ≡ lanes.items }
    {
        LanesOut {
            lanes,
            waiting: 0,
            room: 0,
        }
    }

    /// Returns the lanes. Takes no memory.
    pub fn into_vec(self) -> Vec<LaneOut<L>>
        ensures { result.items ≡ self }
    {
        let LanesOut { lanes, .. } = self;
        lanes
    }

    /// Returns whether an item waits on some lane.
    pub fn is_waiting(&self) -> bool
        ensures { result ≡ list_any is_waiting self.now }
    {
        if self.waiting == 0 && self.lanes.len() <= LANE_SET_BITS {
            return false;
        }
        self.lanes.iter().any(|out| out.is_waiting())
    }

    /// Puts waiting items, lane by lane, until the lane is full or none waits.
    /// Returns whether it put one.
    pub fn flush(&mut self, need: &mut L::Need) -> bool
        requires steady { EachOne IsSteadyOut self.old }
        ensures flushed { EachPair Flushed self.old self.new }
        ensures moved { IsTrue result ↔ (sent_in_all self.old < sent_in_all self.new) }
    {
        if self.len() == 1 {
            return self.flush_at(0, need);
        }
        self.flush_marked(need)
    }

    // Apart, so that a worker with one lane doesn't pay for masks.
    #[inline(never)]
    fn flush_marked(&mut self, need: &mut L::Need) -> bool
        requires steady { EachOne IsSteadyOut self.old }
        ensures flushed { EachPair Flushed self.old self.new }
        ensures moved { IsTrue result ↔ (sent_in_all self.old < sent_in_all self.new) }
    {
        if self.len() > LANE_SET_BITS {
            return self.flush_each(need);
        }
        let mut moved = false;
        let mut left = self.waiting_places();
        while let Some(place) = take_place(&mut left) {
            if (place as usize) < self.len() && self.flush_at(place, need) {
                moved = true;
            }
        }
        moved
    }

    fn len(&self) -> usize
        ensures { result ≡ length self.now }
    {
        self.lanes.len()
    }

    fn waiting_places(&self) -> u128
        ensures { IsMarkOf result self.now }
    {
        self.waiting
    }

    // Puts waiting items of the lane at a place. Returns whether it put one. It is inlined, since a
    // shift of a mask costs nothing where the place is known.
    #[inline(always)]
    fn flush_at(&mut self, place: u32, need: &mut L::Need) -> bool
        requires within { place < length self.old }
        requires steady { EachOne IsSteadyOut self.old }
        ensures flushed { FlushedAt place self.old self.new }
        ensures moved { IsTrue result ↔ (sent_in_all self.old < sent_in_all self.new) }
    {
        let lane = &mut self.lanes[place as usize];
        let moved = lane.flush(need);
        if !lane.is_waiting() && (place as usize) < LANE_SET_BITS {
            self.waiting = with_place(self.waiting, place, false);
        }
        moved
    }

    fn flush_each(&mut self, need: &mut L::Need) -> bool
        requires steady { EachOne IsSteadyOut self.old }
        ensures flushed { EachPair Flushed self.old self.new }
        ensures moved { IsTrue result ↔ (sent_in_all self.old < sent_in_all self.new) }
    {
        self.room = 0;
        self.waiting = u128::MAX;
        flush_all(&mut self.lanes, need)
    }

    /// Takes memory for `more` further waiting items on each lane.
    pub fn reserve(&mut self, more: usize) -> Result<(), NoMemory>
        ensures ok { OnOk result (EachPair (Reserved more) self.old self.new) }
        ensures err { OnErr result (EachPair SameButMemory self.old self.new) }
    {
        if more <= self.room && !self.is_waiting() {
            return Ok(());
        }
        self.reserve_each(more)
    }

    #[inline(never)]
    fn reserve_each(&mut self, more: usize) -> Result<(), NoMemory>
        ensures ok { OnOk result (EachPair (Reserved more) self.old self.new) }
        ensures err { OnErr result (EachPair SameButMemory self.old self.new) }
    {
        self.room = 0;
        if reserve_each(&mut self.lanes, more).is_err() {
            return Err(NoMemory);
        }
        self.room = more;
        Ok(())
    }

    /// Adds an item behind the waiting ones of the lane at a place, in reserved memory.
    pub fn push_at(&mut self, place: usize, item: Item)
        requires within { place < length self.old }
        requires room { (d : LaneOutIs) → HasRoomFor 1 (get_or self.old place d) }
        ensures { PushedAt place item self.old self.new }
    {
        self.lanes[place].push(item);
        if self.lanes.len() == 1 {
            self.waiting = 1;
        } else if place < LANE_SET_BITS {
            self.waiting = with_place(self.waiting, place as u32, true);
        }
    }

    /// Adds the marker of the due to the waiting items of each lane whose edge is in the mask.
    pub fn push_markers(&mut self, edges: u128, due: &Due)
        requires room { EachOne (HasRoomFor 1) self.old }
        requires edges { EachOne (λ (out : LaneOutIs). out.edge < MAX_EDGES) self.old }
        ensures { EachPair (Appended (λ out. if has edges out.edge
            then Mark due.now.request due.now.cover ∷ [] else [])) self.old self.new }
    {
        self.room = 0;
        self.waiting = first_places(self.lanes.len());
        push_markers(&mut self.lanes, edges, due);
    }

    /// Adds `Last` to the waiting items of each lane.
    pub fn push_ends(&mut self)
        requires room { EachOne (HasRoomFor 1) self.old }
        ensures { EachPair (Appended (λ out. Last ∷ [])) self.old self.new }
    {
        self.room = 0;
        self.waiting = first_places(self.lanes.len());
        push_ends(&mut self.lanes);
    }
}
