ghost use Rattle.std.specs.Prelude.{◌≡◌, ◌≢◌, ℕ, ◌+◌, ◌<◌, ◌≤◌, ◌↔◌, [], IsTrue, false, length};
ghost use Rattle.marker_align.specs.declared.held.Hand.TheVariants.{Empty};
ghost use Rattle.flow_worker.specs.Endpoints.{Filled, lane_in_of};
ghost use Rattle.flow_worker.specs.Masks.{is_empty_hand};
ghost use Rattle.flow_worker.specs.Parts.{endpoint_in};

use lane_core::{Lanes, Rx};
use marker_align::{Hand, Holder};
use std::marker::Model;
use std::mem;

/// A lane into a worker: its receiving endpoint, the item in hand, its number and its edge.
#[derive(Drop)]
pub struct LaneIn<L: Lanes> {
    end: L::Rx,
    hand: Hand,
    number: u32,
    edge: u32,
}

impl<L: Lanes> Model for LaneIn<L> {
    ghost use Rattle.std.specs.Prelude.{◌≡◌};
    ghost use Rattle.flow_worker.specs.Endpoints.{LaneInIs, lane_in_of};

    ghost Value = { LaneInIs };

    ghost view = { λ o. lane_in_of (L.Rx.state o.end) o.edge o.hand };

    ghost invariant = { λ o. (L.Rx.state o.end).number ≡ o.number };
}

impl<L: Lanes> Holder for LaneIn<L> {
    ghost hand = { λ a. a.hand };

    fn hand(&self) -> &Hand {
        &self.hand
    }
}

impl<L: Lanes> LaneIn<L> {
    /// Makes the lane of an endpoint, with an empty hand.
    pub fn new(end: L::Rx, number: u32, edge: u32) -> LaneIn<L>
        requires { (L.Rx.state end).number ≡ number }
        ensures { result ≡ lane_in_of (L.Rx.state end) edge Empty }
    {
        LaneIn {
            end,
            hand: Hand::Empty,
            number,
            edge,
        }
    }

    /// Returns the number of the lane.
    pub fn number(&self) -> u32
        ensures { result ≡ self.now.number }
    {
        self.number
    }

    /// Returns the number of its edge.
    pub fn edge(&self) -> u32
        ensures { result ≡ self.now.edge }
    {
        self.edge
    }

    /// Takes the next item into the hand if the hand is empty. Returns whether it took one.
    pub fn fill(&mut self, need: &mut L::Need) -> bool
        ensures filled { Filled self.old self.new }
        ensures moved { IsTrue result ↔ (length self.old.taken < length self.new.taken) }
        ensures holds { IsTrue result → is_empty_hand self.new.hand ≡ false }
        ensures kept { result ≡ false → self.new.hand ≡ self.old.hand }
    {
        if let Hand::Holds(_) = &self.hand {
            return false;
        }
        let Some(item) = self.end.take(need) else {
            return false;
        };
        match mem::replace(&mut self.hand, Hand::Holds(item)) {
            Hand::Empty => true,
            Hand::Holds(_) => unreachable!(),
        }
    }

    /// Empties the hand, and returns what it held.
    pub fn empty(&mut self) -> Hand
        ensures hand { result ≡ self.old.hand }
        ensures rest { self.new ≡ record self.old { hand = Empty } }
    {
        mem::replace(&mut self.hand, Hand::Empty)
    }

    /// Empties the hand.
    pub fn clear(&mut self)
        ensures { self.new ≡ record self.old { hand = Empty } }
    {
        self.hand = Hand::Empty;
    }

    /// Returns the endpoint.
    pub fn end(self) -> L::Rx
        ensures { L.Rx.state result ≡ endpoint_in self }
    {
        let LaneIn { end, .. } = self;
        end
    }
}
