ghost use Rattle.std.specs.Prelude.{◌≡◌, ℕ, ◌+◌, ◌<◌, ◌≤◌, [], ◌∷◌, ◌++◌, length, OnOk, OnErr};
ghost use Rattle.std.specs.Prelude.{◌↔◌, IsTrue};
ghost use Rattle.flow_worker.specs.Pairs.{EachOne, EachPair};
ghost use Rattle.flow_worker.specs.Endpoints.{Flushed, HasRoomFor, IsSteadyOut, LaneOutIs};
ghost use Rattle.flow_worker.specs.Endpoints.{Reserved};
ghost use Rattle.flow_worker.specs.Endpoints.{SameButMemory, sent_in_all, is_waiting, lane_out_of};
ghost use Rattle.flow_worker.specs.Parts.{endpoint_out};

use lane_core::{Lanes, Tx};
use std::alloc::Global;
use std::collections::VecDeque;
use std::marker::Model;
use tuple_trace::{Item, NoMemory};

/// A lane out of a worker: its sending endpoint, the items that wait for room, and its edge.
#[derive(Drop)]
pub struct LaneOut<L: Lanes> {
    end: L::Tx,
    waiting: VecDeque<Item>,
    edge: u32,
}

impl<L: Lanes> Model for LaneOut<L> {
    ghost use Rattle.std.specs.VecDeque.{deque_capacity};
    ghost use Rattle.flow_worker.specs.Endpoints.{LaneOutIs, lane_out_of};

    ghost Value = { LaneOutIs };

    ghost view = { λ o.
        lane_out_of (L.Tx.state o.end) o.edge o.waiting.items (deque_capacity o.waiting) };
}

impl<L: Lanes> LaneOut<L> {
    /// Makes the lane of an endpoint, on which nothing waits. Takes no memory.
    pub fn new(alloc: Global, end: L::Tx, edge: u32) -> LaneOut<L>
        ensures { result ≡ lane_out_of (L.Tx.state end) edge [] result.memory }
    {
        LaneOut {
            end,
            waiting: VecDeque::new(alloc),
            edge,
        }
    }

    /// Returns the number of its edge.
    pub fn edge(&self) -> u32
        ensures { result ≡ self.now.edge }
    {
        self.edge
    }

    /// Returns whether an item waits for room.
    pub fn is_waiting(&self) -> bool
        ensures { result ≡ is_waiting self.now }
    {
        !self.waiting.is_empty()
    }

    /// Takes memory for `more` further waiting items.
    pub fn reserve(&mut self, more: usize) -> Result<(), NoMemory>
        ensures ok { OnOk result (HasRoomFor more self.new) }
        ensures same { SameButMemory self.old self.new }
    {
        if self.waiting.reserve(more).is_err() {
            return Err(NoMemory);
        }
        Ok(())
    }

    /// Adds an item behind the waiting ones, in reserved memory.
    pub fn push(&mut self, item: Item)
        requires room { length self.old.waiting < self.old.memory }
        ensures { self.new ≡ record self.old { waiting = self.old.waiting ++ item ∷ [] } }
    {
        self.waiting.push_back_reserved(item);
    }

    /// Puts waiting items, in order, until the lane is full or none waits.
    /// Returns whether it put one.
    #[inline(always)]
    pub fn flush(&mut self, need: &mut L::Need) -> bool
        requires steady { IsSteadyOut self.old }
        ensures flushed { Flushed self.old self.new }
        ensures moved { IsTrue result ↔ (length self.old.sent < length self.new.sent) }
        ensures memory { self.new.memory ≡ self.old.memory }
    {
        let mut moved = false;
        while let Some(item) = self.waiting.pop_front() {
            if let Err(back) = self.end.put(need, item) {
                self.waiting.push_front_reserved(back);
                return moved;
            }
            moved = true;
        }
        moved
    }

    /// Returns the endpoint of a lane on which nothing waits.
    pub fn end(self) -> L::Tx
        requires done { self.waiting ≡ [] }
        ensures { L.Tx.state result ≡ endpoint_out self }
    {
        let LaneOut { end, .. } = self;
        end
    }
}

/// Puts waiting items, lane by lane, until the lane is full or none waits.
/// Returns whether it put one.
pub fn flush_all<L: Lanes>(outs: &mut [LaneOut<L>], need: &mut L::Need) -> bool
    requires steady { EachOne IsSteadyOut outs.old }
    ensures flushed { EachPair Flushed outs.old outs.new }
    ensures moved { IsTrue result ↔ (sent_in_all outs.old < sent_in_all outs.new) }
{
    let mut moved = false;
    for out in outs {
        if out.flush(need) {
            moved = true;
        }
    }
    moved
}

/// Takes memory for `more` further waiting items on each lane.
pub fn reserve_each<L: Lanes>(outs: &mut [LaneOut<L>], more: usize) -> Result<(), NoMemory>
    ensures ok { OnOk result (EachPair (Reserved more) outs.old outs.new) }
    ensures err { OnErr result (EachPair SameButMemory outs.old outs.new) }
{
    for out in outs {
        if out.reserve(more).is_err() {
            return Err(NoMemory);
        }
    }
    Ok(())
}
