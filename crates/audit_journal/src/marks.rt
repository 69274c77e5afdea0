ghost use Rattle.std.specs.Prelude.{◌≡◌, ◌↔◌, ◌∷◌, [], Contains, IsTrue, OnOk};

use std::alloc::Global;
use std::collections::VecDeque;
use std::marker::Model;
use tuple_trace::NoMemory;

/// The lanes that showed something, the latest first.
#[derive(Drop)]
pub(crate) struct Marks {
    lanes: VecDeque<u32>,
}

impl Model for Marks {
    ghost use Rattle.std.specs.Prelude.{List, ℕ};

    ghost Value = { List ℕ };

    ghost view = { λ a. a.lanes.items };
}

impl Marks {
    /// No lane. Takes no memory.
    pub(crate) fn new(alloc: Global) -> Marks
        ensures { result ≡ [] }
    {
        Marks {
            lanes: VecDeque::new(alloc),
        }
    }

    pub(crate) fn is_empty(&self) -> bool
        ensures { IsTrue result ↔ (self.now ≡ []) }
    {
        self.lanes.is_empty()
    }

    /// Whether the lane is among them.
    pub(crate) fn has(&self, lane: u32) -> bool
        ensures { IsTrue result ↔ Contains self.now lane }
    {
        self.lanes.contains(&lane)
    }

    /// Adds a lane.
    pub(crate) fn add(&mut self, lane: u32) -> Result<(), NoMemory>
        ensures { OnOk result (self.new ≡ lane ∷ self.old) }
    {
        self.lanes.push_front(lane)?;
        Ok(())
    }

    /// Forgets all lanes.
    pub(crate) fn clear(&mut self)
        ensures { self.new ≡ [] }
    {
        self.lanes.clear();
    }
}
