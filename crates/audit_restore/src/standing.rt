// What stands on the lanes, and is still to be taken.
ghost use Rattle.std.specs.Prelude.{◌≡◌, ◌<◌, ◌++◌, ◌∷◌, [], IfOk, MatchOption, OnOk, get_or};
ghost use Rattle.std.specs.Prelude.{length, replicate, slice_set};
ghost use Rattle.audit_restore.specs.Standing.{HasTaken, left_on};

use std::alloc::Global;
use std::collections::VecDeque;
use std::marker::Model;
use tuple_trace::{Item, Items, NoMemory};

/// The items that stand on each lane, by the lanes' numbers.
#[derive(Drop)]
pub(crate) struct Standing {
    lanes: Vec<VecDeque<Item>>,
}

impl Model for Standing {
    ghost use Rattle.std.specs.Prelude.{List, map};
    ghost use Rattle.tuple_trace.specs.declared.tuple.Item.{Item};

    ghost Value = { List (List Item) };

    ghost view = { λ s. map (λ queue. queue.items) s.lanes.items };
}

impl Standing {
    /// No item on any of `lanes` lanes.
    pub(crate) fn empty(alloc: Global, lanes: usize) -> Result<Standing, NoMemory>
        ensures { IfOk result (λ standing. standing ≡ replicate lanes []) }
    {
        let mut lists = Vec::new(alloc);
        for _lane in 0..lanes {
            lists.push(VecDeque::new(alloc))?;
        }
        Ok(Standing { lanes: lists })
    }

    /// How many lanes there are.
    pub(crate) fn len(&self) -> usize
        ensures { result ≡ length self.now }
    {
        self.lanes.len()
    }

    /// What stands on a lane.
    pub(crate) fn on(&self, lane: usize) -> &VecDeque<Item>
        requires { lane < length self.now }
        ensures { result.now.items ≡ left_on self.now lane }
    {
        &self.lanes[lane]
    }

    /// Puts an item on a lane.
    pub(crate) fn put(&mut self, lane: usize, item: Item) -> Result<(), NoMemory>
        requires { lane < length self.old }
        ensures { OnOk result (self.new ≡ slice_set self.old lane (get_or self.old lane []
            ++ item ∷ [])) }
    {
        self.lanes[lane].push_back(item)?;
        Ok(())
    }

    /// Puts these items in the place of what stands on a lane.
    pub(crate) fn set(&mut self, lane: usize, items: Items<Item>)
        requires { lane < length self.old }
        ensures { self.new ≡ slice_set self.old lane items }
    {
        self.lanes[lane] = VecDeque::from_vec(items.into_vec());
    }

    /// Takes the next item of a lane.
    pub(crate) fn take(&mut self, lane: usize) -> Option<Item>
        ensures item { MatchOption result (left_on self.old lane ≡ [])
            (λ item. left_on self.old lane ≡ item ∷ left_on self.new lane) }
        ensures left { HasTaken lane self.old self.new }
    {
        if lane >= self.lanes.len() {
            return None;
        }
        self.lanes[lane].pop_front()
    }
}
