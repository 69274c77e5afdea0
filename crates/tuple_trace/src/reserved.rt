ghost use Rattle.std.specs.Prelude.{◌≡◌, ◌+◌, ◌<◌, ◌≤◌, ◌++◌, ◌∷◌, [], OnOk, length};

use crate::{Items, NoMemory};
use std::alloc::Global;
use std::marker::Model;

/// A list that grows only within memory that was reserved before.
///
/// Contracts see its items, and how many items it has memory for.
#[derive(Debug, Drop)]
pub struct Reserved<T> {
    items: Vec<T>,
}

impl<T> Model for Reserved<T> {
    ghost use Rattle.std.specs.Vec.{vec_capacity};
    ghost use Rattle.tuple_trace.specs.Reserved.{ReservedIs};

    ghost Value = { ReservedIs T };

    ghost view = { λ a. record { items = a.items.items; memory = vec_capacity a.items } };
}

impl<T> Reserved<T> {
    /// The empty list. Takes no memory.
    pub fn new(alloc: Global) -> Self
        ensures { result.items ≡ [] }
    {
        Reserved {
            items: Vec::new(alloc),
        }
    }

    /// All items in order.
    pub fn as_slice(&self) -> &[T]
        ensures { result.now ≡ self.now.items }
    {
        self.items.as_slice()
    }

    /// How many items there are.
    pub fn len(&self) -> usize
        ensures { result ≡ length self.now.items }
    {
        self.items.len()
    }

    /// The items as a list that takes memory at each append. Takes no memory.
    pub fn into_items(self) -> Items<T>
        ensures { result ≡ self.items }
    {
        let Reserved { items } = self;
        Items::from_vec(items)
    }
}

impl<T: Drop> Reserved<T> {
    /// Reserves memory for `more` items beyond those that are there. The items stay as they are.
    pub fn reserve(&mut self, more: usize) -> Result<(), NoMemory>
        ensures items { self.new.items ≡ self.old.items }
        ensures kept { self.old.memory ≤ self.new.memory }
        ensures room { OnOk result (length self.new.items + more ≤ self.new.memory) }
    {
        self.items.reserve(more)?;
        Ok(())
    }

    /// Appends an item within the reserved memory. Takes no memory.
    pub fn push_reserved(&mut self, item: T)
        requires { length self.old.items < self.old.memory }
        ensures { self.new ≡ record self.old { items = self.old.items ++ item ∷ [] } }
    {
        self.items.push_reserved(item);
    }
}
