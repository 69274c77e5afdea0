ghost use Rattle.std.specs.Prelude.{◌≡◌, ◌<◌, ◌++◌, ◌∷◌, [], IfOk, OnOk, OnErr, length};
ghost use Rattle.std.specs.Prelude.{option_copied, slice_get, slice_set};

use crate::{Births, Fields, NoMemory, Value};
use std::alloc::Global;
use std::marker::Model;

/// One processing of a tuple: at which worker of which node, and under which request.
#[derive(Clone, Copy, Debug, PartialEq, Eq)]
pub struct Visit {
    /// The number of the node.
    pub node: u32,
    /// The place of the worker among those of its node, from 0.
    pub worker: u32,
    /// The latest request that had turned at that worker, 0 where none had.
    pub last: u64,
}

/// A trace: the visits of a tuple and of those that it descends from, the earliest first.
///
/// Visits are only appended, so copies of a trace are free to share their memory.
#[derive(Clone, Debug, Drop)]
pub struct Visits {
    visits: Vec<Visit>,
}

impl Model for Visits {
    ghost use Rattle.std.specs.Prelude.{List};
    ghost use Rattle.tuple_trace.specs.declared.tuple.Visit.{Visit};

    ghost Value = { List Visit };

    ghost view = { λ a. a.visits.items };
}

impl Visits {
    /// The empty trace. Takes no memory.
    pub fn new(alloc: Global) -> Self
        ensures { result ≡ [] }
    {
        Visits {
            visits: Vec::new(alloc),
        }
    }

    /// How many visits there are.
    pub fn len(&self) -> usize
        ensures { result ≡ length self.now }
    {
        self.visits.len()
    }

    /// The visit at a place, counted from 0. None where there are not so many.
    pub fn get(&self, place: usize) -> Option<&Visit>
        ensures { option_copied result ≡ slice_get self.now place }
    {
        self.visits.get(place)
    }

    /// Appends a visit. After [`NoMemory`] the trace is as before.
    pub fn push(&mut self, visit: Visit) -> Result<(), NoMemory>
        ensures ok { OnOk result (self.new ≡ self.old ++ visit ∷ []) }
        ensures err { OnErr result (self.new ≡ self.old) }
    {
        self.visits.push(visit)?;
        Ok(())
    }
}

impl Visits {
    /// The trace with one more visit, in no more memory than it needs.
    pub fn with(&self, visit: Visit) -> Result<Visits, NoMemory>
        ensures { IfOk result (λ made. made ≡ self.now ++ visit ∷ []) }
    {
        let seen = self.visits.as_slice();
        let mut visits = Vec::with_capacity(*self.visits.allocator(), seen.len() + 1)?;
        visits.extend_from_slice(seen)?;
        visits.push(visit)?;
        Ok(Visits { visits })
    }
}

/// What flows. Its identity is (row, birth): no two tuples that meet one node share it.
#[derive(Clone, Debug, Drop)]
pub struct Tuple {
    /// The number of the source row that it descends from, counted from 1.
    pub row: u64,
    pub birth: Births,
    /// How many requests had been issued when its row was fed.
    pub issued: u64,
    pub fields: Fields,
    pub trace: Visits,
}

impl Tuple {
    /// An equal tuple.
    pub fn copy(&self) -> Result<Tuple, NoMemory>
        ensures { IfOk result (λ copy. copy ≡ self.now) }
    {
        Ok(self.clone()?)
    }

    /// An equal tuple, born as the output with this index.
    pub fn child(&self, index: u32) -> Result<Tuple, NoMemory>
        ensures { IfOk result (λ child. child
            ≡ record self.now { birth = self.now.birth ++ index ∷ [] }) }
    {
        Ok(Tuple {
            row: self.row,
            birth: self.birth.with(*self.trace.visits.allocator(), index)?,
            issued: self.issued,
            fields: self.fields.clone()?,
            trace: self.trace.clone()?,
        })
    }

    /// An equal tuple, fed once `issued` requests were issued.
    pub fn under(&self, issued: u64) -> Result<Tuple, NoMemory>
        ensures { IfOk result (λ made. made ≡ record self.now { issued = issued }) }
    {
        let mut made = self.copy()?;
        made.issued = issued;
        Ok(made)
    }

    /// An equal tuple, with one more visit in its trace.
    pub fn visiting(&self, visit: Visit) -> Result<Tuple, NoMemory>
        ensures { IfOk result (λ made. made
            ≡ record self.now { trace = self.now.trace ++ visit ∷ [] }) }
    {
        Ok(Tuple {
            row: self.row,
            birth: self.birth.clone()?,
            issued: self.issued,
            fields: self.fields.clone()?,
            trace: self.trace.with(visit)?,
        })
    }

    /// Puts a value in the place of a field. After [`NoMemory`] the tuple is as before.
    pub fn write(&mut self, place: usize, value: Value) -> Result<(), NoMemory>
        requires { place < length self.old.fields }
        ensures ok { OnOk result (self.new
            ≡ record self.old { fields = slice_set self.old.fields place value }) }
        ensures err { OnErr result (self.new ≡ self.old) }
    {
        let alloc = *self.trace.visits.allocator();
        self.fields.set(alloc, place, value)
    }

    /// The tuple with one more visit in its trace. A refusal gives the tuple up.
    pub fn visited(mut self, visit: Visit) -> Result<Tuple, NoMemory>
        ensures { IfOk result (λ tuple. tuple ≡ record self { trace = self.trace ++ visit ∷ [] }) }
    {
        self.trace.push(visit)?;
        Ok(self)
    }
}

/// What a lane carries.
#[derive(Debug, Drop)]
pub enum Item {
    /// A tuple on its way.
    Carry(Tuple),
    /// The marker of a request, with the mask of the nodes that the request covers.
    Mark { request: u64, cover: u64 },
    /// The end of the lane: nothing follows.
    Last,
}
