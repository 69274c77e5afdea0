ghost use Rattle.std.specs.Prelude.{◌≡◌, ◌<◌, ◌^◌, ◌-◌, IfOk, IfSome, length, slice_get};
ghost use Rattle.std.specs.Prelude.{option_map, Some};
ghost use Rattle.versions.specs.Book.{accepted, first_book, with_change, CanAccept, HasRoom};

use crate::Request;
use crate::request::copy_of;
use jobs::{Func, Job};
use std::alloc::Global;
use std::marker::Model;
use tuple_trace::NoMemory;

/// The function of a node, and its version: how many changes of it were accepted.
#[derive(Debug, Drop)]
pub struct Current {
    pub version: u64,
    pub func: Func,
}

/// The current function and version of each node. Contracts see the list of them, by the numbers of
/// the nodes.
#[derive(Debug, Drop)]
pub struct Book {
    entries: Vec<Current>,
}

impl Model for Book {
    ghost use Rattle.std.specs.Prelude.{List};
    ghost use Rattle.versions.specs.declared.book.Current.{Current};

    ghost Value = { List Current };

    ghost view = { λ b. b.entries.items };
}

impl Book {
    /// Version 0, and the function that the job gives it, for every node.
    pub fn of(alloc: Global, job: &Job) -> Result<Book, NoMemory>
        ensures { IfOk result (λ book. book ≡ first_book job.now.nodes) }
    {
        let mut entries = Vec::new(alloc);
        for node in job.nodes.as_slice() {
            let func = copy_of(&node.func)?;
            entries.push(Current { version: 0, func })?;
        }
        Ok(Book { entries })
    }

    /// An equal book.
    pub fn copy(&self) -> Result<Book, NoMemory>
        ensures { IfOk result (λ copy. copy ≡ self.now) }
    {
        let mut entries = Vec::new(*self.entries.allocator());
        for current in self.entries.as_slice() {
            let func = copy_of(&current.func)?;
            entries.push(Current {
                version: current.version,
                func,
            })?;
        }
        Ok(Book { entries })
    }

    /// How many nodes there are.
    pub fn node_count(&self) -> usize
        ensures { result ≡ length self.now }
    {
        self.entries.len()
    }

    /// How many changes of a node were accepted. Takes no memory.
    pub fn version(&self, node: u32) -> u64
        requires { node < length self.now }
        ensures { option_map (λ current. current.version) (slice_get self.now node) ≡ Some result }
    {
        self.entries[node as usize].version
    }

    /// The current function of a node. Takes no memory.
    pub fn func(&self, node: u32) -> &Func
        requires { node < length self.now }
        ensures { option_map (λ current. current.func) (slice_get self.now node) ≡ Some result.now }
    {
        &self.entries[node as usize].func
    }

    pub(crate) fn as_slice(&self) -> &[Current]
        ensures { result.now ≡ self.now }
    {
        self.entries.as_slice()
    }

    /// Gives a node a new function and the next version.
    pub(crate) fn change(&mut self, node: u32, func: Func)
        requires there { node < length self.old }
        requires room { HasRoom self.old node }
        ensures { self.new ≡ with_change self.old node func }
    {
        let version = self.entries[node as usize].version + 1;
        self.entries[node as usize] = Current { version, func };
    }
}

/// The book once a request is accepted: each node that it changes has the new function and the next
/// version.
pub fn accept(book: &Book, request: &Request) -> Result<Book, NoMemory>
    requires { CanAccept book.now request.now.changes }
    ensures { IfOk result (λ next. next ≡ accepted book.now request.now.changes) }
{
    let mut next = book.copy()?;
    for change in request.changes.as_slice() {
        let func = copy_of(&change.func)?;
        next.change(change.node, func);
    }
    Ok(next)
}
