ghost use Rattle.std.specs.Prelude.{◌≡◌, IfOk};

use jobs::Func;
use keyed_state::Carry;
use std::alloc::Global;
use tuple_trace::{Items, NoMemory};

/// A new function for a node.
#[derive(Debug, Drop)]
pub struct Change {
    /// The number of the node.
    pub node: u32,
    /// The version of the node that the change was written for: the number of changes accepted on
    /// it before.
    pub from: u64,
    pub func: Func,
    /// What becomes of the node's counts.
    pub carry: Carry,
}

/// The changes of a request, counted from 1.
pub type Changes = Items<Change>;

/// Changes that come into force together.
#[derive(Debug, Drop)]
pub struct Request {
    /// The number of the row directly after which it is issued; the last row where there are fewer.
    pub after: u64,
    pub changes: Changes,
}

/// Requests in the order of their file, counted from 1.
pub type Requests = Items<Request>;

impl Change {
    /// An equal change.
    pub fn copy(&self) -> Result<Change, NoMemory>
        ensures { IfOk result (λ copy. copy ≡ self.now) }
    {
        let func = copy_of(&self.func)?;
        Ok(Change {
            node: self.node,
            from: self.from,
            func,
            carry: self.carry,
        })
    }
}

impl Request {
    /// An equal request.
    pub fn copy(&self, alloc: Global) -> Result<Request, NoMemory>
        ensures { IfOk result (λ copy. copy ≡ self.now) }
    {
        let mut changes = Changes::new(alloc);
        for change in self.changes.as_slice() {
            changes.push(change.copy()?)?;
        }
        Ok(Request {
            after: self.after,
            changes,
        })
    }
}

/// An equal function.
pub(crate) fn copy_of(func: &Func) -> Result<Func, NoMemory>
    ensures { IfOk result (λ copy. copy ≡ func.now) }
{
    Ok(func.clone()?)
}
