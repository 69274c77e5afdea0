ghost use Rattle.std.specs.Prelude.{◌≡◌, ◌++◌, true, IfOk};
ghost use Rattle.crossbeam_queue.specs.Passes.{view, IsPassOf};

use super::rule::{Drains, Line, View};
use crate::Left;
use crossbeam_queue::Pass;
use std::alloc::Global;
use std::sync::Wait;
use tuple_trace::{Item, NoMemory};

/// What lies on a line whose two passes are one.
pub fn drain<R: Wait>(
    rt: &R,
    alloc: Global,
    line: &Line,
    mut pass: Pass<Item, View>,
) -> Result<Left, NoMemory>
    requires line { IsPassOf line.now pass }
    requires puts { (view pass).puts ≡ true }
    requires takes { (view pass).takes ≡ true }
    ensures { IfOk result (λ left. (view pass).sent ≡ (view pass).taken ++ left) }
{
    let mut left = Vec::new(alloc);
    for _ in rt.forever() {
        left.reserve(1)?;
        match line.pop_as::<Drains, R>(rt, &mut pass) {
            Some(item) => left.push_reserved(item),
            None => return Ok(Left::from_vec(left)),
        }
    }
    unreachable!()
}
