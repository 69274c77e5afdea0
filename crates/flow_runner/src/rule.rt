ghost use Rattle.std.specs.Prelude.{ℕ, ◌+◌, ◌-◌, ◌≡◌, ◌++◌, ◌∷◌, []};

use crate::charter::Charter;
use crate::runner::Runner;
use crossbeam_queue::RuledSegQueue;
use crossbeam_queue::protocol::{Join, Lesson, Outcome, Protocol, Split};
use lane_core::Lanes;
use std::collections::LinkedList;
use std::marker::PhantomData;

/// What a pass counts: its parts, and the numbers of the runners that it popped and hasn't pushed
/// back. No value of it is made.
pub struct Tally {
    pub parts: u64,
    pub list: LinkedList<u32>,
}

/// The rule of the queue: the queue and the passes have each runner once.
pub struct EachOnce<C> {
    of: PhantomData<C>,
}

impl<'s, L: Lanes, C: Charter> Protocol<Runner<'s, L, C>, Tally> for EachOnce<C> {
    ghost use Rattle.std.specs.Prelude.{length};
    ghost use Rattle.tuple_trace.specs.declared.limits.TheConstants.{MAX_THREADS};
    ghost use Rattle.flow_runner.specs.Rule.{tally, all_below, IsEachOnce};

    ghost holds = { λ items views. IsEachOnce C.endpoints items views };

    ghost first = { tally MAX_THREADS (all_below (length C.endpoints)) };
}

/// The step of a pop.
pub struct Takes<C> {
    of: PhantomData<C>,
}

impl<'s, L: Lanes, C: Charter> Outcome<Runner<'s, L, C>, Tally> for Takes<C> {
    ghost use Rattle.std.specs.Prelude.{◌++◌, ◌∷◌, []};
    ghost use Rattle.flow_runner.specs.Rule.{tally, HasItsEndpoints};

    ghost then = { λ v x w. (w ≡ tally v.parts (v.list ++ x.number ∷ []))
        × HasItsEndpoints C.endpoints x };
}

impl<'s, L: Lanes, C: Charter> Lesson<Runner<'s, L, C>, Tally> for Takes<C> {
    ghost use Rattle.flow_runner.specs.Rule.{HasEachWith};

    ghost fact = { λ v items. HasEachWith C.endpoints v items };
}

/// The step of a push.
pub struct Gives;

impl<'s, L: Lanes, C: Charter> Outcome<Runner<'s, L, C>, Tally> for Gives {
    ghost use Rattle.flow_runner.specs.Rule.{tally, without};

    ghost then = { λ v x w. w ≡ tally v.parts (without x.number v.list) };
}

/// The steps of giving out a pass and of taking it back.
pub struct Shares;

impl Split<Tally> for Shares {
    ghost use Rattle.std.specs.Prelude.{◌-◌, []};
    ghost use Rattle.flow_runner.specs.Rule.{tally};

    ghost left = { λ v. tally (v.parts - 1) v.list };

    ghost right = { λ v. tally 1 [] };
}

impl Join<Tally> for Shares {
    ghost use Rattle.std.specs.Prelude.{◌+◌, ◌++◌, []};
    ghost use Rattle.flow_runner.specs.Rule.{tally};

    ghost both = { λ v w. tally (v.parts + w.parts) (v.list ++ w.list) };

    ghost spent = { tally 0 [] };
}

/// The queue of the runners that no thread holds.
pub type Queue<'s, L, C> = RuledSegQueue<Runner<'s, L, C>, Tally, EachOnce<C>>;
