ghost use Rattle.std.specs.Prelude.{◌≡◌, ◌++◌, ◌∷◌, [], ℕ, ⊤};
ghost use Rattle.crossbeam_queue.specs.Passes.{view, IsPassOf, IsSamePass};
ghost use Rattle.lane_core.specs.Rule.{receiving, sending, unparted};

use crate::Origin;
use crossbeam_queue::protocol::{Join, Lesson, Outcome, Protocol, Split};
use crossbeam_queue::{Pass, RuledArrayQueue};
use std::collections::LinkedList;
use std::marker::{Brand, PhantomData};
use tuple_trace::Item;

/// The queue of a lane.
pub type Line = RuledArrayQueue<Item, View, InOrder>;

/// What a pass may do, what it has put and taken, and what is fixed of its lane. No value of it is
/// made.
pub struct View {
    pub puts: bool,
    pub takes: bool,
    pub sent: LinkedList<Item>,
    pub taken: LinkedList<Item>,
    pub capacity: u32,
    pub origin: Origin,
}

pub struct InOrder;

impl Protocol<Item, View> for InOrder {
    ghost use Rattle.lane_core.specs.Rule.{IsLane, unparted};

    ghost holds = { IsLane };

    ghost first = { unparted };
}

/// What is fixed when a lane is made.
pub trait Charter {
    ghost use Rattle.lane_core.specs.declared.form.Origin.{Origin};

    ghost capacity: { ℕ };

    ghost origin: { Origin };
}

impl Charter for Brand {
    ghost use Rattle.lane_core.specs.Rule.{nowhere};

    ghost capacity = { 0 };

    ghost origin = { nowhere };
}

struct Roles<C> {
    of: PhantomData<C>,
}

impl<C: Charter> Split<View> for Roles<C> {
    ghost use Rattle.lane_core.specs.Rule.{receiving, sending};

    ghost left = { λ v. sending v.sent C.capacity C.origin };

    ghost right = { λ v. receiving v.taken C.capacity C.origin };
}

pub struct Whole;

impl Join<View> for Whole {
    ghost use Rattle.lane_core.specs.Rule.{joined, spent};

    ghost both = { joined };

    ghost spent = { spent };
}

pub struct Puts;

impl Outcome<Item, View> for Puts {
    ghost use Rattle.lane_core.specs.Rule.{after_put};

    ghost then = { λ v x w. w ≡ after_put v x };
}

impl Lesson<Item, View> for Puts {
    ghost use Rattle.lane_core.specs.Lane.{LayLast};

    ghost fact = { λ v items. LayLast v.sent items };
}

pub struct Takes;

impl Outcome<Item, View> for Takes {
    ghost use Rattle.lane_core.specs.Steady.{IsSteady};
    ghost use Rattle.lane_core.specs.Rule.{after_take};

    ghost then = { λ v x w. (w ≡ after_take v x) × IsSteady v.origin (v.taken ++ x ∷ []) };
}

impl Lesson<Item, View> for Takes {
    ghost fact = { λ v items. ⊤ };
}

pub struct Drains;

impl Outcome<Item, View> for Drains {
    ghost use Rattle.lane_core.specs.Rule.{after_take};

    ghost then = { λ v x w. w ≡ after_take v x };
}

impl Lesson<Item, View> for Drains {
    ghost use Rattle.lane_core.specs.Rule.{HasLeft};

    ghost fact = { HasLeft };
}

/// Parts the first pass of a line in two. From here on both know the lane's capacity and origin.
pub fn part<C: Charter>(
    line: &Line,
    pass: &mut Pass<Item, View>,
    cap: u32,
    origin: Origin,
) -> Pass<Item, View>
    requires line { IsPassOf line.now pass.old }
    requires first { view pass.old ≡ unparted }
    requires charter { (cap ≡ C.capacity) × (origin ≡ C.origin) }
    ensures line { IsSamePass pass.old pass.new × IsPassOf line.now result }
    ensures sender { view pass.new ≡ sending [] cap origin }
    ensures receiver { view result ≡ receiving [] cap origin }
{
    line.another::<Roles<C>>(pass)
}
