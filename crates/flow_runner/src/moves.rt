ghost use Rattle.std.specs.Prelude.{◌≡◌, ◌<◌, ◌+◌, ◌++◌, ◌∷◌, [], IfErr, IfNone, IfOk, IfSome};
ghost use Rattle.std.specs.Prelude.{OnErr, OnOk, length};
ghost use Rattle.crossbeam_queue.specs.SegTies.{IsSegPassOf};
ghost use Rattle.flow_runner.specs.Rule.{HasItsEndpoints, HasEachOf, tally, times, all_below};
ghost use Rattle.flow_runner.specs.Rule.{without};

use crate::charter::Charter;
use crate::rule::{EachOnce, Gives, Queue, Shares, Takes, Tally};
use crate::runner::Runner;
use crossbeam_queue::{RuledSegQueue, SegPass};
use lane_core::Lanes;
use std::alloc::{AllocError, Global};
use std::sync::Wait;
use tuple_trace::MAX_THREADS;

/// Pops a runner. Its number joins the list of the pass. If the queue is empty and the pass has all
/// parts, its list has each number once.
pub fn take<'s, R: Wait, L: Lanes, C: Charter>(
    rt: &R,
    queue: &Queue<'s, L, C>,
    pass: &mut SegPass<Runner<'s, L, C>, Tally>,
) -> Option<Runner<'s, L, C>>
    requires queue { IsSegPassOf queue.now pass.old }
    requires part { 0 < pass.old.me.view.client.parts }
    ensures queue { IsSegPassOf queue.now pass.new }
    ensures agrees { IfSome result (HasItsEndpoints C.endpoints) }
    ensures some { IfSome result (λ r. pass.new.me.view.client
        ≡ tally pass.old.me.view.client.parts (pass.old.me.view.client.list ++ r.number ∷ [])) }
    ensures none { IfNone result (pass.new.me.view.client ≡ pass.old.me.view.client) }
    ensures last { IfNone result (pass.old.me.view.client.parts ≡ MAX_THREADS
        → HasEachOf (length C.endpoints) pass.new.me.view.client.list) }
{
    queue.pop_as::<Takes<C>, R>(rt, pass)
}

/// Pushes a runner whose number is in the list of the pass. The number leaves the list. The one
/// error is out of memory; it hands the runner back, and the list stays.
pub fn give<'s, R: Wait, L: Lanes, C: Charter>(
    rt: &R,
    queue: &Queue<'s, L, C>,
    pass: &mut SegPass<Runner<'s, L, C>, Tally>,
    runner: Runner<'s, L, C>,
) -> Result<(), Runner<'s, L, C>>
    requires queue { IsSegPassOf queue.now pass.old }
    requires part { 0 < pass.old.me.view.client.parts }
    requires has { 0 < times runner.number pass.old.me.view.client.list }
    requires charter { HasItsEndpoints C.endpoints runner }
    ensures queue { IsSegPassOf queue.now pass.new }
    ensures ok { OnOk result (pass.new.me.view.client ≡ tally pass.old.me.view.client.parts
        (without runner.entry.number pass.old.me.view.client.list)) }
    ensures back { IfErr result (λ r. r ≡ runner.entry) }
    ensures err { OnErr result (pass.new.me.view.client ≡ pass.old.me.view.client) }
{
    queue.push_as::<Gives, R>(rt, pass, runner)
}

/// Gives out a pass that has one of the parts, and no number.
pub fn share<'s, L: Lanes, C: Charter>(
    queue: &Queue<'s, L, C>,
    pass: &mut SegPass<Runner<'s, L, C>, Tally>,
) -> SegPass<Runner<'s, L, C>, Tally>
    requires queue { IsSegPassOf queue.now pass.old }
    requires part { 1 < pass.old.me.view.client.parts }
    ensures queue { IsSegPassOf queue.now pass.new × IsSegPassOf queue.now result }
    ensures left { pass.new.me.view.client.list ≡ pass.old.me.view.client.list }
    ensures parts { pass.new.me.view.client.parts + 1 ≡ pass.old.me.view.client.parts }
    ensures right { result.me.view.client ≡ tally 1 [] }
{
    queue.another::<Shares>(pass)
}

/// Takes a pass back, with its parts and its numbers.
pub fn unite<'s, L: Lanes, C: Charter>(
    queue: &Queue<'s, L, C>,
    pass: &mut SegPass<Runner<'s, L, C>, Tally>,
    other: SegPass<Runner<'s, L, C>, Tally>,
)
    requires queue { IsSegPassOf queue.now pass.old × IsSegPassOf queue.now other }
    requires part { 0 < pass.old.me.view.client.parts }
    ensures queue { IsSegPassOf queue.now pass.new }
    ensures both { pass.new.me.view.client
        ≡ tally (pass.old.me.view.client.parts + other.entry.me.view.client.parts)
        (pass.old.me.view.client.list ++ other.entry.me.view.client.list) }
{
    queue.absorb::<Shares>(pass, other);
}

/// Makes a queue without runners, and its first pass, which has all parts and all numbers.
pub fn open<'s, L: Lanes, C: Charter>(
    alloc: Global,
) -> Result<(Queue<'s, L, C>, SegPass<Runner<'s, L, C>, Tally>), AllocError>
    ensures queue { IfOk result (λ q. IsSegPassOf q.0 q.1) }
    ensures first { IfOk result (λ q. q.1.me.view.client
        ≡ tally MAX_THREADS (all_below (length C.endpoints))) }
{
    RuledSegQueue::<Runner<'s, L, C>, Tally, EachOnce<C>>::with_rule(alloc)
}
