ghost use Rattle.std.specs.Prelude.{◌≡◌, ◌<◌, IsTrue, true};
ghost use Rattle.crossbeam_queue.specs.SegTies.{IsSegPassOf};
ghost use Rattle.coordinator.specs.declared.feeding.FeedTurn.TheVariants.{Done};
ghost use Rattle.flow_runners.specs.Crew.{HasFed, IsFeederOf};
ghost use Rattle.flow_runner.specs.Rule.{AreListed};
ghost use Rattle.flow_runner.specs.declared.steps.Stepped.TheVariants.{End};

use crate::flow::Flow;
use coordinator::{FeedTurn, Feeding};
use flow_runner::{Charter, Engine, Held, Queue, Stepped, VISIT, pause, step};
use lane_core::Lanes;
use std::sync::Wait;
use tuple_trace::Gate;

/// What the caller does while other threads run: it visits the feeder, and steps as a thread does,
/// in turn. It pauses if neither moved something.
///
/// It ends once the feeder has stopped, the queue is empty and its kept runners are done, or once
/// the engine is stopped. Returns whether the feeder has stopped.
pub fn lead<'s, R: Wait, L: Lanes, G: Gate, F: Feeding<L>, C: Charter>(
    engine: &Engine<'_, R, L, G>,
    need: &mut L::Need,
    flow: &Flow<'_>,
    queue: &Queue<'s, L, C>,
    own: &mut Held<'s, L, C>,
    feeder: &mut F,
) -> bool
    requires queue { IsSegPassOf queue.now own.old.pass }
    requires some { 0 < own.old.pass.me.view.client.parts }
    requires listed { AreListed C.endpoints own.old.runners.items
        own.old.pass.me.view.client.list }
    requires feeder { IsFeederOf F.LIVE flow.now C.begin (F.feeder feeder.old) }
    ensures queue { IsSegPassOf queue.now own.new.pass }
    ensures parts { own.new.pass.me.view.client.parts ≡ own.old.pass.me.view.client.parts }
    ensures listed { AreListed C.endpoints own.new.runners.items own.new.pass.me.view.client.list }
    ensures feeder { HasFed F.LIVE flow.now C.begin F.kept (F.feeder feeder.old)
        (F.rest feeder.old) (F.feeder feeder.new) (F.rest feeder.new) }
    ensures fed { IsTrue result → IsTrue (F.feeder feeder.new).stopped }
{
    let mut held = false;
    let mut idle = 0;
    for _ in engine.rt.forever() {
        if engine.is_stopped() {
            break;
        }
        let fed = feed::<L, G, F, C>(feeder, need, flow, engine.gate);
        let one = step(
            engine,
            need,
            queue,
            &mut own.pass,
            &mut own.runners,
            &mut held,
        );
        match both(fed, one) {
            Stepped::End => return true,
            Stepped::Moved => idle = 0,
            Stepped::Idle => idle = pause(idle),
            Stepped::NoMemory => engine.stop(),
        }
    }
    false
}

/// Gives the feeder turns while they move something, [`VISIT`] at most. Returns what a turn does:
/// moved, if one of them did.
pub fn feed<L: Lanes, G: Gate, F: Feeding<L>, C: Charter>(
    feeder: &mut F,
    need: &mut L::Need,
    flow: &Flow<'_>,
    gate: &G,
) -> FeedTurn
    requires feeder { IsFeederOf F.LIVE flow.now C.begin (F.feeder feeder.old) }
    ensures feeder { HasFed F.LIVE flow.now C.begin F.kept (F.feeder feeder.old)
        (F.rest feeder.old) (F.feeder feeder.new) (F.rest feeder.new) }
    ensures done { result ≡ Done → IsTrue (F.feeder feeder.new).stopped }
{
    let mut fed = FeedTurn::Idle;
    for _ in 0..VISIT {
        match feeder.turn(need, flow.setup, flow.rows, gate) {
            FeedTurn::Moved => fed = FeedTurn::Moved,
            FeedTurn::Idle => break,
            FeedTurn::Done => return FeedTurn::Done,
            FeedTurn::NoMemory => return FeedTurn::NoMemory,
        }
    }
    fed
}

// The outcome of the feeder and of a step: out of memory if one is, the end if both are at theirs.
fn both(fed: FeedTurn, one: Stepped) -> Stepped
    ensures { result ≡ End → fed ≡ Done }
{
    match (fed, one) {
        (FeedTurn::NoMemory, _) | (_, Stepped::NoMemory) => Stepped::NoMemory,
        (FeedTurn::Done, Stepped::End) => Stepped::End,
        (FeedTurn::Moved, _) | (_, Stepped::Moved) => Stepped::Moved,
        _ => Stepped::Idle,
    }
}
