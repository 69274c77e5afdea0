ghost use Rattle.std.specs.Prelude.{◌≡◌, IsTrue, OnOk, map};
ghost use Rattle.crossbeam_queue.specs.SegTies.{IsSegPassOf};
ghost use Rattle.coordinator.specs.declared.feeding.FeedTurn.TheVariants.{Done};
ghost use Rattle.flow_runners.specs.Crew.{AreBack, HasFed, IsFeederOf};
ghost use Rattle.flow_runner.specs.Rule.{AreListed, fixed_of};

use crate::crew::{drain, rounds};
use crate::flow::Flow;
use crate::lead::feed;
use coordinator::{FeedTurn, Feeding};
use flow_runner::{Charter, Engine, Held, Queue, Runner};
use flow_worker::Turn;
use lane_core::Lanes;
use std::sync::Wait;
use tuple_trace::{Gate, MAX_THREADS, NoMemory};

/// What the caller does if no other thread runs: it pops all runners. It then visits the feeder and
/// the runners in turn, until the feeder has stopped and each runner is done.
pub fn run_alone<'s, R: Wait, L: Lanes, G: Gate, F: Feeding<L>, C: Charter>(
    engine: &Engine<'_, R, L, G>,
    need: &mut L::Need,
    flow: &Flow<'_>,
    queue: &Queue<'s, L, C>,
    own: &mut Held<'s, L, C>,
    feeder: &mut F,
) -> Result<(), NoMemory>
    requires queue { IsSegPassOf queue.now own.old.pass }
    requires parts { own.old.pass.me.view.client.parts ≡ MAX_THREADS }
    requires listed { AreListed C.endpoints own.old.runners.items
        own.old.pass.me.view.client.list }
    requires feeder { IsFeederOf F.LIVE flow.now C.begin (F.feeder feeder.old) }
    ensures back { OnOk result (AreBack C.endpoints own.new.runners.items) }
    ensures feeder { OnOk result (HasFed F.LIVE flow.now C.begin F.kept (F.feeder feeder.old)
        (F.rest feeder.old) (F.feeder feeder.new) (F.rest feeder.new)) }
    ensures stopped { OnOk result (IsTrue (F.feeder feeder.new).stopped) }
{
    drain(engine.rt, queue, own)?;
    feed_out::<R, L, G, F, C>(engine, need, flow, &mut own.runners, feeder)?;
    rounds(engine, need, &mut own.runners)?;
    Ok(())
}

// Visits the feeder and all runners in turn, until the feeder has stopped.
fn feed_out<'s, R: Wait, L: Lanes, G: Gate, F: Feeding<L>, C: Charter>(
    engine: &Engine<'_, R, L, G>,
    need: &mut L::Need,
    flow: &Flow<'_>,
    runners: &mut Vec<Runner<'s, L, C>>,
    feeder: &mut F,
) -> Result<(), NoMemory>
    requires feeder { IsFeederOf F.LIVE flow.now C.begin (F.feeder feeder.old) }
    ensures fixed { OnOk result (map fixed_of runners.new.items
        ≡ map fixed_of runners.old.items) }
    ensures feeder { OnOk result (HasFed F.LIVE flow.now C.begin F.kept (F.feeder feeder.old)
        (F.rest feeder.old) (F.feeder feeder.new) (F.rest feeder.new)) }
    ensures stopped { OnOk result (IsTrue (F.feeder feeder.new).stopped) }
{
    let mut fed = FeedTurn::Idle;
    for _ in engine.rt.forever() {
        let asked = fed == FeedTurn::Idle;
        let first = feed_if::<L, G, F, C>(asked, fed, feeder, need, flow, engine.gate);
        fed = circle(need, engine.gate, flow, runners, feeder, first);
        match fed {
            FeedTurn::Done => return Ok(()),
            FeedTurn::NoMemory => break,
            FeedTurn::Moved | FeedTurn::Idle => {}
        }
    }
    Err(NoMemory)
}

// Visits each runner once, and the feeder after each, unless neither of them moved something.
// Returns what the feeder did last, and out of memory if a runner is.
fn circle<'s, L: Lanes, G: Gate, F: Feeding<L>, C: Charter>(
    need: &mut L::Need,
    gate: &G,
    flow: &Flow<'_>,
    runners: &mut Vec<Runner<'s, L, C>>,
    feeder: &mut F,
    fed: FeedTurn,
) -> FeedTurn
    requires feeder { IsFeederOf F.LIVE flow.now C.begin (F.feeder feeder.old) }
    requires fed { fed ≡ Done → IsTrue (F.feeder feeder.old).stopped }
    ensures fixed { map fixed_of runners.new.items ≡ map fixed_of runners.old.items }
    ensures feeder { HasFed F.LIVE flow.now C.begin F.kept (F.feeder feeder.old)
        (F.rest feeder.old) (F.feeder feeder.new) (F.rest feeder.new) }
    ensures done { result ≡ Done → IsTrue (F.feeder feeder.new).stopped }
{
    let mut last = fed;
    for i in 0..runners.len() {
        let turn = runners[i].visit(need, gate);
        let asked = turn != Turn::Idle || last == FeedTurn::Moved;
        last = feed_if::<L, G, F, C>(asked, last, feeder, need, flow, gate);
        if turn == Turn::NoMemory || last == FeedTurn::NoMemory {
            return FeedTurn::NoMemory;
        }
    }
    last
}

// Visits the feeder if asked, unless it has stopped. Returns what its last visit did.
fn feed_if<L: Lanes, G: Gate, F: Feeding<L>, C: Charter>(
    asked: bool,
    last: FeedTurn,
    feeder: &mut F,
    need: &mut L::Need,
    flow: &Flow<'_>,
    gate: &G,
) -> FeedTurn
    requires feeder { IsFeederOf F.LIVE flow.now C.begin (F.feeder feeder.old) }
    requires last { last ≡ Done → IsTrue (F.feeder feeder.old).stopped }
    ensures feeder { HasFed F.LIVE flow.now C.begin F.kept (F.feeder feeder.old)
        (F.rest feeder.old) (F.feeder feeder.new) (F.rest feeder.new) }
    ensures done { result ≡ Done → IsTrue (F.feeder feeder.new).stopped }
{
    if asked && last != FeedTurn::Done {
        feed::<L, G, F, C>(feeder, need, flow, gate)
    } else {
        last
    }
}
