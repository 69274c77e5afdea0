ghost use Rattle.std.specs.Prelude.{◌≡◌, ◌<◌, ◌++◌, ◌∷◌, [], map, vec_capacity, vec_len};
ghost use Rattle.std.specs.List.{All};
ghost use Rattle.crossbeam_queue.specs.SegTies.{IsSegPassOf};
ghost use Rattle.flow_worker.specs.declared.worker.Turn.TheVariants.{Done};
ghost use Rattle.flow_runner.specs.Rule.{AreListed, HasEnded, fixed_of};

use crate::charter::Charter;
use crate::engine::Engine;
use crate::moves::{give, take};
use crate::rule::{Queue, Tally};
use crate::runner::Runner;
use crossbeam_queue::SegPass;
use flow_worker::Turn;
use lane_core::Lanes;
use std::sync::Wait;
use tuple_trace::Gate;

/// What a look at the queue did.
#[derive(Clone, Copy, PartialEq, Eq, Debug)]
pub enum Looked {
    /// The queue was empty.
    Empty,
    /// A runner was popped, and moved something or is done.
    Moved,
    /// A runner was popped, and moved nothing.
    Idle,
    /// The queue refused to take a runner back.
    Kept,
    /// A runner ran out of memory.
    NoMemory,
}

/// Pops a runner, visits it, and pushes it back. `kept` keeps it if it is done, is out of memory,
/// or the queue refuses it.
pub fn look<'s, R: Wait, L: Lanes, G: Gate, C: Charter>(
    engine: &Engine<'_, R, L, G>,
    need: &mut L::Need,
    queue: &Queue<'s, L, C>,
    pass: &mut SegPass<Runner<'s, L, C>, Tally>,
    kept: &mut Vec<Runner<'s, L, C>>,
) -> Looked
    requires queue { IsSegPassOf queue.now pass.old }
    requires part { 0 < pass.old.me.view.client.parts }
    requires listed { AreListed C.endpoints kept.old.items pass.old.me.view.client.list }
    requires room { vec_len kept.old < vec_capacity kept.old }
    ensures queue { IsSegPassOf queue.now pass.new }
    ensures part { pass.new.me.view.client.parts ≡ pass.old.me.view.client.parts }
    ensures listed { AreListed C.endpoints kept.new.items pass.new.me.view.client.list }
{
    let Some(mut runner) = take(engine.rt, queue, pass) else {
        return Looked::Empty;
    };
    match runner.visit(need, engine.gate) {
        Turn::Done => {
            kept.push_reserved(runner);
            Looked::Moved
        }
        Turn::NoMemory => {
            kept.push_reserved(runner);
            Looked::NoMemory
        }
        Turn::Moved => put_back(engine.rt, queue, pass, kept, runner, Looked::Moved),
        Turn::Idle => put_back(engine.rt, queue, pass, kept, runner, Looked::Idle),
    }
}

// Pushes a runner back, or keeps it if that is refused.
fn put_back<'s, R: Wait, L: Lanes, C: Charter>(
    rt: &R,
    queue: &Queue<'s, L, C>,
    pass: &mut SegPass<Runner<'s, L, C>, Tally>,
    kept: &mut Vec<Runner<'s, L, C>>,
    runner: Runner<'s, L, C>,
    answer: Looked,
) -> Looked
    requires queue { IsSegPassOf queue.now pass.old }
    requires part { 0 < pass.old.me.view.client.parts }
    requires listed { AreListed C.endpoints (kept.old.items ++ runner ∷ [])
        pass.old.me.view.client.list }
    requires room { vec_len kept.old < vec_capacity kept.old }
    ensures queue { IsSegPassOf queue.now pass.new }
    ensures part { pass.new.me.view.client.parts ≡ pass.old.me.view.client.parts }
    ensures listed { AreListed C.endpoints kept.new.items pass.new.me.view.client.list }
{
    match give(rt, queue, pass, runner) {
        Ok(()) => answer,
        Err(back) => {
            kept.push_reserved(back);
            Looked::Kept
        }
    }
}

/// Visits each kept runner. Returns [`Turn::Done`] if all are done, [`Turn::NoMemory`] if one ran
/// out of memory, and [`Turn::Idle`] if none moved something.
pub fn round<'s, L: Lanes, G: Gate, C: Charter>(
    need: &mut L::Need,
    gate: &G,
    kept: &mut Vec<Runner<'s, L, C>>,
) -> Turn
    ensures seats { map fixed_of kept.new.items ≡ map fixed_of kept.old.items }
    ensures done { result ≡ Done → All HasEnded kept.new.items }
{
    let mut whole = Turn::Done;
    for i in 0..kept.len() {
        let turn = kept[i].visit(need, gate);
        whole = both(whole, turn);
    }
    whole
}

// The outcome of two runners: out of memory if one is, done if both are, idle if neither moved.
fn both(a: Turn, b: Turn) -> Turn
    ensures { result ≡ Done → (a ≡ Done) × (b ≡ Done) }
{
    match (a, b) {
        (Turn::NoMemory, _) | (_, Turn::NoMemory) => Turn::NoMemory,
        (Turn::Done, Turn::Done) => Turn::Done,
        (Turn::Done | Turn::Idle, Turn::Done | Turn::Idle) => Turn::Idle,
        _ => Turn::Moved,
    }
}

// Visits the kept runners if the queue refused one of them.
fn turn_held<'s, L: Lanes, G: Gate, C: Charter>(
    need: &mut L::Need,
    gate: &G,
    kept: &mut Vec<Runner<'s, L, C>>,
    held: bool,
) -> Turn
    ensures { map fixed_of kept.new.items ≡ map fixed_of kept.old.items }
{
    if held {
        round(need, gate, kept)
    } else {
        Turn::Done
    }
}

/// What a step of a thread did.
#[derive(Clone, Copy, PartialEq, Eq, Debug)]
pub enum Stepped {
    /// The queue was empty, and each kept runner is done.
    End,
    /// A runner moved something, or one that was popped is done.
    Moved,
    /// No runner moved anything.
    Idle,
    /// A runner or `kept` ran out of memory.
    NoMemory,
}

/// What a thread does once in its loop. It pops a runner, visits it, and pushes it back unless it is
/// done. It then visits the kept runners if the queue refused one of them; `held` says that it
/// refused one that isn't done.
///
/// `kept` and the list of the pass stay the same runners. The pass keeps its parts.
pub fn step<'s, R: Wait, L: Lanes, G: Gate, C: Charter>(
    engine: &Engine<'_, R, L, G>,
    need: &mut L::Need,
    queue: &Queue<'s, L, C>,
    pass: &mut SegPass<Runner<'s, L, C>, Tally>,
    kept: &mut Vec<Runner<'s, L, C>>,
    held: &mut bool,
) -> Stepped
    requires queue { IsSegPassOf queue.now pass.old }
    requires part { 0 < pass.old.me.view.client.parts }
    requires listed { AreListed C.endpoints kept.old.items pass.old.me.view.client.list }
    ensures queue { IsSegPassOf queue.now pass.new }
    ensures part { pass.new.me.view.client.parts ≡ pass.old.me.view.client.parts }
    ensures listed { AreListed C.endpoints kept.new.items pass.new.me.view.client.list }
{
    if kept.reserve(1).is_err() {
        return Stepped::NoMemory;
    }
    let looked = look(engine, need, queue, pass, kept);
    let rest = turn_held(need, engine.gate, kept, *held || looked == Looked::Kept);
    *held = rest != Turn::Done;
    both_went(looked, rest)
}

fn both_went(looked: Looked, rest: Turn) -> Stepped {
    match (looked, rest) {
        (Looked::NoMemory, _) | (_, Turn::NoMemory) => Stepped::NoMemory,
        (Looked::Empty, Turn::Done) => Stepped::End,
        (Looked::Moved, _) | (_, Turn::Moved) => Stepped::Moved,
        _ => Stepped::Idle,
    }
}
