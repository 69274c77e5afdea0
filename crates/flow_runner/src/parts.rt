ghost use Rattle.std.specs.Prelude.{◌≡◌, [], IfErr, IfOk};
ghost use Rattle.crossbeam_queue.specs.SegTies.{IsSegPassOf};
ghost use Rattle.flow_runner.specs.Rule.{AreListed, tally};

use crate::charter::Charter;
use crate::engine::Engine;
use crate::idle::pause;
use crate::rule::{Queue, Tally};
use crate::runner::Runner;
use crate::steps::{Stepped, step};
use crossbeam_queue::SegPass;
use lane_core::Lanes;
use std::alloc::Global;
use std::snapshot::Snapshot;
use std::sync::Wait;
use std::sync::atomic::{AtomicBool, Ordering};
use std::thread::{Promise, PromisedHandle, Scope, Threads};
use tuple_trace::Gate;

/// The runners that a thread keeps, and its pass.
#[derive(Drop)]
pub struct Held<'s, L: Lanes, C: Charter> {
    /// Those that the thread popped and hasn't pushed back.
    pub runners: Vec<Runner<'s, L, C>>,
    /// Its list has the numbers of these runners.
    pub pass: SegPass<Runner<'s, L, C>, Tally>,
}

/// What a thread does: it steps until the queue is empty and its kept runners are done, or the
/// engine is stopped. It pauses after a step that moved nothing, and stops the engine if memory runs
/// out.
pub fn part<'s, R: Wait, L: Lanes, G: Gate, C: Charter>(
    engine: &Engine<'_, R, L, G>,
    queue: &Queue<'s, L, C>,
    own: &mut Held<'s, L, C>,
)
    requires queue { IsSegPassOf queue.now own.old.pass }
    requires part { own.old.pass.me.view.client.parts ≡ 1 }
    requires listed { AreListed C.endpoints own.old.runners.items
        own.old.pass.me.view.client.list }
    ensures queue { IsSegPassOf queue.now own.new.pass }
    ensures part { own.new.pass.me.view.client.parts ≡ 1 }
    ensures listed { AreListed C.endpoints own.new.runners.items own.new.pass.me.view.client.list }
{
    let mut need = engine.form.need();
    let mut held = false;
    let mut idle = 0;
    for _ in engine.rt.forever() {
        if engine.is_stopped() {
            break;
        }
        match step(
            engine,
            &mut need,
            queue,
            &mut own.pass,
            &mut own.runners,
            &mut held,
        ) {
            Stepped::End => break,
            Stepped::Moved => idle = 0,
            Stepped::Idle => idle = pause(idle),
            Stepped::NoMemory => engine.stop(),
        }
    }
}

fn untouched<'s, L: Lanes, C: Charter>(
    alloc: Global,
    queue: &Queue<'s, L, C>,
    pass: SegPass<Runner<'s, L, C>, Tally>,
) -> Held<'s, L, C>
    requires queue { IsSegPassOf queue.now pass }
    requires fresh { pass.me.view.client ≡ tally 1 [] }
    ensures queue { IsSegPassOf queue.now result.pass }
    ensures part { result.pass.me.view.client.parts ≡ 1 }
    ensures listed { AreListed C.endpoints result.runners.items result.pass.me.view.client.list }
{
    let _ = queue;
    Held {
        runners: Vec::new(alloc),
        pass,
    }
}

/// What a thread promises: it brings back a pass of this queue with one part, and the runners that
/// it keeps are those of the pass's list.
#[derive(Drop)]
pub struct PartPromise<'s, L: Lanes, C: Charter> {
    /// The queue at the start of the thread.
    pub queue: Snapshot<Queue<'s, L, C>>,
}

impl<'s, L: Lanes, C: Charter> Promise<Held<'s, L, C>> for PartPromise<'s, L, C> {
    ghost use Rattle.std.specs.Prelude.{◌≡◌};
    ghost use Rattle.crossbeam_queue.specs.SegTies.{IsSegPassOf};
    ghost use Rattle.flow_runner.specs.Rule.{AreListed};

    ghost kept_by = { λ p b.
        IsSegPassOf p.queue.value b.pass
        × (b.pass.me.view.client.parts ≡ 1)
        × AreListed C.endpoints b.runners.items b.pass.me.view.client.list };
}

/// What a thread begins with.
#[derive(Drop)]
pub struct Ticket<'q, 's: 'q, L: Lanes + 'q, C: Charter + 'q> {
    /// The queue of the run.
    pub queue: &'q Queue<'s, L, C>,
    /// A pass of the queue that was given out, with one part and no number.
    pub pass: SegPass<Runner<'s, L, C>, Tally>,
}

/// As [`part`], but the thread does nothing if its own word is set.
pub fn part_of<'q, 's: 'q, R: Wait, L: Lanes + 'q, G: Gate, C: Charter + 'q>(
    engine: &Engine<'_, R, L, G>,
    refused: &AtomicBool,
    ticket: Ticket<'q, 's, L, C>,
) -> Held<'s, L, C>
    requires queue { IsSegPassOf ticket.queue.now ticket.pass }
    requires fresh { ticket.pass.me.view.client ≡ tally 1 [] }
    ensures queue { IsSegPassOf ticket.entry.queue.now result.pass }
    ensures part { result.pass.me.view.client.parts ≡ 1 }
    ensures listed { AreListed C.endpoints result.runners.items result.pass.me.view.client.list }
{
    let Ticket { queue, pass } = ticket;
    let mut own = untouched(engine.alloc, queue, pass);
    if refused.load(Ordering::SeqCst) {
        return own;
    }
    part(engine, queue, &mut own);
    own
}

/// Starts a thread of the scope. It steps until the queue is empty and its kept runners are done,
/// or the engine is stopped. It stops the engine if memory runs out.
///
/// If no thread can be made, `refused` is set, and what the thread would bring back comes here: its
/// pass, and no runners.
pub fn start_part<
    'q,
    'a: 'q,
    's: 'q,
    E,
    R,
    L: Lanes + Sync + 'q,
    G: Gate + Sync + 'q,
    C: Charter + Send + Sync + 'q,
>(
    scope: &'q Scope<'q, E>,
    engine: &'q Engine<'a, R, L, G>,
    refused: &'q AtomicBool,
    ticket: Ticket<'q, 's, L, C>,
) -> Result<PromisedHandle<Held<'s, L, C>, PartPromise<'s, L, C>>, Held<'s, L, C>>
where
    R: Threads + Wait + Sync + 'q,
    requires queue { IsSegPassOf ticket.queue.now ticket.pass }
    requires fresh { ticket.pass.me.view.client ≡ tally 1 [] }
    ensures started { IfOk result (λ h. h.promise.queue.value ≡ ticket.entry.queue.now) }
    ensures here { IfErr result (λ b. IsSegPassOf ticket.entry.queue.now b.pass) }
    ensures part { IfErr result (λ b. b.pass.me.view.client.parts ≡ 1) }
    ensures listed { IfErr result (λ b. AreListed C.endpoints b.runners.items
        b.pass.me.view.client.list) }
{
    let promise: PartPromise<'s, L, C> = PartPromise {
        queue: Snapshot::of(ticket.queue),
    };
    let run = move ||
        requires queue { IsSegPassOf ticket.queue.now ticket.pass }
        requires fresh { ticket.pass.me.view.client ≡ tally 1 [] }
        ensures queue { IsSegPassOf ticket.entry.queue.now result.pass }
        ensures part { result.pass.me.view.client.parts ≡ 1 }
        ensures listed { AreListed C.endpoints result.runners.items
            result.pass.me.view.client.list }
    { part_of(engine, refused, ticket) };
    match scope.spawn_with(promise, run) {
        Ok(handle) => Ok(handle),
        Err(error) => {
            refused.store(true, Ordering::SeqCst);
            Err((error.value)())
        }
    }
}
