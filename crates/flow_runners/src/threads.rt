ghost use Rattle.std.specs.Prelude.{◌≡◌, ◌<◌, ◌≤◌, ◌+◌, [], IfErr, IfOk, OnOk, length};
ghost use Rattle.std.specs.Prelude.{vec_capacity, vec_len};
ghost use Rattle.std.specs.List.{All};
ghost use Rattle.crossbeam_queue.specs.SegTies.{IsSegPassOf};
ghost use Rattle.flow_runner.specs.Rule.{AreListed};

use flow_runner::{Charter, Engine, Held, PartPromise, Queue, Ticket, share, start_part, unite};
use lane_core::Lanes;
use std::sync::Wait;
use std::sync::atomic::AtomicBool;
use std::thread::{PromisedHandle, Scope, Threads};
use tuple_trace::{Gate, MAX_THREADS, NoMemory};

/// A thread that was started.
pub type Handle<'s, L, C> = PromisedHandle<Held<'s, L, C>, PartPromise<'s, L, C>>;

/// Takes in what a thread brings back: its runners, and its pass. The one error is out of memory.
pub fn take_in<'s, L: Lanes, C: Charter>(
    queue: &Queue<'s, L, C>,
    own: &mut Held<'s, L, C>,
    back: Held<'s, L, C>,
) -> Result<(), NoMemory>
    requires queue { IsSegPassOf queue.now own.old.pass × IsSegPassOf queue.now back.pass }
    requires some { 0 < own.old.pass.me.view.client.parts }
    requires own { AreListed C.endpoints own.old.runners.items own.old.pass.me.view.client.list }
    requires back { AreListed C.endpoints back.runners.items back.pass.me.view.client.list }
    ensures queue { OnOk result (IsSegPassOf queue.now own.new.pass) }
    ensures parts { OnOk result (own.new.pass.me.view.client.parts
        ≡ own.old.pass.me.view.client.parts + back.entry.pass.me.view.client.parts) }
    ensures listed { OnOk result (AreListed C.endpoints own.new.runners.items
        own.new.pass.me.view.client.list) }
{
    let Held {
        runners: mut more,
        pass: theirs,
    } = back;
    match own.runners.append(&mut more) {
        Ok(()) => {
            unite(queue, &mut own.pass, theirs);
            Ok(())
        }
        Err(_) => Err(NoMemory),
    }
}

/// Starts a thread for each word. If none can be made, its pass comes back. The one error is out
/// of memory.
pub fn start_all<
    'q,
    'a: 'q,
    's: 'q,
    E,
    R,
    L: Lanes + Sync + 'q,
    G: Gate + Sync + 'q,
    C: Charter + Send + Sync + 'q,
>(
    scope: &'q Scope<'q, E>,
    engine: &'q Engine<'a, R, L, G>,
    words: &'q [AtomicBool],
    queue: &'q Queue<'s, L, C>,
    own: &mut Held<'s, L, C>,
    handles: &mut Vec<Handle<'s, L, C>>,
) -> Result<(), NoMemory>
where
    R: Threads + Wait + Sync + 'q,
    requires queue { IsSegPassOf queue.now own.old.pass }
    requires words { length words.now ≤ 15 }
    requires parts { own.old.pass.me.view.client.parts ≡ MAX_THREADS }
    requires listed { AreListed C.endpoints own.old.runners.items
        own.old.pass.me.view.client.list }
    requires handles { handles.old.items ≡ [] }
    ensures queue { OnOk result (IsSegPassOf queue.now own.new.pass) }
    ensures some { OnOk result (0 < own.new.pass.me.view.client.parts) }
    ensures parts { OnOk result (own.new.pass.me.view.client.parts + vec_len handles.new ≡ MAX_THREADS) }
    ensures listed { OnOk result (AreListed C.endpoints own.new.runners.items
        own.new.pass.me.view.client.list) }
    ensures handles { OnOk result (All (λ h. h.promise.queue.value ≡ queue.now)
        handles.new.items) }
{
    for word in words {
        if handles.reserve(1).is_err() {
            return Err(NoMemory);
        }
        let theirs = share(queue, &mut own.pass);
        let ticket = Ticket {
            queue,
            pass: theirs,
        };
        let started = start_part(scope, engine, word, ticket);
        placed(queue, own, handles, started)?;
    }
    Ok(())
}

// Adds the handle of a started thread, or takes in what came back.
fn placed<'s, L: Lanes, C: Charter>(
    queue: &Queue<'s, L, C>,
    own: &mut Held<'s, L, C>,
    handles: &mut Vec<Handle<'s, L, C>>,
    started: Result<Handle<'s, L, C>, Held<'s, L, C>>,
) -> Result<(), NoMemory>
    requires queue { IsSegPassOf queue.now own.old.pass }
    requires some { 0 < own.old.pass.me.view.client.parts }
    requires room { vec_len handles.old < vec_capacity handles.old }
    requires listed { AreListed C.endpoints own.old.runners.items
        own.old.pass.me.view.client.list }
    requires handles { All (λ h. h.promise.queue.value ≡ queue.now) handles.old.items }
    requires started { IfOk started (λ h. h.promise.queue.value ≡ queue.now) }
    requires back { IfErr started (λ b. IsSegPassOf queue.now b.pass) }
    requires part { IfErr started (λ b. b.pass.me.view.client.parts ≡ 1) }
    requires theirs { IfErr started (λ b. AreListed C.endpoints b.runners.items
        b.pass.me.view.client.list) }
    ensures queue { OnOk result (IsSegPassOf queue.now own.new.pass) }
    ensures parts { OnOk result (own.new.pass.me.view.client.parts + vec_len handles.new
        ≡ own.old.pass.me.view.client.parts + vec_len handles.old + 1) }
    ensures few { OnOk result (vec_len handles.new ≤ vec_len handles.old + 1) }
    ensures listed { OnOk result (AreListed C.endpoints own.new.runners.items
        own.new.pass.me.view.client.list) }
    ensures handles { OnOk result (All (λ h. h.promise.queue.value ≡ queue.now)
        handles.new.items) }
{
    match started {
        Ok(handle) => {
            handles.push_reserved(handle);
            Ok(())
        }
        Err(back) => take_in(queue, own, back),
    }
}

/// Joins the threads, and takes in what they bring back. The one error is out of memory.
pub fn join_all<'s, R: Threads, L: Lanes, C: Charter>(
    rt: &R,
    queue: &Queue<'s, L, C>,
    own: &mut Held<'s, L, C>,
    mut handles: Vec<Handle<'s, L, C>>,
) -> Result<(), NoMemory>
    requires queue { IsSegPassOf queue.now own.old.pass }
    requires some { 0 < own.old.pass.me.view.client.parts }
    requires parts { own.old.pass.me.view.client.parts + vec_len handles ≡ MAX_THREADS }
    requires listed { AreListed C.endpoints own.old.runners.items
        own.old.pass.me.view.client.list }
    requires handles { All (λ h. h.promise.queue.value ≡ queue.now) handles.items }
    ensures queue { OnOk result (IsSegPassOf queue.now own.new.pass) }
    ensures parts { OnOk result (own.new.pass.me.view.client.parts ≡ MAX_THREADS) }
    ensures listed { OnOk result (AreListed C.endpoints own.new.runners.items
        own.new.pass.me.view.client.list) }
{
    while let Some(handle) = handles.pop() {
        let back = handle.join(rt);
        take_in(queue, own, back)?;
    }
    Ok(())
}
