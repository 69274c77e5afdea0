// Counts in their places.
ghost use Rattle.std.specs.Prelude.{◌≡◌, ◌≤◌, ◌==◌, ◌&&◌, IfOk, nat_eq, position};
ghost use Rattle.std.specs.Prelude.{option_copied};
ghost use Rattle.std.specs.Cmp.Lexicographic.{pointwise};
ghost use Rattle.jobs.specs.Nodes.{is_count};
ghost use Rattle.tuple_trace.specs.Spread.{spread_of};
ghost use Rattle.flow_model.specs.Setup.{setup_view};
ghost use Rattle.flow_model.specs.SetupWorker.{setup_here, who_here};
ghost use Rattle.flow_model.specs.Workers.{workers_in};
ghost use Rattle.savepoint.specs.SaveReading.{is_place as is_place_of};
ghost use Rattle.savepoint.specs.SaveReading.{placed_of as placed_of_spelled};
ghost use Rattle.savepoint.specs.SaveReading.{stands_behind as stands_behind_of};
ghost use Rattle.savepoint_file.specs.Steps.{is_before as is_before_of, spelled_with};
ghost use Rattle.savepoint_file.specs.Steps.{takes_key as takes_key_of};
ghost use Rattle.savepoint_file.specs.Views.{spelled_view};

use flow_model::{Setup, SetupWorker};
use jobs::{NodeDef, TEXT_MAX, is_count};
use std::alloc::Global;
use std::marker::Model;
use tuple_trace::{Bytes, MAX_NODE_WORKERS, NoMemory, spread};

/// A count in its place: the worker's number, the key and the number.
#[derive(Drop)]
pub struct Placed {
    pub worker: u32,
    pub key: Bytes,
    pub count: i64,
}

impl Model for Placed {
    ghost use Rattle.savepoint.specs.SaveReading.{Placed};

    ghost Value = { Placed };

    ghost view = { λ p. record { worker = p.worker; key = p.key; count = p.count } };
}

/// What a record of a count spells.
#[derive(Clone, Copy)]
pub(crate) struct Spelled<'c> {
    pub(crate) name: &'c [u8],
    pub(crate) place: i64,
    pub(crate) key: &'c [u8],
    pub(crate) count: i64,
}

/// The count in its place. `None` if the named worker doesn't count, or the key is too long or led
/// to another worker.
pub(crate) fn placed_of(
    alloc: Global,
    setup: &Setup,
    spelled: Spelled<'_>,
) -> Result<Option<Placed>, NoMemory>
    ensures { IfOk result (λ placed. placed ≡ placed_of_spelled (setup_view setup.now).job
        (spelled_view spelled.entry)) }
{
    let Spelled {
        name,
        place,
        key,
        count,
    } = spelled;
    placed_at(alloc, setup, name, place, key, count)
}

fn placed_at(
    alloc: Global,
    setup: &Setup,
    name: &[u8],
    place: i64,
    key: &[u8],
    count: i64,
) -> Result<Option<Placed>, NoMemory>
    ensures { IfOk result (λ placed. placed ≡ placed_of_spelled (setup_view setup.now).job
        (spelled_with name.now place key.now count)) }
{
    if key.len() > TEXT_MAX {
        return Ok(None);
    }
    match worker_with(setup, name, place, key) {
        Some(worker) => Ok(Some(Placed {
            worker,
            key: Bytes::from_slice(alloc, key)?,
            count,
        })),
        None => Ok(None),
    }
}

fn worker_with(setup: &Setup, name: &[u8], place: i64, key: &[u8]) -> Option<u32>
    ensures { result ≡ position (takes_key_of (setup_view setup.now).job name.now place key.now)
        (workers_in (setup_view setup.now).job) }
{
    for worker in 0..setup.workers() {
        let who = SetupWorker {
            setup,
            number: worker,
        };
        if takes_key(who, name, place, key) {
            return Some(worker);
        }
    }
    None
}

fn takes_key(who: SetupWorker<'_>, name: &[u8], place: i64, key: &[u8]) -> bool
    ensures { result ≡ takes_key_of (setup_here who.entry).job name.now place key.now
        (who_here who.entry) }
{
    let at = who.setup.worker_at(who.number);
    let node = &who.setup.job.nodes.as_slice()[at.node as usize];
    if !is_node(node, name) {
        return false;
    }
    is_led(is_place(place, at.place), key, node.workers, at.place)
}

// Whether the node counts and has this name.
fn is_node(node: &NodeDef, name: &[u8]) -> bool
    ensures { result ≡ (is_count node.now.func && pointwise nat_eq name.now node.now.name) }
{
    is_count(&node.func) && name == node.name.as_slice()
}

// Whether a worker is the one that is named, and the key is led to its place.
fn is_led(named: bool, key: &[u8], workers: u32, place: u32) -> bool
    requires some { 1 ≤ workers }
    requires few { workers ≤ MAX_NODE_WORKERS }
    ensures { result ≡ (named && (spread_of key.now workers == place)) }
{
    named && spread(key, workers) == place
}

fn is_place(number: i64, place: u32) -> bool
    ensures { result ≡ is_place_of number place }
{
    number >= 0 && number as u64 == u64::from(place)
}

/// Whether a count comes after the one before it: at a later worker, or with a later key.
pub(crate) fn stands_behind(before: Option<&Placed>, placed: &Placed) -> bool
    ensures { result ≡ stands_behind_of (option_copied before.entry) placed.now }
{
    match before {
        None => true,
        Some(before) => {
            before.worker < placed.worker
                || (before.worker == placed.worker && is_before(&before.key, &placed.key))
        }
    }
}

fn is_before(one: &Bytes, other: &Bytes) -> bool
    ensures { result ≡ is_before_of one.now other.now }
{
    one.as_slice().cmp(&other.as_slice()).is_lt()
}
