// The workers of a job, as the records of an audit spell them.
ghost use Rattle.std.specs.Prelude.{◌≡◌, ◌<◌, ◌≤◌, ◌^◌, ◌++◌, ◌∷◌, [], ℕ, IfNone, IfOk, IfSome};
ghost use Rattle.std.specs.Prelude.{IsTrue, OnOk, Some, decimal, length, map, slice_get};
ghost use Rattle.jobs.specs.Job.{job_view};
ghost use Rattle.jobs.specs.Nodes.{workers_of};
ghost use Rattle.audit_laws.specs.Names.{named_at};
ghost use Rattle.audit_stream.specs.Sorting.{AreDistinct, SpelledWorker as SpelledIs, spelled};
ghost use Rattle.audit_stream.specs.Sorting.{is_spelled as is_spelled_by, number_spelled};
ghost use Rattle.audit_stream.specs.Sorting.{workers_spelled};

use itoa::Buffer;
use jobs::{Job, NodeDef};
use std::alloc::Global;
use std::marker::Model;
use tuple_trace::{Bytes, Items, NoMemory};

/// A worker: the name of its node, and its place there in digits.
#[derive(Drop)]
pub(crate) struct Spelled {
    node: Bytes,
    place: Bytes,
}

impl Model for Spelled {
    ghost use Rattle.std.specs.Prelude.{List, ℕ};

    ghost Value = { List ℕ × List ℕ };

    ghost view = { λ a. (a.node, a.place) };
}

impl Spelled {
    fn of(alloc: Global, node: &[u8], place: u32) -> Result<Spelled, NoMemory>
        ensures { IfOk result (λ worker. worker ≡ (node.now, decimal place)) }
    {
        let mut digits = Buffer::new();
        let place = Bytes::from_slice(alloc, digits.format(place).as_bytes())?;
        let node = Bytes::from_slice(alloc, node)?;
        Ok(Spelled { node, place })
    }

    fn is_spelled(&self, node: &[u8], place: &[u8]) -> bool
        ensures { result ≡ is_spelled_by node.now place.now self.now }
    {
        self.node.as_slice() == node && self.place.as_slice() == place
    }
}

/// The workers of a job, in the order of their numbers.
pub(crate) fn spelled_workers(alloc: Global, job: &Job) -> Result<Items<Spelled>, NoMemory>
    ensures { IfOk result (λ workers. workers ≡ workers_spelled (job_view job.now)) }
{
    let mut workers = Items::new(alloc);
    for node in job.nodes.as_slice() {
        push_node(alloc, &mut workers, node)?;
    }
    Ok(workers)
}

fn push_node(alloc: Global, workers: &mut Items<Spelled>, node: &NodeDef) -> Result<(), NoMemory>
    ensures { OnOk result (workers.new ≡
        workers.old ++ map spelled (named_at node.now.name 0 (workers_of node.now))) }
{
    for place in 0..node.journal_count() {
        workers.push(Spelled::of(alloc, node.name.as_slice(), place)?)?;
    }
    Ok(())
}

/// The number of the worker that two cells spell, or that past the last one. The workers from
/// `near` on are looked at first. All are spelled differently.
pub(crate) fn number_of(workers: &[Spelled], node: &[u8], place: &[u8], near: usize) -> usize
    requires { AreDistinct workers.now }
    ensures number { result ≡ number_spelled workers.now node.now place.now }
    ensures within { result ≤ length workers.now }
    ensures few { result < 2 ^ 63 }
{
    let near = near.min(workers.len());
    if let Some(number) = search(workers, node, place, near, workers.len()) {
        return number;
    }
    match search(workers, node, place, 0, near) {
        Some(number) => number,
        None => workers.len(),
    }
}

// The first worker from one number up to another that the cells spell.
fn search(workers: &[Spelled], node: &[u8], place: &[u8], from: usize, to: usize) -> Option<usize>
    requires { to ≤ length workers.now }
    ensures some { IfSome result (λ number. (worker : SpelledIs) ×
        (slice_get workers.now number ≡ Some worker)
        × IsTrue (is_spelled_by node.now place.now worker)) }
    ensures within { IfSome result (λ number. number < to) }
    ensures none { IfNone result ((k : ℕ) (worker : SpelledIs) → from ≤ k → k < to →
        slice_get workers.now k ≡ Some worker →
        ¬ IsTrue (is_spelled_by node.now place.now worker)) }
{
    for number in from..to {
        if workers[number].is_spelled(node, place) {
            return Some(number);
        }
    }
    None
}
