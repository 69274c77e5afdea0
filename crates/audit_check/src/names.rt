// Workers and lanes, as the cells of an audit name them.
ghost use Rattle.std.specs.Prelude.{◌≡◌, ◌≢◌, ◌↔◌, ℕ, IfNone, IfSome, IsTrue, Some, decimal};
ghost use Rattle.std.specs.Prelude.{slice_get};
ghost use Rattle.flow_model.specs.Setup.{setup_view};
ghost use Rattle.flow_model.specs.SetupWorker.{setup_here};
ghost use Rattle.audit_laws.specs.Lines.{LeadsTo};
ghost use Rattle.audit_laws.specs.Names.{named_workers};
ghost use Rattle.audit_check.specs.Cells.{NamesWorker, named_as};

use crate::spelling::narrow;
use flow_model::{Setup, SetupWorker};

/// The worker with this place at the node with this name. The worker `near` is tried first.
pub(crate) fn worker_named(setup: &Setup, node: &[u8], place: &[u8], near: u32) -> Option<u32>
    ensures some { IfSome result (λ worker.
        NamesWorker (setup_view setup.now).job node.now place.now worker) }
    ensures none { IfNone result ((worker : ℕ) →
        ¬ NamesWorker (setup_view setup.now).job node.now place.now worker) }
{
    let Some(place) = narrow(place) else {
        return None;
    };
    if is_worker(setup, near, node, place) {
        return Some(near);
    }
    match search(setup, node, place) {
        Some(worker) => Some(worker),
        None => None,
    }
}

fn is_worker(setup: &Setup, worker: u32, node: &[u8], place: u32) -> bool
    ensures { IsTrue result → slice_get (named_workers (setup_view setup.now).job.nodes) worker
        ≡ Some (named_as node.now place) }
{
    worker < setup.workers()
        && is_named(
            SetupWorker {
                setup,
                number: worker,
            },
            node,
            place,
        )
}

fn search(setup: &Setup, node: &[u8], place: u32) -> Option<u32>
    ensures some { IfSome result (λ worker.
        slice_get (named_workers (setup_view setup.now).job.nodes) worker
        ≡ Some (named_as node.now place)) }
    ensures none { IfNone result ((worker : ℕ) →
        slice_get (named_workers (setup_view setup.now).job.nodes) worker
        ≢ Some (named_as node.now place)) }
{
    for worker in 0..setup.workers() {
        if is_named(
            SetupWorker {
                setup,
                number: worker,
            },
            node,
            place,
        ) {
            return Some(worker);
        }
    }
    None
}

fn is_named(who: SetupWorker<'_>, node: &[u8], place: u32) -> bool
    ensures { IsTrue result ↔ (slice_get (named_workers (setup_here who.entry).job.nodes)
        who.entry.number ≡ Some (named_as node.now place)) }
{
    let (name, at) = name_of(who);
    at == place && name == node
}

fn name_of(who: SetupWorker<'_>) -> (&[u8], u32)
    ensures { slice_get (named_workers (setup_here who.entry).job.nodes) who.entry.number
        ≡ Some (named_as result.0.now result.1) }
{
    let at = who.setup.worker_at(who.number);
    let node = &who.setup.job.nodes.as_slice()[at.node as usize];
    (node.name.as_slice(), at.place)
}

/// The lane into a worker that a cell spells.
pub(crate) fn lane_into(setup: &Setup, worker: u32, text: &[u8]) -> Option<u32>
    ensures some { IfSome result (λ lane.
        (text.now ≡ decimal lane) × LeadsTo (setup_view setup.now).job worker lane) }
    ensures none { IfNone result ((lane : ℕ) → LeadsTo (setup_view setup.now).job worker lane →
        text.now ≢ decimal lane) }
{
    match narrow(text) {
        Some(lane) if leads_to(setup, lane, worker) => Some(lane),
        _ => None,
    }
}

fn leads_to(setup: &Setup, lane: u32, worker: u32) -> bool
    ensures { IsTrue result ↔ LeadsTo (setup_view setup.now).job worker lane }
{
    (lane as usize) < setup.topology.lanes.len() && setup.lane(lane).receiver == worker
}
