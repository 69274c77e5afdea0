// The changes that requests make, and the function that is in force at a worker.
ghost use Rattle.std.specs.Prelude.{◌≡◌, ℕ, IfNone, IfSome, None, Option, Some, option_copied};
ghost use Rattle.std.specs.Prelude.{slice_get};
ghost use Rattle.jobs.specs.declared.func.Func.{Func as FuncIs};
ghost use Rattle.versions.specs.declared.request.Change.{Change as ChangeIs};
ghost use Rattle.flow_model.specs.InForce.{change_at, counts_with, func_in as func_at};
ghost use Rattle.flow_model.specs.Requests.{change_among, change_by, func_with, request_at};
ghost use Rattle.flow_model.specs.SetupView.{Worker as WorkerIs};
ghost use Rattle.flow_model.specs.Setup.{setup_view};
ghost use Rattle.flow_model.specs.WorkerState.{func_at as at_view};

use crate::{InForce, Setup};
use keyed_state::Keyed;
use operators::Func;
use versions::{Change, Request};

impl Setup {
    /// An accepted request; they are counted from 1. Takes no memory.
    pub fn request(&self, request: u64) -> Option<&Request>
        ensures { option_copied result ≡ request_at (setup_view self.now) request }
    {
        let place = request.checked_sub(1)?;
        self.judged.accepted.as_slice().get(place as usize)
    }

    /// The place of the change of a node among those of a request. Takes no memory.
    pub fn change_place(&self, request: u64, node: u32) -> Option<usize>
        ensures some { IfSome result (λ place. (change : ChangeIs)
            × (change_by (setup_view self.now) request node ≡ Some change)
            × (change_at (request_at (setup_view self.now) request) place ≡ Some change)) }
        ensures none { IfNone result (change_by (setup_view self.now) request node ≡ None) }
    {
        let request = self.request(request)?;
        place_among(request.changes.as_slice(), node)
    }

    /// The change of a node by a request. Takes no memory.
    pub fn change_of(&self, request: u64, node: u32) -> Option<&Change>
        ensures { option_copied result ≡ change_by (setup_view self.now) request node }
    {
        let request = self.request(request)?;
        change_in(request.changes.as_slice(), node)
    }

    /// The function of a node that stands there. Takes no memory, and looks through no list.
    pub fn func_in(&self, node: u32, at: InForce) -> Option<&Func>
        ensures { option_copied result ≡ func_at (setup_view self.now) node at }
    {
        match at {
            InForce::Own => self.own_func(node),
            InForce::Changed { request, place } => self.changed_func(request, place),
        }
    }

    fn own_func(&self, node: u32) -> Option<&Func>
        ensures { option_copied result ≡ func_at (setup_view self.now) node InForce.Own }
    {
        let def = self.job.nodes.as_slice().get(node as usize)?;
        Some(&def.func)
    }

    fn changed_func(&self, request: u64, place: usize) -> Option<&Func>
        ensures { (node : ℕ)
            → option_copied result ≡ func_at (setup_view self.now) node
            (InForce.Changed request place) }
    {
        let change = self.request(request)?.changes.as_slice().get(place)?;
        Some(&change.func)
    }

    /// The change of a node by a request comes into force, if there is one. Takes no memory.
    pub fn put_in_force(&self, node: u32, request: u64, at: &mut InForce, counts: &mut Keyed)
        ensures func { (func : FuncIs) → func_at (setup_view self.now) node at.old ≡ Some func
            → func_at (setup_view self.now) node at.new
            ≡ Some (func_with (change_by (setup_view self.now) request node) func) }
        ensures view { (who : WorkerIs) → who.node ≡ node
            → at_view (setup_view self.now) who at.new
            ≡ func_with (change_by (setup_view self.now) request node)
            (at_view (setup_view self.now) who at.old) }
        ensures counts { counts.new
            ≡ counts_with (change_by (setup_view self.now) request node) counts.old }
    {
        if let Some(changed) = self.request(request) {
            let changes = changed.changes.as_slice();
            if let Some(place) = place_among(changes, node) {
                let change = &changes[place];
                counts.carry(change.carry);
                *at = InForce::Changed { request, place };
            }
        }
    }
}

// The change of a node among these.
fn change_in(changes: &[Change], node: u32) -> Option<&Change>
    ensures { option_copied result ≡ change_among changes.now node }
{
    for change in changes {
        if change.node == node {
            return Some(change);
        }
    }
    None
}

// The place of the change of a node among these.
fn place_among(changes: &[Change], node: u32) -> Option<usize>
    ensures some { IfSome result (λ place. (change : ChangeIs)
        × (slice_get changes.now place ≡ Some change)
        × (change_among changes.now node ≡ Some change)) }
    ensures none { IfNone result (change_among changes.now node ≡ None) }
{
    for (place, change) in changes.iter().enumerate() {
        if change.node == node {
            return Some(place);
        }
    }
    None
}
