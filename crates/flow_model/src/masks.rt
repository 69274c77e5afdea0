// Sets of nodes as masks.
ghost use Rattle.std.specs.Prelude.{◌≡◌, ℕ, ◌<◌, ◌≤◌, ◌^◌, ◌↔◌, All, IsTrue, length, slice_get};
ghost use Rattle.std.specs.List.{list_any};
ghost use Rattle.flow_dag.specs.Masks.{Has};
ghost use Rattle.versions.specs.Book.{is_named};
ghost use Rattle.versions.specs.declared.request.Change.{Change as ChangeIs};
ghost use Rattle.versions.specs.declared.request.Request.{Request as RequestIs};
ghost use Rattle.flow_model.specs.Planned.{copies_at, is_split_node, makes_split, splits_at};
ghost use Rattle.flow_model.specs.Planned.{may_become_split, names_node};
ghost use Rattle.jobs.specs.Nodes.{is_replicate, is_split};

use flow_dag::{MAX_NODES, with_bit};
use jobs::is_free;
use operators::{NodeDef, is_replicate, is_split};
use versions::{Change, Request};

/// The nodes that may make pieces of a tuple: those whose function, in the job or by a request, is
/// a split.
pub fn splits(nodes: &[NodeDef], requests: &[Request]) -> u64
    requires nodes { length nodes.now ≤ MAX_NODES }
    requires inside { All (λ (request : RequestIs). All
        (λ (change : ChangeIs). change.node < length nodes.now) request.changes) requests.now }
    ensures has { (node : ℕ) → Has result node ↔ IsTrue (splits_at nodes.now requests.now node) }
    ensures below { result < 2 ^ length nodes.now }
{
    let mut mask = job_splits(nodes);
    for request in requests {
        mask |= made_splits(nodes.len() as u32, request.changes.as_slice());
    }
    mask
}

/// The nodes that the job makes splits.
fn job_splits(nodes: &[NodeDef]) -> u64
    requires { length nodes.now ≤ MAX_NODES }
    ensures has { (node : ℕ) → Has result node ↔ IsTrue (is_split_node (slice_get nodes.now node)) }
    ensures below { result < 2 ^ length nodes.now }
{
    let mut mask = 0u64;
    for (node, def) in nodes.iter().enumerate() {
        if is_split(&def.func) {
            mask = with_bit(mask, node as u32);
        }
    }
    mask
}

/// The nodes that these changes make splits, of `count` nodes.
fn made_splits(count: u32, changes: &[Change]) -> u64
    requires count { count ≤ MAX_NODES }
    requires inside { All (λ (change : ChangeIs). change.node < count) changes.now }
    ensures has { (node : ℕ) → Has result node ↔ IsTrue (list_any (makes_split node) changes.now) }
    ensures below { result < 2 ^ count }
{
    let mut mask = 0u64;
    for change in changes {
        if is_split(&change.func) {
            mask = with_bit(mask, change.node);
        }
    }
    mask
}

/// The nodes that a request may make splits: those of a free kind with a roof of 2 or more.
pub fn may_become_splits(nodes: &[NodeDef]) -> u64
    requires { length nodes.now ≤ MAX_NODES }
    ensures has { (node : ℕ) → Has result node
        ↔ IsTrue (may_become_split (slice_get nodes.now node)) }
    ensures below { result < 2 ^ length nodes.now }
{
    let mut mask = 0u64;
    for (node, def) in nodes.iter().enumerate() {
        if is_free(&def.func) && def.roof >= 2 {
            mask = with_bit(mask, node as u32);
        }
    }
    mask
}

/// The nodes that the requests change, of `count` nodes.
pub fn changed_by(count: u32, requests: &[Request]) -> u64
    requires count { count ≤ MAX_NODES }
    requires inside { All (λ (request : RequestIs). All
        (λ (change : ChangeIs). change.node < count) request.changes) requests.now }
    ensures has { (node : ℕ) → Has result node ↔ IsTrue (list_any (names_node node) requests.now) }
    ensures below { result < 2 ^ count }
{
    let mut mask = 0u64;
    for request in requests {
        mask |= changed(count, request.changes.as_slice());
    }
    mask
}

/// The nodes that the job makes replicates.
pub fn copies(nodes: &[NodeDef]) -> u64
    requires { length nodes.now ≤ MAX_NODES }
    ensures has { (node : ℕ) → Has result node ↔ IsTrue (copies_at nodes.now node) }
    ensures below { result < 2 ^ length nodes.now }
{
    let mut mask = 0u64;
    for (node, def) in nodes.iter().enumerate() {
        if is_replicate(&def.func) {
            mask = with_bit(mask, node as u32);
        }
    }
    mask
}

/// The nodes that the changes name, of `count` nodes.
pub fn changed(count: u32, changes: &[Change]) -> u64
    requires count { count ≤ MAX_NODES }
    requires inside { All (λ (change : ChangeIs). change.node < count) changes.now }
    ensures has { (node : ℕ) → Has result node ↔ IsTrue (is_named changes.now node) }
    ensures below { result < 2 ^ count }
{
    let mut mask = 0u64;
    for change in changes {
        mask = with_bit(mask, change.node);
    }
    mask
}
