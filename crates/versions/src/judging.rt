ghost use Rattle.std.specs.Prelude.{◌≡◌, ◌≤◌, ◌<◌, [], None, Some, IfErr, IfSome, OnOk, length};
ghost use Rattle.std.specs.Prelude.{position, slice_get};
ghost use Rattle.flow_dag.specs.Masks.{has as has_in};
ghost use Rattle.jobs.specs.Job.{job_view};
ghost use Rattle.jobs.specs.Kinds.{is_kind as is_kind_of};
ghost use Rattle.versions.specs.Book.{is_named as is_named_in};
ghost use Rattle.versions.specs.Judging.{fault_of, first_with as first_with_in};
ghost use Rattle.versions.specs.Judging.{has_fault as has_fault_in};
ghost use Rattle.versions.specs.Judging.{is_bad_carry as is_bad_carry_of};
ghost use Rattle.versions.specs.Judging.{is_count_at as is_count_node};
ghost use Rattle.versions.specs.Judging.{is_fixed_at as is_fixed_node};
ghost use Rattle.versions.specs.Judging.{is_stale_at as is_stale_node};
ghost use Rattle.versions.specs.Judging.{may_replace as may_replace_func};
ghost use Rattle.versions.specs.Judging.{may_replace_at as may_replace_current};
ghost use Rattle.versions.specs.Judging.{is_key as is_key_of};
ghost use Rattle.versions.specs.Judging.{is_late_split as is_late_split_of};
ghost use Rattle.versions.specs.Judging.{is_like as is_like_func, roof_at as roof_of_node};
ghost use Rattle.versions.specs.Judging.{late_split as late_split_of};
ghost use Rattle.versions.specs.Judging.{version_of as version_of_change};
ghost use Rattle.versions.specs.Judging.{whole_fault as whole_fault_of};

use crate::{Book, Change, Current, MAX_CHANGES, QFault, Request};
use flow_dag::{MAX_NODES, has_bit};
use jobs::{
    Func, Job, Kind, NodeDef, fan_out, fits, is_count, is_fixed, is_free, is_split, key_of,
    out_count,
};
use keyed_state::Carry;

/// Whether a request is accepted by a book, and else its first fault in the order of [`QFault`],
/// with the first change that has it.
///
/// `last_after` is the row of the latest accepted request, 0 before the first. Takes no memory.
pub fn judge(book: &Book, job: &Job, request: &Request, last_after: u64) -> Result<(), QFault>
    requires { length request.now.changes ≤ MAX_CHANGES }
    ensures ok { OnOk result (fault_of book.now (job_view job.now) request.now last_after ≡ None) }
    ensures err { IfErr result (λ fault. fault_of book.now (job_view job.now) request.now last_after
        ≡ Some fault) }
{
    let book = book.as_slice();
    let changes = request.changes.as_slice();
    if let Some(place) = first_with(Code::NoNode, book, job, changes) {
        return Err(QFault::NoNode(place + 1));
    }
    if let Some(place) = first_with(Code::Fixed, book, job, changes) {
        return Err(QFault::Fixed(place + 1));
    }
    if let Some(place) = first_with(Code::NodeTwice, book, job, changes) {
        return Err(QFault::NodeTwice(place + 1));
    }
    if let Some(place) = first_with(Code::Stale, book, job, changes) {
        return Err(QFault::Stale(place + 1, version_of(book, changes, place)));
    }
    if let Some(place) = first_with(Code::IllTyped, book, job, changes) {
        return Err(QFault::IllTyped(place + 1));
    }
    if let Some(place) = first_with(Code::KindOrKey, book, job, changes) {
        return Err(QFault::KindOrKey(place + 1));
    }
    if let Some(place) = first_with(Code::BadCarry, book, job, changes) {
        return Err(QFault::BadCarry(place + 1));
    }
    whole_fault(request, last_after).map_or(Ok(()), Err)
}

fn whole_fault(request: &Request, last_after: u64) -> Option<QFault>
    ensures { result ≡ whole_fault_of request.now last_after }
{
    if request.changes.is_empty() {
        Some(QFault::Empty)
    } else if request.after < last_after {
        Some(QFault::Backwards(last_after))
    } else {
        None
    }
}

/// The fault of the first change that makes a split of a node that the mask leaves out. Takes no
/// memory.
pub(crate) fn late_split(splits: u64, changes: &[Change]) -> Option<QFault>
    requires { length changes.now ≤ MAX_CHANGES }
    ensures { result ≡ late_split_of splits changes.now }
{
    let place = first_late_split(splits, changes)?;
    Some(QFault::LateSplit(place as u32 + 1))
}

fn first_late_split(splits: u64, changes: &[Change]) -> Option<usize>
    ensures first { result ≡ position (is_late_split_of splits) changes.now }
    ensures inside { IfSome result (λ place. place < length changes.now) }
{
    changes
        .iter()
        .position(|change| is_late_split(splits, change))
}

fn is_late_split(splits: u64, change: &Change) -> bool
    ensures { result ≡ is_late_split_of splits change.now }
{
    is_split(&change.func) && !has(splits, change.node)
}

// Whether a mask has a node, of any number.
fn has(mask: u64, node: u32) -> bool
    ensures { result ≡ has_in mask node }
{
    (node as usize) < MAX_NODES && has_bit(mask, node)
}

/// A fault that names a change.
#[derive(Clone, Copy)]
enum Code {
    NoNode,
    Fixed,
    NodeTwice,
    Stale,
    IllTyped,
    KindOrKey,
    BadCarry,
}

/// The place of the first change with this fault, counted from 0.
fn first_with(code: Code, book: &[Current], job: &Job, changes: &[Change]) -> Option<u32>
    requires { length changes.now ≤ MAX_CHANGES }
    ensures first { result ≡ first_with_in code book.now (job_view job.now) [] changes.now }
    ensures inside { IfSome result (λ place. place < MAX_CHANGES) }
{
    for place in 0..changes.len() {
        if has_fault(code, book, job, &changes[..place], &changes[place]) {
            return Some(place as u32);
        }
    }
    None
}

fn has_fault(code: Code, book: &[Current], job: &Job, before: &[Change], change: &Change) -> bool
    ensures { result ≡ has_fault_in code book.now (job_view job.now) before.now change.now }
{
    let nodes = job.nodes.as_slice();
    match code {
        Code::NoNode => change.node as usize >= nodes.len(),
        Code::Fixed => is_fixed_at(nodes, change.node),
        Code::NodeTwice => is_named(before, change.node),
        Code::Stale => is_stale_at(book, change.node, change.from),
        Code::IllTyped => !fits(job, &change.func),
        Code::KindOrKey => {
            let once = out_count(job.dag.all_edges(), change.node) == 1;
            let roof = roof_at(nodes, change.node);
            !may_replace_at(book, change.node, &change.func, roof, once)
        }
        Code::BadCarry => is_bad_carry(is_count_at(nodes, change.node), change.carry),
    }
}

fn is_fixed_at(nodes: &[NodeDef], node: u32) -> bool
    ensures { result ≡ is_fixed_node (slice_get nodes.now node) }
{
    match nodes.get(node as usize) {
        Some(found) => is_fixed(&found.func),
        None => false,
    }
}

fn is_named(changes: &[Change], node: u32) -> bool
    ensures { result ≡ is_named_in changes.now node }
{
    changes.iter().any(|change| change.node == node)
}

fn is_stale_at(book: &[Current], node: u32, from: u64) -> bool
    ensures { result ≡ is_stale_node (slice_get book.now node) from }
{
    match book.get(node as usize) {
        Some(current) => current.version != from,
        None => false,
    }
}

fn may_replace_at(book: &[Current], node: u32, new: &Func, roof: u32, once: bool) -> bool
    ensures { result ≡ may_replace_current (slice_get book.now node) new.now roof once }
{
    match book.get(node as usize) {
        Some(current) => may_replace(&current.func, new, roof, once),
        None => true,
    }
}

fn may_replace(current: &Func, new: &Func, roof: u32, once: bool) -> bool
    ensures { result ≡ may_replace_func current.now new.now roof once }
{
    (is_like(current, new) || (is_free(current) && is_free(new) && once)) && fan_out(new) <= roof
}

fn is_like(current: &Func, new: &Func) -> bool
    ensures { result ≡ is_like_func current.now new.now }
{
    !is_fixed(current)
        && is_kind(current.kind(), new.kind())
        && is_key(key_of(current), key_of(new))
}

fn is_kind(current: Kind, new: Kind) -> bool
    ensures { result ≡ is_kind_of current new }
{
    current == new
}

fn is_key(current: Option<u32>, new: Option<u32>) -> bool
    ensures { result ≡ is_key_of current new }
{
    current == new
}

/// The roof of a node, and 1 if there is none.
fn roof_at(nodes: &[NodeDef], node: u32) -> u32
    ensures { result ≡ roof_of_node (slice_get nodes.now node) }
{
    match nodes.get(node as usize) {
        Some(found) => found.roof,
        None => 1,
    }
}

fn is_count_at(nodes: &[NodeDef], node: u32) -> bool
    ensures { result ≡ is_count_node (slice_get nodes.now node) }
{
    match nodes.get(node as usize) {
        Some(found) => is_count(&found.func),
        None => false,
    }
}

fn is_bad_carry(counts: bool, carry: Carry) -> bool
    ensures { result ≡ is_bad_carry_of counts carry }
{
    match carry {
        Carry::Keep => false,
        Carry::Reset | Carry::DropBelow(_) => !counts,
        Carry::Scale(_, over) => !counts || over < 1,
    }
}

/// The version of the node of the change at a place.
fn version_of(book: &[Current], changes: &[Change], place: u32) -> u64
    ensures { result ≡ version_of_change book.now (slice_get changes.now place) }
{
    match changes.get(place as usize) {
        Some(change) => match book.get(change.node as usize) {
            Some(current) => current.version,
            None => 0,
        },
        None => 0,
    }
}
