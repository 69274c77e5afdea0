// What a lane of any form has to do. Whether it does is a result of each function.
ghost use Rattle.std.specs.Prelude.{◌≡◌, ◌≤◌};

use flow_dag::Graph;
use lane_core::{Lanes, Left, Origin, Rx, Tx};
use std::alloc::Global;
use std::sync::Wait;
use std::thread::{self, Threads};
use tuple_trace::{Item, NoMemory};

// Items of the tests are markers that cover no node, which may be put on any lane.
fn request_of(item: Option<&Item>) -> Option<u64> {
    match item {
        Some(Item::Mark { request, .. }) => Some(*request),
        _ => None,
    }
}

pub fn origin() -> Origin {
    let graph = Graph {
        n: 1,
        child: [0; 64],
    };
    Origin { graph, from: 0 }
}

// The request that comes back if the lane is full.
fn put<N, T: Tx<N>>(need: &mut N, tx: &mut T, request: u64) -> Option<u64>
    ensures { (T.state tx.new).lane ≡ (T.state tx.old).lane }
{
    let back = tx.put(need, Item::Mark { request, cover: 0 }).err();
    request_of(back.as_ref())
}

fn take<N, T: Rx<N>>(need: &mut N, rx: &mut T) -> Option<u64>
    ensures { (T.state rx.new).lane ≡ (T.state rx.old).lane }
{
    request_of(rx.take(need).as_ref())
}

// Whether `cap` items go, the next comes back, they are taken in order, and then there is none.
fn fill_and_empty<N, T: Tx<N>, U: Rx<N>>(need: &mut N, tx: &mut T, rx: &mut U, cap: u32) -> bool
    ensures tx { (T.state tx.new).lane ≡ (T.state tx.old).lane }
    ensures rx { (U.state rx.new).lane ≡ (U.state rx.old).lane }
{
    let mut well = true;
    for request in 0..u64::from(cap) {
        well &= put(need, tx, request).is_none();
    }
    well &= put(need, tx, 99) == Some(99);
    for request in 0..u64::from(cap) {
        well &= take(need, rx) == Some(request);
    }
    well & take(need, rx).is_none()
}

fn is_request(left: &Left, request: u64) -> bool {
    left.len() == 1 && request_of(left.as_slice().get(0)) == Some(request)
}

// Whether a lane of this capacity is filled and emptied twice, and keeps one item put after that.
fn holds<L: Lanes>(alloc: Global, lanes: &L, cap: u32) -> Result<bool, NoMemory>
    requires some { 1 ≤ cap }
    requires few { cap ≤ 64 }
{
    let (mut tx, mut rx) = lanes.make(alloc, 5, cap, origin())?;
    let mut need = lanes.need();
    let mut well = fill_and_empty(&mut need, &mut tx, &mut rx, cap);
    well &= fill_and_empty(&mut need, &mut tx, &mut rx, cap);
    well &= put(&mut need, &mut tx, 7).is_none();
    let left = lanes.settle(alloc, &mut need, tx, rx)?;
    Ok(well & is_request(&left, 7))
}

/// Whether lanes of capacity 1, 2 and 64 are filled, refused and emptied twice, and settled.
pub fn each_holds<L: Lanes>(alloc: Global, lanes: &L) -> Result<bool, NoMemory> {
    Ok(holds(alloc, lanes, 1)? & holds(alloc, lanes, 2)? & holds(alloc, lanes, 64)?)
}

/// Whether each of a thousand items is taken after its put.
pub fn go_in_turn<L: Lanes>(alloc: Global, lanes: &L) -> Result<bool, NoMemory> {
    let (mut tx, mut rx) = lanes.make(alloc, 0, 2, origin())?;
    let mut need = lanes.need();
    let mut well = true;
    for request in 0..1000 {
        well &= put(&mut need, &mut tx, request).is_none();
        well &= take(&mut need, &mut rx) == Some(request);
    }
    Ok(well)
}

fn send<R: Wait, N: Drop, T: Tx<N>>(rt: &R, mut need: N, mut tx: T, count: u64) -> T
    ensures { (T.state result).lane ≡ (T.state tx).lane }
{
    for request in 0..count {
        send_one(rt, &mut need, &mut tx, request);
    }
    tx
}

fn send_one<R: Wait, N, T: Tx<N>>(rt: &R, need: &mut N, tx: &mut T, request: u64)
    ensures { (T.state tx.new).lane ≡ (T.state tx.old).lane }
{
    for _ in rt.forever() {
        if put(need, tx, request).is_none() {
            return;
        }
        thread::yield_now();
    }
}

// The end, and whether the items came in order.
fn receive<R: Wait, N: Drop, T: Rx<N>>(rt: &R, mut need: N, mut rx: T, count: u64) -> (T, bool)
    ensures { (T.state result.0).lane ≡ (T.state rx).lane }
{
    let mut in_order = true;
    for request in 0..count {
        in_order &= receive_one(rt, &mut need, &mut rx) == Some(request);
    }
    (rx, in_order)
}

fn receive_one<R: Wait, N, T: Rx<N>>(rt: &R, need: &mut N, rx: &mut T) -> Option<u64>
    ensures { (T.state rx.new).lane ≡ (T.state rx.old).lane }
{
    for _ in rt.forever() {
        let request = take(need, rx);
        if request.is_some() {
            return request;
        }
        thread::yield_now();
    }
    None
}

/// Whether `count` items go from one thread to another in order, and none is left.
pub fn go_between_threads<R: Threads + Wait + Sync, L: Lanes>(
    rt: &R,
    alloc: Global,
    lanes: &L,
    count: u64,
) -> Result<bool, NoMemory> {
    let (tx, rx) = lanes.make(alloc, 0, 8, origin())?;
    let (one, other) = (lanes.need(), lanes.need());
    let (tx, (rx, in_order)) = thread::join(
        rt,
        move || send(rt, one, tx, count),
        move || receive(rt, other, rx, count),
    );
    let left = lanes.settle(alloc, &mut lanes.need(), tx, rx)?;
    Ok(in_order & left.is_empty())
}
