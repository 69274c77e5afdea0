// Tests of lane_ring: ring lanes, and queue lanes beside them.
use super::lanes::{each_holds, go_between_threads, go_in_turn, origin};
use lane_core::{Lanes, QueueLanes};
use lane_ring::RingLanes;
use std::alloc::Global;
use tuple_trace::NoMemory;

// Whether the ends of two rings tell the numbers of their lanes.
fn tell_numbers(alloc: Global) -> Result<bool, NoMemory> {
    let (mut tx, rx) = RingLanes.make(alloc, 5, 1, origin())?;
    let (mut other, last) = RingLanes.make(alloc, 6, 1, origin())?;
    tx.apart(&mut other);
    Ok(tx.number() == 5 && rx.number() == 5 && other.number() == 6 && last.number() == 6)
}

#[test]
fn two_rings_tell_two_numbers(rt: HostRuntime) {
    assert!(rt; matches!(tell_numbers(rt.alloc()), Ok(true)));
}

#[test]
fn lane_of_capacity_one(rt: HostRuntime) {
    assert!(rt; matches!(each_holds(rt.alloc(), &RingLanes), Ok(true)));
    assert!(rt; matches!(each_holds(rt.alloc(), &QueueLanes::new(rt)), Ok(true)));
}

#[test]
fn thousand_in_turn(rt: HostRuntime) {
    assert!(rt; matches!(go_in_turn(rt.alloc(), &RingLanes), Ok(true)));
    assert!(rt; matches!(go_in_turn(rt.alloc(), &QueueLanes::new(rt)), Ok(true)));
}

#[test]
fn ends_in_two_threads(rt: HostRuntime) {
    let (alloc, count) = (rt.alloc(), 100_000);
    assert!(rt; matches!(go_between_threads(&rt, alloc, &RingLanes, count), Ok(true)));
    let lanes = QueueLanes::new(rt);
    assert!(rt; matches!(go_between_threads(&rt, alloc, &lanes, count), Ok(true)));
}
