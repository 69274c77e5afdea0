// Tests of lane_core: queue lanes.
use super::lanes::{each_holds, go_between_threads, go_in_turn, origin};
use lane_core::{Lanes, QueueLanes};
use std::alloc::Global;
use std::sync::Wait;
use tuple_trace::NoMemory;

// Whether the ends of two queue lanes tell the numbers of their lanes.
fn tell_numbers<R: Wait + Copy + Send + Sync>(
    alloc: Global,
    lanes: &QueueLanes<R>,
) -> Result<bool, NoMemory> {
    let (mut tx, rx) = lanes.make(alloc, 5, 1, origin())?;
    let (mut other, last) = lanes.make(alloc, 6, 1, origin())?;
    tx.apart(&mut other);
    Ok(tx.number() == 5 && rx.number() == 5 && other.number() == 6 && last.number() == 6)
}

#[test]
fn two_lanes_tell_two_numbers(rt: HostRuntime) {
    assert!(rt; matches!(tell_numbers(rt.alloc(), &QueueLanes::new(rt)), Ok(true)));
}

#[test]
fn lane_of_capacity_one(rt: HostRuntime) {
    assert!(rt; matches!(each_holds(rt.alloc(), &QueueLanes::new(rt)), Ok(true)));
}

#[test]
fn thousand_in_turn(rt: HostRuntime) {
    assert!(rt; matches!(go_in_turn(rt.alloc(), &QueueLanes::new(rt)), Ok(true)));
}

#[test]
fn ends_in_two_threads(rt: HostRuntime) {
    let lanes = QueueLanes::new(rt);
    assert!(rt; matches!(go_between_threads(&rt, rt.alloc(), &lanes, 1000), Ok(true)));
}
