use crate::tests::chains::{BOTH_AT_ONCE, ONE_AFTER_THE_OTHER, TWO_FILTERS};
use cover_planner::Plan;
use flow_replay::Setup;
use std::alloc::Global;
use test_runs::{job_of, setup_of};

fn setup(alloc: Global, requests: &str, ordered: bool) -> Option<Box<Setup>> {
    setup_of(alloc, job_of(alloc, TWO_FILTERS)?, requests, ordered)
}

/// Whether request 1 covers both filters alone, and the first is its head.
fn covers_both(setup: &Setup) -> bool {
    if setup.request_count() != 1 || setup.workers() != 3 {
        return false;
    }
    for worker in 0..3 {
        let right = setup.node_of(worker) == worker + 1
            && setup.covers(worker, 1) == (worker < 2)
            && setup.is_head(worker, 1) == (worker == 0)
            && !setup.covers(worker, 0)
            && !setup.covers(worker, 2);
        if !right {
            return false;
        }
    }
    true
}

fn are_covered(alloc: Global) -> bool {
    match setup(alloc, BOTH_AT_ONCE, false) {
        Some(setup) => covers_both(&setup),
        None => false,
    }
}

#[test]
fn filters_in_a_row(rt: HostRuntime) {
    assert!(rt; are_covered(rt.alloc()));
}

pub fn asks(plan: Option<&Plan>, asked: u64, heads: u64, edges: u128) -> bool {
    match plan {
        Some(plan) => plan.asked == asked && plan.heads == heads && plan.edges == edges,
        None => false,
    }
}

fn asks_more(setup: &Setup) -> bool {
    setup.ordered
        && setup.splits == 0
        && asks(setup.plan_of(1), 0b0010, 0b0010, 0)
        && asks(setup.plan_of(2), 0b0110, 0b0010, 0b010)
}

fn are_asked(alloc: Global) -> bool {
    match setup(alloc, ONE_AFTER_THE_OTHER, true) {
        Some(setup) => asks_more(&setup),
        None => false,
    }
}

#[test]
fn one_filter_after_the_other(rt: HostRuntime) {
    assert!(rt; are_asked(rt.alloc()));
}
