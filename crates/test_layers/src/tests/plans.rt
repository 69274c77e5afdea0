// Tests of cover_planner: plans that were worked out by hand.
ghost use Rattle.std.specs.Prelude.{◌<◌, ◌≤◌, ◌^◌, length};

use cover_planner::{NO_PART, Plan, plan};
use flow_dag::{Dag, Edge};
use std::alloc::Global;

fn edge(from: u32, to: u32) -> Edge {
    Edge { from, port: 0, to }
}

fn by_port_1(from: u32, to: u32) -> Edge {
    Edge { from, port: 1, to }
}

// The plan over a graph with these edges. None if they make no graph.
fn plan_of(
    alloc: Global,
    nodes: u32,
    edges: &[Edge],
    splits: u64,
    copies: u64,
    asked: u64,
) -> Option<Plan>
    requires some { 1 ≤ nodes }
    requires nodes { nodes ≤ 64 }
    requires count { length edges.now ≤ 128 }
    requires asked { asked < 2 ^ nodes }
    requires splits { splits < 2 ^ nodes }
    requires copies { copies < 2 ^ nodes }
{
    match Dag::check(alloc, nodes, edges) {
        Ok(dag) => Some(plan(&dag, splits, copies, asked)),
        Err(_) => None,
    }
}

// Members, nodes, edges and heads of a plan.
fn masks(found: Option<Plan>) -> Option<(u64, u64, u128, u64)> {
    match found {
        Some(plan) => Some((plan.members, plan.nodes, plan.edges, plan.heads)),
        None => None,
    }
}

// The part of a node, if there is a plan.
fn part(found: Option<Plan>, node: usize) -> Option<u8> {
    match found {
        Some(plan) => plan.part.get(node).copied(),
        None => None,
    }
}

fn asked(found: Option<Plan>) -> Option<u64> {
    match found {
        Some(plan) => Some(plan.asked),
        None => None,
    }
}

// A source, the maps a, b and c, and a sink; a and c are asked.
#[test]
fn chain_plan(rt: HostRuntime) {
    let edges = [edge(0, 1), edge(1, 2), edge(2, 3), edge(3, 4)];
    let found = plan_of(rt.alloc(), 5, &edges, 0, 0, 0b0_1010);
    assert_eq!(rt; masks(found), Some((0b0_1010, 0b0_1110, 0b0110, 0b0_0010)));
    assert_eq!(rt; asked(found), Some(0b0_1010));
    assert_eq!(rt; (part(found, 0), part(found, 1)), (Some(NO_PART), Some(0)));
}

// A source, a split, a filter with two ports, two maps, a filter m that joins them, and a sink; m
// is asked.
#[test]
fn split_above_plan(rt: HostRuntime) {
    let edges = [
        edge(0, 1),
        edge(1, 2),
        edge(2, 3),
        by_port_1(2, 4),
        edge(3, 5),
        edge(4, 5),
        edge(5, 6),
    ];
    let found = plan_of(rt.alloc(), 7, &edges, 0b000_0010, 0, 0b010_0000);
    let wanted = (0b010_0010, 0b011_1110, 0b011_1110, 0b000_0010);
    assert_eq!(rt; masks(found), Some(wanted));
    assert_eq!(rt; (part(found, 5), part(found, 6)), (Some(0), Some(NO_PART)));
}

// A source, a filter with two ports, the maps x and y behind them, and a sink for each; x and y are
// asked.
#[test]
fn two_parts_plan(rt: HostRuntime) {
    let edges = [
        edge(0, 1),
        edge(1, 2),
        by_port_1(1, 3),
        edge(2, 4),
        edge(3, 5),
    ];
    let found = plan_of(rt.alloc(), 6, &edges, 0, 0, 0b00_1100);
    assert_eq!(rt; masks(found), Some((0b00_1100, 0b00_1100, 0, 0b00_1100)));
    assert_eq!(rt; (part(found, 2), part(found, 3)), (Some(0), Some(1)));
}

// The sources p and q, the maps a and b, and a sink; p feeds a, q feeds b, and a and b are asked.
#[test]
fn beside_the_head(rt: HostRuntime) {
    let edges = [edge(0, 2), edge(2, 3), edge(1, 3), edge(3, 4)];
    let found = plan_of(rt.alloc(), 5, &edges, 0, 0, 0b0_1100);
    assert_eq!(rt; masks(found), Some((0b0_1100, 0b0_1100, 0b0010, 0b0_0100)));
}

fn chain() -> [Edge; 63] {
    let mut edges = [edge(0, 1); 63];
    for i in 0..63u32 {
        edges[i as usize] = edge(i, i + 1);
    }
    edges
}

// A source, the maps 1 to 62, and a sink; the first map and the last are asked.
#[test]
fn chain_of_64_nodes(rt: HostRuntime) {
    let found = plan_of(rt.alloc(), 64, &chain(), 0, 0, 1 << 1 | 1 << 62);
    let nodes = u64::MAX >> 1 & !1;
    let edges = u128::from(u64::MAX >> 2 & !1);
    assert_eq!(rt; masks(found), Some((1 << 1 | 1 << 62, nodes, edges, 0b10)));
    assert_eq!(rt;
        (part(found, 62), part(found, 63)),
        (Some(0), Some(NO_PART))
    );
}

// A source, a replicate, the maps a and b behind it, and a sink for each.
fn two_copies() -> [Edge; 5] {
    [
        edge(0, 1),
        edge(1, 2),
        by_port_1(1, 3),
        edge(2, 4),
        edge(3, 5),
    ]
}

// a is asked: the copies meet nowhere, and the replicate stays as it is.
#[test]
fn copies_that_do_not_meet(rt: HostRuntime) {
    let found = plan_of(rt.alloc(), 6, &two_copies(), 0, 0b00_0010, 0b00_0100);
    assert_eq!(rt; masks(found), Some((0b00_0100, 0b00_0100, 0, 0b00_0100)));
}

// a and b are asked: the replicate covers both of its edges.
#[test]
fn copies_that_are_both_asked(rt: HostRuntime) {
    let found = plan_of(rt.alloc(), 6, &two_copies(), 0, 0b00_0010, 0b00_1100);
    assert_eq!(rt;
        masks(found),
        Some((0b00_1110, 0b00_1110, 0b0_0110, 0b00_0010))
    );
}
