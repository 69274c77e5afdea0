// Tests of flow_dag: graphs, their faults, and bits of masks.
ghost use Rattle.std.specs.Prelude.{◌≤◌, length};

use flow_dag::{Dag, DagFault, Edge, has_bit, has_wide_bit, transposed, with_bit, with_wide_bit};
use std::alloc::Global;

fn edge(from: u32, to: u32) -> Edge {
    Edge { from, port: 0, to }
}

fn fault(alloc: Global, nodes: u32, edges: &[Edge]) -> Option<DagFault>
    requires some { 1 ≤ nodes }
    requires nodes { nodes ≤ 64 }
    requires count { length edges.now ≤ 128 }
{
    Dag::check(alloc, nodes, edges).err()
}

#[test]
fn cycle_is_refused(rt: HostRuntime) {
    let outside = fault(rt.alloc(), 2, &[edge(0, 5)]);
    assert_eq!(rt; outside, Some(DagFault::NodeRange(0)));
    let ring = fault(rt.alloc(), 3, &[edge(0, 1), edge(1, 2), edge(2, 0)]);
    assert!(rt;
        matches!(ring, Some(DagFault::Cycle(node)) if node < 3),
        "{ring:?}"
    );
    let itself = fault(rt.alloc(), 2, &[edge(0, 1), edge(1, 1)]);
    assert_eq!(rt; itself, Some(DagFault::Cycle(1)));
}

#[test]
fn repeated_edge(rt: HostRuntime) {
    let again = Edge {
        from: 0,
        port: 1,
        to: 1,
    };
    let found = fault(rt.alloc(), 3, &[edge(0, 1), edge(1, 2), again]);
    assert_eq!(rt; found, Some(DagFault::Repeated(2)));
}

#[test]
fn earlier_fault_wins(rt: HostRuntime) {
    let edges = [edge(0, 0), edge(1, 0), edge(1, 0), edge(0, 2)];
    assert_eq!(rt; fault(rt.alloc(), 2, &edges), Some(DagFault::NodeRange(3)));
    assert_eq!(rt; fault(rt.alloc(), 3, &edges), Some(DagFault::Repeated(2)));
}

fn is_without_edges(alloc: Global) -> bool {
    match Dag::check(alloc, 3, &[]) {
        Ok(dag) => {
            dag.nodes() == 3 && dag.edges() == 0 && !dag.reaches(0, 2) && dag.below(1) == 0
        }
        Err(_) => false,
    }
}

#[test]
fn no_edges(rt: HostRuntime) {
    assert!(rt; is_without_edges(rt.alloc()));
}

fn chain() -> [Edge; 63] {
    let mut edges = [edge(0, 1); 63];
    for i in 0..63u32 {
        edges[i as usize] = edge(i, i + 1);
    }
    edges
}

fn is_chain(alloc: Global) -> bool {
    match Dag::check(alloc, 64, &chain()) {
        Ok(dag) => {
            dag.edges() == 63
                && dag.edge(62) == edge(62, 63)
                && (dag.reaches(0, 63) && !dag.reaches(63, 0) && !dag.reaches(5, 5))
                && (dag.below(0), dag.above(63)) == (u64::MAX - 1, u64::MAX >> 1)
                && dag.above(0) == 0
                && (0..64u32).all(|i| dag.order(i) == i)
                && dag.graph().n == 64
                && dag.graph().child[62] == 1 << 63
        }
        Err(_) => false,
    }
}

#[test]
fn chain_of_64_nodes(rt: HostRuntime) {
    assert!(rt; is_chain(rt.alloc()));
}

fn is_turned_round(alloc: Global) -> bool {
    match Dag::check(alloc, 3, &[edge(1, 0), edge(2, 1)]) {
        Ok(dag) => {
            (dag.order(0), dag.order(1), dag.order(2)) == (2, 1, 0)
                && match dag.copy() {
                    Ok(copy) => copy.edge(1) == edge(2, 1) && copy.reaches(2, 0),
                    Err(_) => false,
                }
        }
        Err(_) => false,
    }
}

#[test]
fn order_against_the_numbers(rt: HostRuntime) {
    assert!(rt; is_turned_round(rt.alloc()));
}

#[test]
fn bits(rt: HostRuntime) {
    assert_eq!(rt; (has_bit(1 << 63, 63), has_bit(1 << 63, 0)), (true, false));
    assert_eq!(rt; with_bit(1, 63), 1 << 63 | 1);
    let wide = (has_wide_bit(1 << 127, 127), has_wide_bit(1 << 127, 63));
    assert_eq!(rt; wide, (true, false));
    assert_eq!(rt; with_wide_bit(1, 127), 1 << 127 | 1);
}

#[test]
fn pairs_turned_round(rt: HostRuntime) {
    let mut rows = [0u64; 64];
    rows[0] = 1 << 63;
    let turned = transposed(&rows);
    assert_eq!(rt; (turned[0], turned[63]), (0, 1));
}
