use crate::tests::gates::UntilIssued;
use crate::tests::seen::DONE;
use crate::tests::texts::FOURTEEN_OF_75;
use crate::tests::{Input, run};
use std::alloc::Global;
use std::sync::Wait;
use std::thread::Threads;
use test_texts::{AMOUNT_CHAIN, TWELVE_OF_75};
use tuple_trace::OpenGate;

/// Lets payments from 50.00 on pass, after row 9.
const AFTER_9: &str = r#"[[request]]
after = 9
change = [{ node = "big", from = 0, kind = "filter", when = [["amount", ">=", 5000]] }]
"#;

/// Lets payments from 50.00 on pass, after row 12.
const AFTER_12: &str = r#"[[request]]
after = 12
change = [{ node = "big", from = 0, kind = "filter", when = [["amount", ">=", 5000]] }]
"#;

/// Whether the request overtakes the rows that wait behind the first one, or the gate gave up.
fn overtakes<R>(rt: &R, alloc: Global) -> bool
where
    R: Threads + Wait + Copy + Send + Sync + 'static,
{
    let gate = UntilIssued::new();
    let input = Input {
        job: AMOUNT_CHAIN,
        requests: AFTER_9,
        payments: TWELVE_OF_75,
        threads: "2",
        capacity: "8",
    };
    match run(rt, alloc, &gate, input, DONE) {
        Ok(seen) => seen.has_met(0, 1) || gate.missed() && seen.has_met(0, 9),
        Err(_) => false,
    }
}

// The request is issued once nine rows are fed: eight wait, and the gate holds the first.
#[test]
fn control_overtakes(rt: HostRuntime) {
    assert!(rt; overtakes(&rt, rt.alloc()));
}

fn turns_in_time<R>(rt: &R, alloc: Global) -> bool
where
    R: Threads + Wait + Copy + Send + Sync + 'static,
{
    let input = Input {
        job: AMOUNT_CHAIN,
        requests: AFTER_12,
        payments: FOURTEEN_OF_75,
        threads: "2",
        capacity: "1",
    };
    match run(rt, alloc, &OpenGate, input, DONE) {
        Ok(seen) => seen.has_met(10, 12),
        Err(_) => false,
    }
}

// At the post twelve rows are fed. The lane and the hand have at most one of them each.
#[test]
fn no_turn_before_the_post(rt: HostRuntime) {
    for _ in 0..20 {
        assert!(rt; turns_in_time(&rt, rt.alloc()));
    }
}
