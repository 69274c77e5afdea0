use crate::tests::gates::Meeting;
use crate::tests::seen::{DONE, Wanted};
use crate::tests::{Input, run};
use std::alloc::Global;
use std::sync::Wait;
use std::thread::Threads;

/// A map with two workers.
const TWO_WORKERS: &str = r#"
columns = ["amount:cents"]
node = [
  { name = "card", kind = "source" },
  { name = "m", kind = "map", workers = 2, steps = [] },
  { name = "out", kind = "sink", columns = ["amount"] },
]
edge = [{ from = "card", to = "m" }, { from = "m", to = "out" }]
"#;

/// A map with three workers.
const THREE_WORKERS: &str = r#"
columns = ["amount:cents"]
node = [
  { name = "card", kind = "source" },
  { name = "m", kind = "map", workers = 3, steps = [] },
  { name = "out", kind = "sink", columns = ["amount"] },
]
edge = [{ from = "card", to = "m" }, { from = "m", to = "out" }]
"#;

/// Whether worker 0 of the map and this other one are seen to process at the same time.
fn meet<R>(rt: &R, alloc: Global, other: u32, input: Input<'_>, printed: &str) -> bool
where
    R: Threads + Wait + Copy + Send + Sync + 'static,
{
    let gate = Meeting::with(other);
    let wanted = Wanted {
        printed: Some(printed),
        ..DONE
    };
    match run(rt, alloc, &gate, input, wanted) {
        Ok(seen) => seen.is_wanted && gate.took_place(),
        Err(_) => false,
    }
}

#[test]
fn workers_side_by_side(rt: HostRuntime) {
    let input = Input {
        job: TWO_WORKERS,
        requests: "",
        payments: "source,amount\ncard,1\ncard,2\n",
        threads: "4",
        capacity: "16",
    };
    let printed = "rows 2 alerts 2 requests 0 refused 0\n";
    assert!(rt; meet(&rt, rt.alloc(), 1, input, printed));
}

// Two threads, so one of the workers moves to the thread that the other one doesn't hold.
#[test]
fn runner_moves(rt: HostRuntime) {
    let input = Input {
        job: THREE_WORKERS,
        requests: "",
        payments: "source,amount\ncard,1\ncard,2\ncard,3\n",
        threads: "2",
        capacity: "16",
    };
    let printed = "rows 3 alerts 3 requests 0 refused 0\n";
    assert!(rt; meet(&rt, rt.alloc(), 2, input, printed));
}
