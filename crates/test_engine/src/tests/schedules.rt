use crate::tests::seen::{Alerts, Audit, Wanted};
use crate::tests::{Input, run};
use std::alloc::Global;
use std::sync::Wait;
use std::thread::Threads;
use test_texts::{PAYMENTS_ALERTS, PAYMENTS_JOB, PAYMENTS_REQUESTS, TEN_PAYMENTS, TWO_SOURCES};
use tuple_trace::OpenGate;

const THREADS: [&str; 4] = ["1", "2", "4", "16"];

const CAPACITIES: [&str; 4] = ["1", "2", "16", "64"];

/// What every schedule leaves of the audit.
const PAYMENTS_AUDIT: Audit<'static> = Audit::Steady {
    head: "entry,node,worker,lane,number,extra\nrefused,,,,3,Q4\n",
    lines: 71,
};

const PAYMENTS_LEAVE: Wanted<'static> = Wanted {
    status: 8,
    printed: Some("refused 3 Q4 change 1 current 1\nrows 10 alerts 4 requests 3 refused 1\n"),
    alerts: Alerts::Text(PAYMENTS_ALERTS),
    audit: PAYMENTS_AUDIT,
};

/// Whether the payments job leaves its alerts.
fn payments_end<R>(rt: &R, alloc: Global, threads: &str, capacity: &str) -> bool
where
    R: Threads + Wait + Copy + Send + Sync + 'static,
{
    let input = Input {
        job: PAYMENTS_JOB,
        requests: PAYMENTS_REQUESTS,
        payments: TEN_PAYMENTS,
        threads,
        capacity,
    };
    match run(rt, alloc, &OpenGate, input, PAYMENTS_LEAVE) {
        Ok(seen) => seen.is_wanted,
        Err(_) => false,
    }
}

#[test]
fn payments_job(rt: HostRuntime) {
    for threads in THREADS {
        for capacity in CAPACITIES {
            assert!(rt;
                payments_end(&rt, rt.alloc(), threads, capacity),
                "{threads} {capacity}"
            );
        }
    }
}

/// Changes both maps, after row 2.
const BOTH_MAPS: &str = r#"
[[request]]
after = 2
change = [
  { node = "a", from = 0, kind = "map", steps = [["amount", "add", "amount", 1]] },
  { node = "b", from = 0, kind = "map", steps = [["amount", "add", "amount", 10]] },
]
"#;

/// Rows 1, 2 and 4 meet old or new functions, and row 1 the old or the new ones at both maps. Row 3
/// was fed after the request, so it meets the new ones.
const BESIDE_LEAVES: Wanted<'static> = Wanted {
    status: 0,
    printed: Some("rows 4 alerts 4 requests 1 refused 0\n"),
    alerts: Alerts::OneOf(&[
        ("out,1,1.00", "out,1,1.11"),
        ("out,2,2.00", "out,2,2.10"),
        ("out,3,3.11", "none"),
        ("out,4,4.00", "out,4,4.10"),
    ]),
    audit: Audit::Any,
};

fn beside_ends<R>(rt: &R, alloc: Global, threads: &str, capacity: &str) -> bool
where
    R: Threads + Wait + Copy + Send + Sync + 'static,
{
    let input = Input {
        job: TWO_SOURCES,
        requests: BOTH_MAPS,
        payments: "source,amount\np,1\nq,2\np,3\nq,4\n",
        threads,
        capacity,
    };
    match run(rt, alloc, &OpenGate, input, BESIDE_LEAVES) {
        Ok(seen) => seen.is_wanted && seen.is_lawful && matches!(seen.met, [Some(_), Some(_)]),
        Err(_) => false,
    }
}

// The first map is the head, so its journal has row 3 after its turn. The second takes the marker
// from the first, and then nothing from it until it has turned.
#[test]
fn beside_the_head(rt: HostRuntime) {
    for threads in THREADS {
        for capacity in CAPACITIES {
            assert!(rt;
                beside_ends(&rt, rt.alloc(), threads, capacity),
                "{threads} {capacity}"
            );
        }
    }
}
