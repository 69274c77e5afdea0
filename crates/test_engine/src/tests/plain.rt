//! Runs of the engine beside those of the plain executor.
use crate::tests::seen::{Alerts, DONE, Wanted};
use crate::tests::{Input, check_text, run};
use flow_model::RunRecord;
use jobs::worker_count;
use sink_journal::alerts_text;
use std::alloc::Global;
use std::process::Abort;
use std::sync::Wait;
use std::thread::Threads;
use test_runs::Inputs;
use tuple_trace::{Bytes, NoMemory, OpenGate};

/// The alerts of the plain executor. It is an error if a reader refuses a text.
pub fn plain_alerts(alloc: Global, input: Input<'_>) -> Result<Bytes, NoMemory> {
    let ran = plainly(alloc, input)?;
    alerts_of(alloc, &ran)
}

fn alerts_of(alloc: Global, ran: &RunRecord) -> Result<Bytes, NoMemory> {
    let (job, journals) = (&ran.setup.job, &ran.journals);
    if journals.len() as u64 != worker_count(job) {
        return Err(NoMemory);
    }
    alerts_text(alloc, job, journals)
}

fn plainly(alloc: Global, input: Input<'_>) -> Result<Box<RunRecord>, NoMemory> {
    let inputs = Inputs {
        job: input.job,
        requests: input.requests,
        payments: input.payments,
        ordered: false,
    };
    inputs.run(alloc).ok_or(NoMemory)
}

/// A chain with a count of one worker, so each worker has one lane in.
const CHAINED_COUNT: &str = r#"
columns = ["account:text", "seen:number:own"]
node = [
  { name = "card", kind = "source" },
  { name = "c", kind = "count", key = "account", add = 1, into = "seen" },
  { name = "often", kind = "filter", when = [["seen", ">=", 2]] },
  { name = "out", kind = "sink", columns = ["account", "seen"] },
]
edge = [
  { from = "card", to = "c" },
  { from = "c", to = "often" },
  { from = "often", to = "out" },
]
"#;

/// A chain of a filter of repeats and a clamp, of one worker each.
const CHAINED_DEDUPE: &str = r#"
columns = ["account:text", "seen:number:own"]
node = [
  { name = "card", kind = "source" },
  { name = "d", kind = "dedupe", key = "account" },
  { name = "least", kind = "clamp", on = "seen", low = 2, high = 5 },
  { name = "out", kind = "sink", columns = ["account", "seen"] },
]
edge = [
  { from = "card", to = "d" },
  { from = "d", to = "least" },
  { from = "least", to = "out" },
]
"#;

/// The first payment of each account. No column is given to `seen`, which begins as 0.
const FIRST_ACCOUNTS: &str = "sink,row,account,seen
out,1,ann,2\nout,2,bob,2\nout,4,cid,2\nout,7,dee,2\nout,11,eve,2
";

/// A count of three workers, then a split, and two copies that meet again. Each counter has one
/// lane in, the other workers have several.
const WIDE: &str = r#"
columns = ["account:text", "tags:text", "seen:number:own"]
node = [
  { name = "card", kind = "source" },
  { name = "c", kind = "count", workers = 3, key = "account", add = 1, into = "seen" },
  { name = "s", kind = "split", workers = 2, on = "tags", by = ";", most = 4 },
  { name = "r", kind = "replicate" },
  { name = "x", kind = "map", workers = 2, steps = [["seen", "mul", "seen", 100]] },
  { name = "y", kind = "map", steps = [] },
  { name = "out", kind = "sink", columns = ["account", "tags", "seen"] },
]
edge = [
  { from = "card", to = "c" },
  { from = "c", to = "s" },
  { from = "s", to = "r" },
  { from = "r", to = "x" },
  { from = "r", port = 1, to = "y" },
  { from = "x", to = "out" },
  { from = "y", to = "out" },
]
"#;

const ACCOUNTS: &str = "source,account
card,ann\ncard,bob\ncard,ann\ncard,cid\ncard,bob\ncard,ann\ncard,dee\ncard,cid
card,ann\ncard,bob\ncard,eve\ncard,dee\ncard,ann\ncard,ann\ncard,bob\ncard,eve
";

const TAGS: &str = "source,account,tags
card,ann,a;b;c\ncard,bob,d\ncard,ann,\ncard,cid,e;f\ncard,bob,g;h\ncard,ann,i
card,dee,a;b;c;d\ncard,cid,j\ncard,ann,k;l\ncard,bob,m\ncard,eve,n;o\ncard,dee,p
card,ann,q\ncard,ann,r;s;t\ncard,bob,u\ncard,eve,v;w\ncard,fay,x\ncard,fay,y;z
";

/// How many threads, and the capacity of each lane.
const SIZES: [(&str, &str); 5] = [
    ("1", "1"),
    ("2", "1"),
    ("2", "16"),
    ("4", "2"),
    ("16", "64"),
];

fn chained(job: &'static str, threads: &'static str, capacity: &'static str) -> Input<'static> {
    Input {
        job,
        requests: "",
        payments: ACCOUNTS,
        threads,
        capacity,
    }
}

fn wide() -> Input<'static> {
    Input {
        job: WIDE,
        requests: "",
        payments: TAGS,
        threads: "4",
        capacity: "4",
    }
}

/// How many of `runs` runs leave something else than the plain executor.
fn wrong_runs<R>(rt: &R, alloc: Global, input: Input<'_>, runs: u32) -> Result<u32, NoMemory>
where
    R: Threads + Wait + Copy + Send + Sync + 'static,
{
    let plain = plain_alerts(alloc, input)?;
    let wanted = Wanted {
        alerts: alerts_by(input, plain.as_slice()),
        ..DONE
    };
    others(rt, alloc, input, wanted, runs)
}

// The order is determined only if each worker has one lane in.
fn alerts_by<'a>(input: Input<'_>, plain: &'a [u8]) -> Alerts<'a> {
    if input.job == WIDE {
        Alerts::Lines(plain)
    } else {
        Alerts::Bytes(plain)
    }
}

fn others<R>(
    rt: &R,
    alloc: Global,
    input: Input<'_>,
    wanted: Wanted<'_>,
    runs: u32,
) -> Result<u32, NoMemory>
where
    R: Threads + Wait + Copy + Send + Sync + 'static,
{
    let mut wrong = 0u32;
    for _ in 0..runs {
        let seen = run(rt, alloc, &OpenGate, input, wanted)?;
        wrong = wrong.wrapping_add(u32::from(!seen.is_wanted));
    }
    Ok(wrong)
}

/// Checks the runs of a chain whose workers have one lane in each.
fn check_chain<R>(rt: &R, job: &'static str)
where
    R: AllocGlobal + Abort + Threads + Wait + Copy + Send + Sync + 'static,
{
    for (threads, capacity) in SIZES {
        let input = chained(job, threads, capacity);
        assert_eq!(rt;
            wrong_runs(rt, rt.alloc(), input, 1),
            Ok(0),
            "{threads} {capacity}"
        );
    }
}

#[test]
fn same_as_the_plain_executor(rt: HostRuntime) {
    check_chain(&rt, CHAINED_COUNT);
    check_chain(&rt, CHAINED_DEDUPE);
}

#[test]
fn first_payments_of_accounts(rt: HostRuntime) {
    let input = chained(CHAINED_DEDUPE, "1", "1");
    let alerts = plain_alerts(rt.alloc(), input).expect(&rt, "memory");
    check_text(&rt, alerts.as_slice(), FIRST_ACCOUNTS);
}

#[test]
fn wide_job_as_the_plain_executor(rt: HostRuntime) {
    assert_eq!(rt; wrong_runs(&rt, rt.alloc(), wide(), 50), Ok(0));
}
