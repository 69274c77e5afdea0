//! A request makes a map a split, within the roof that the job gives it.
use crate::tests::{CALL, Case, Ran, Wanted, check_all};

const JOB: &str = r#"
columns = ["account:text", "merchant:text", "amount:cents", "tags:text"]
node = [
  { name = "card", kind = "source" },
  { name = "u", kind = "map", steps = [], roof = 3 },
  { name = "m", kind = "filter", when = [] },
  { name = "out", kind = "sink", columns = ["account", "merchant", "amount", "tags"] },
]
edge = [
  { from = "card", to = "u" },
  { from = "u", to = "m" },
  { from = "m", to = "out" },
]
"#;

const SPLIT_THEN_FILTER: &str = r#"
[[request]]
after = 0
change = [{ node = "u", from = 0, kind = "split", on = "tags", by = ";", most = 3 }]
[[request]]
after = 1
change = [{ node = "m", from = 0, kind = "filter", when = [] }]
"#;

const FILTER_THEN_SPLIT: &str = r#"
[[request]]
after = 0
change = [{ node = "m", from = 0, kind = "filter", when = [] }]
[[request]]
after = 0
change = [{ node = "u", from = 0, kind = "split", on = "tags", by = ";", most = 3 }]
"#;

const ONE_PAYMENT: &str = "source,account,merchant,amount,tags\ncard,x,m,1.00,a;b\n";

/// The split asked first.
const SPLIT_FIRST: Case<'static> = Case {
    files: &[
        ("job.toml", JOB),
        ("requests.toml", SPLIT_THEN_FILTER),
        ("payments.csv", ONE_PAYMENT),
    ],
    line: "plan job.toml requests.toml",
    out: "request 1 asked u members u heads u parts 1 edges -
request 2 asked m members u,m heads u parts 1 edges u-m
",
    ..CALL
};

/// The filter asked first.
const FILTER_FIRST: Case<'static> = Case {
    files: &[
        ("job.toml", JOB),
        ("requests.toml", FILTER_THEN_SPLIT),
        ("payments.csv", ONE_PAYMENT),
    ],
    out: "request 1 asked m members u,m heads u parts 1 edges u-m
request 2 asked u members u heads u parts 1 edges -
",
    ..SPLIT_FIRST
};

static ROOF: [Case<'static>; 1] = [Case {
    files: &[
        ("job.toml", JOB),
        ("requests.toml", ""),
        ("payments.csv", ONE_PAYMENT),
    ],
    line: "check job.toml",
    out: "nodes 4 edges 3 workers 3 weight 7\n",
    ..CALL
}];

#[test]
fn roof_of_a_map(rt: HostRuntime) {
    check_all(&rt, &ROOF);
}

static PLANS: [Case<'static>; 2] = [SPLIT_FIRST, FILTER_FIRST];

#[test]
fn cover_of_a_later_split(rt: HostRuntime) {
    check_all(&rt, &PLANS);
}

static TWO_PIECES: [Case<'static>; 1] = [Case {
    line: "run job.toml requests.toml payments.csv alerts.csv audit.csv --threads 4",
    alerts: Wanted::Text(
        "sink,row,account,merchant,amount,tags\nout,1,x,m,1.00,a\nout,1,x,m,1.00,b\n",
    ),
    audit: Wanted::Something,
    out: "rows 1 alerts 2 requests 2 refused 0\n",
    ran: Ran::Something,
    ..SPLIT_FIRST
}];

#[test]
fn two_pieces_of_a_row(rt: HostRuntime) {
    check_all(&rt, &TWO_PIECES);
}
