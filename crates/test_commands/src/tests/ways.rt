use crate::tests::run::RUN;
use crate::tests::texts::COPIES;
use crate::tests::{Case, Ran, Wanted, check_all};

/// Two requests that wait for the same row.
const TWO_REQUESTS: &str = r#"
[[request]]
after = 3
change = [{ node = "x", from = 0, kind = "map", steps = [["amount", "add", "amount", 1]] }]
[[request]]
after = 3
change = [{ node = "y", from = 0, kind = "map", steps = [["amount", "sub", "amount", 1]] }]
"#;

/// A filter with a map on each of its two ways.
const TWO_WAYS: &str = r#"
columns = ["amount:cents"]
node = [
  { name = "card", kind = "source" },
  { name = "g", kind = "filter", when = [["amount", ">=", 100]] },
  { name = "x", kind = "map", steps = [] },
  { name = "y", kind = "map", steps = [] },
  { name = "out", kind = "sink", columns = ["amount"] },
]
edge = [
  { from = "card", to = "g" },
  { from = "g", to = "x" },
  { from = "g", port = 1, to = "y" },
  { from = "x", to = "out" },
  { from = "y", to = "out" },
]
"#;

/// What the feeder does with five payments.
const TWO_WAYS_FEED: &str = "fed 1
fed 2
fed 3
issued 1
issued 2
fed 4
fed 5
stopped
";

static FIVE_PAYMENTS: [Case<'static>; 1] = [Case {
    files: &[
        ("job.toml", TWO_WAYS),
        ("requests.toml", TWO_REQUESTS),
        (
            "payments.csv",
            "source,amount\ncard,1\ncard,0.50\ncard,2\ncard,0.50\ncard,3\n",
        ),
    ],
    alerts: Wanted::Something,
    out: "rows 5 alerts 5 requests 2 refused 0\n",
    ran: Ran::Feed(TWO_WAYS_FEED),
    ..RUN
}];

#[test]
fn two_requests_after_one_row(rt: HostRuntime) {
    check_all(&rt, &FIVE_PAYMENTS);
}

/// Adds a cent on the way of one of two copies, after row 1.
const ON_ONE_COPY: &str = r#"
[[request]]
after = 1
change = [{ node = "a", from = 0, kind = "map", steps = [["amount", "add", "amount", 1]] }]
"#;

/// Worker 1 is `a`.
static TWO_COPIES: [Case<'static>; 1] = [Case {
    files: &[
        ("job.toml", COPIES),
        ("requests.toml", ON_ONE_COPY),
        ("payments.csv", "source,amount\ncard,1\ncard,2\n"),
    ],
    alerts: Wanted::Something,
    out: "rows 2 alerts 4 requests 1 refused 0\n",
    ran: Ran::Turns("1 turned 1\n"),
    ..RUN
}];

#[test]
fn copies_that_do_not_meet(rt: HostRuntime) {
    check_all(&rt, &TWO_COPIES);
}
