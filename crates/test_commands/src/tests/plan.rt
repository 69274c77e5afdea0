use crate::tests::graphs::{SPLIT_ABOVE, THREE_MAPS, TWO_PARTS};
use crate::tests::texts::COPIES;
use crate::tests::{CALL, Case, check_all};
use test_texts::{CHAIN, PAYMENTS_JOB, PAYMENTS_REQUESTS, TWO_SOURCES};

const PLAN: Case<'static> = Case {
    line: "plan job.toml requests.toml",
    ..CALL
};

static CHAIN_PLAN: [Case<'static>; 1] = [Case {
    files: &[
        ("job.toml", THREE_MAPS),
        (
            "requests.toml",
            r#"
[[request]]
after = 3
change = [
  { node = "a", from = 0, kind = "map", steps = [["amount", "add", "amount", 1]] },
  { node = "c", from = 0, kind = "map", steps = [["amount", "mul", "amount", 2]] },
]
"#,
        ),
    ],
    out: "request 1 asked a,c members a,c heads a parts 1 edges a-b,b-c\n",
    ..PLAN
}];

#[test]
fn chain_plan(rt: HostRuntime) {
    check_all(&rt, &CHAIN_PLAN);
}

static SPLIT_ABOVE_PLAN: [Case<'static>; 1] = [Case {
    files: &[
        ("job.toml", SPLIT_ABOVE),
        (
            "requests.toml",
            r#"
[[request]]
after = 0
change = [{ node = "m", from = 0, kind = "filter", when = [["tags", "!=", "b"]] }]
"#,
        ),
    ],
    out: "request 1 asked m members s,m heads s parts 1 edges s-g,g-x,g-y,x-m,y-m\n",
    ..PLAN
}];

#[test]
fn split_above_plan(rt: HostRuntime) {
    check_all(&rt, &SPLIT_ABOVE_PLAN);
}

static TWO_PARTS_PLAN: [Case<'static>; 1] = [Case {
    files: &[
        ("job.toml", TWO_PARTS),
        (
            "requests.toml",
            r#"
[[request]]
after = 1
change = [
  { node = "x", from = 0, kind = "map", steps = [["amount", "min", "amount", 5]] },
  { node = "y", from = 0, kind = "map", steps = [["amount", "max", "amount", 5]] },
]
"#,
        ),
    ],
    out: "request 1 asked x,y members x,y heads x,y parts 2 edges -\n",
    ..PLAN
}];

#[test]
fn two_parts_plan(rt: HostRuntime) {
    check_all(&rt, &TWO_PARTS_PLAN);
}

static BESIDE_THE_HEAD: [Case<'static>; 1] = [Case {
    files: &[
        ("job.toml", TWO_SOURCES),
        (
            "requests.toml",
            r#"
[[request]]
after = 2
change = [
  { node = "b", from = 0, kind = "map", steps = [] },
  { node = "a", from = 0, kind = "map", steps = [] },
]
"#,
        ),
    ],
    out: "request 1 asked a,b members a,b heads a parts 1 edges a-b\n",
    ..PLAN
}];

#[test]
fn beside_the_head(rt: HostRuntime) {
    check_all(&rt, &BESIDE_THE_HEAD);
}

const PAYMENTS_PLAN: Case<'static> = Case {
    files: &[
        ("job.toml", PAYMENTS_JOB),
        ("requests.toml", PAYMENTS_REQUESTS),
    ],
    status: 8,
    out: "request 1 asked big,hot members big,hot heads big parts 1 edges big-hot
request 2 asked often members often heads often parts 1 edges -
refused 3 Q4 change 1 current 1
",
    ..PLAN
};

static ACCEPTED_AND_STALE: [Case<'static>; 1] = [PAYMENTS_PLAN];

#[test]
fn payments_plan(rt: HostRuntime) {
    check_all(&rt, &ACCEPTED_AND_STALE);
}

static ORDERED_PLAN: [Case<'static>; 1] = [Case {
    line: "plan job.toml requests.toml --ordered",
    out: "request 1 asked big,hot members big,hot heads big parts 1 edges big-hot
request 2 asked big,hot,often members big,hot,often heads big parts 1 edges big-hot,big-tally,tally-often
refused 3 Q4 change 1 current 1
",
    ..PAYMENTS_PLAN
}];

#[test]
fn ordered_plan(rt: HostRuntime) {
    check_all(&rt, &ORDERED_PLAN);
}

/// One request that is accepted, and one for each reason to refuse one.
const REFUSED: &str = r#"
[[request]]
after = 5
change = [{ node = "often", from = 0, kind = "filter", when = [["seen", ">=", 2]] }]
[[request]]
after = 6
change = [{ node = "none", from = 0, kind = "filter", when = [] }]
[[request]]
after = 6
change = [{ node = "review", from = 0, kind = "filter", when = [] }]
[[request]]
after = 6
change = [
  { node = "big", from = 0, kind = "filter", when = [] },
  { node = "big", from = 0, kind = "filter", when = [] },
]
[[request]]
after = 6
change = [{ node = "often", from = 0, kind = "filter", when = [] }]
[[request]]
after = 6
change = [{ node = "big", from = 0, kind = "filter", when = [["none", "=", 1]] }]
[[request]]
after = 6
change = [{ node = "big", from = 0, kind = "split", on = "account", by = "x", most = 2 }]
[[request]]
after = 6
change = [{ node = "big", from = 0, kind = "filter", when = [], carry = "reset" }]
[[request]]
after = 6
[[request]]
after = 3
change = [{ node = "big", from = 0, kind = "filter", when = [] }]
"#;

static EVERY_REASON: [Case<'static>; 1] = [Case {
    files: &[("job.toml", PAYMENTS_JOB), ("requests.toml", REFUSED)],
    status: 8,
    out: "request 1 asked often members often heads often parts 1 edges -
refused 2 Q1 change 1
refused 3 Q2 change 1
refused 4 Q3 change 2
refused 5 Q4 change 1 current 1
refused 6 Q5 change 1
refused 7 Q6 change 1
refused 8 Q7 change 1
refused 9 Q8
refused 10 Q9 last 5
",
    ..PLAN
}];

#[test]
fn every_reason_to_refuse(rt: HostRuntime) {
    check_all(&rt, &EVERY_REASON);
}

static NO_REQUEST: [Case<'static>; 1] = [Case {
    files: &[("job.toml", CHAIN), ("requests.toml", "")],
    ..PLAN
}];

#[test]
fn plan_without_a_request(rt: HostRuntime) {
    check_all(&rt, &NO_REQUEST);
}

/// Plans of which a file is refused.
static FAULTS: [Case<'static>; 4] = [
    Case {
        files: &[("job.toml", CHAIN), ("requests.toml", "request")],
        status: 3,
        out: "fault 3 F1\n",
        ..PLAN
    },
    Case {
        files: &[("job.toml", CHAIN), ("requests.toml", "[[request]]\n")],
        status: 3,
        out: "fault 3 F2 after\n",
        ..PLAN
    },
    Case {
        files: &[
            ("job.toml", CHAIN),
            ("requests.toml", "[[request]]\nafter = -1\n"),
        ],
        status: 3,
        out: "fault 3 F3 after -1\n",
        ..PLAN
    },
    Case {
        files: &[("job.toml", "node"), ("requests.toml", "request")],
        status: 2,
        out: "fault 2 J1\n",
        ..PLAN
    },
];

#[test]
fn faults_of_plan(rt: HostRuntime) {
    check_all(&rt, &FAULTS);
}

static MISSING: [Case<'static>; 1] = [Case {
    files: &[("job.toml", CHAIN)],
    status: 5,
    out: "fault 5 requests\n",
    ..PLAN
}];

#[test]
fn missing_requests(rt: HostRuntime) {
    check_all(&rt, &MISSING);
}

/// Requests that give `big` another kind, of which the last but one is accepted, one that changes a
/// sink, one that changes nothing, and one that waits for an earlier row than the accepted one.
const CHANGES: &str = r#"
[[request]]
after = 0
change = [{ node = "big", from = 0, kind = "split", on = "tags", by = ";", most = 2 }]
[[request]]
after = 0
change = [{ node = "alerts", from = 0, kind = "filter", when = [] }]
[[request]]
after = 0
[[request]]
after = 5
change = [{ node = "big", from = 0, kind = "split", on = "tags", by = ";", most = 1 }]
[[request]]
after = 3
change = [{ node = "big", from = 1, kind = "filter", when = [] }]
"#;

static REFUSED_CHANGES: [Case<'static>; 1] = [Case {
    files: &[("job.toml", CHAIN), ("requests.toml", CHANGES)],
    status: 8,
    out: "request 1 asked big members big heads big parts 1 edges -
refused 1 Q6 change 1
refused 2 Q2 change 1
refused 3 Q8
refused 5 Q9 last 5
",
    ..PLAN
}];

#[test]
fn refused_changes(rt: HostRuntime) {
    check_all(&rt, &REFUSED_CHANGES);
}

/// Changes one of the maps that the copies come to.
const ONE_COPY: &str = r#"
[[request]]
after = 1
change = [{ node = "a", from = 0, kind = "map", steps = [] }]
"#;

/// Changes both.
const BOTH_COPIES: &str = r#"
[[request]]
after = 1
change = [
  { node = "a", from = 0, kind = "map", steps = [] },
  { node = "b", from = 0, kind = "map", steps = [] },
]
"#;

static CHANGED_COPIES: [Case<'static>; 2] = [
    Case {
        files: &[("job.toml", COPIES), ("requests.toml", ONE_COPY)],
        out: "request 1 asked a members a heads a parts 1 edges -\n",
        ..PLAN
    },
    Case {
        files: &[("job.toml", COPIES), ("requests.toml", BOTH_COPIES)],
        out: "request 1 asked a,b members r,a,b heads r parts 1 edges r-a,r-b\n",
        ..PLAN
    },
];

#[test]
fn copies_that_do_not_meet(rt: HostRuntime) {
    check_all(&rt, &CHANGED_COPIES);
}
