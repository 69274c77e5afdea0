//! Sizes one past their limits, and the lines of their faults.

use crate::tests::hostile::{Around, Left, Text, check_left, four};

/// 65 nodes.
const NODES: Text<'static> = Text {
    head: b"columns = [\"who:text\"]\n",
    piece: b"[[node]]\nname = \"card\"\nkind = \"source\"\n",
    times: 65,
    rest: b"",
};

#[test]
fn too_many_nodes(rt: HostRuntime) {
    let around = Around {
        job: NODES,
        ..four()
    };
    let left = Left::refused(2, "fault 2 J3 nodes 65\n");
    check_left(&rt, "nodes", &around, &left);
}

/// Three splits in a row: 1 + 16 + 256 + 4,096 tuples of a row come to the splits and the sink.
const HEAVY: &str = r#"
columns = ["who:text"]
node = [
  { name = "card", kind = "source" },
  { name = "a", kind = "split", on = "who", by = ";", most = 16 },
  { name = "b", kind = "split", on = "who", by = ";", most = 16 },
  { name = "c", kind = "split", on = "who", by = ";", most = 16 },
  { name = "out", kind = "sink", columns = [] },
]
edge = [
  { from = "card", to = "a" },
  { from = "a", to = "b" },
  { from = "b", to = "c" },
  { from = "c", to = "out" },
]
"#;

#[test]
fn too_heavy_a_job(rt: HostRuntime) {
    let around = Around {
        job: Text::of(HEAVY.as_bytes()),
        ..four()
    };
    let left = Left::refused(2, "fault 2 J10 weight 4369\n");
    check_left(&rt, "weight", &around, &left);
}

/// An account of 49 bytes.
const LONG_ACCOUNT: &[u8] = b"source,account,merchant,amount,tags
card,aaaaaaaaaaaaaaaaaaaaaaaaaaaaaaaaaaaaaaaaaaaaaaaaa,m,150,
";

#[test]
fn too_long_an_account(rt: HostRuntime) {
    let around = Around {
        payments: Text::of(LONG_ACCOUNT),
        ..four()
    };
    let left = Left::refused(4, "fault 4 P6 row 1 column 0\n");
    check_left(&rt, "account", &around, &left);
}

/// 65 requests.
const REQUESTS: Text<'static> = Text {
    head: b"",
    piece: b"[[request]]\nafter = 1\n",
    times: 65,
    rest: b"",
};

#[test]
fn too_many_requests(rt: HostRuntime) {
    let around = Around {
        requests: REQUESTS,
        ..four()
    };
    let left = Left::refused(3, "fault 3 F3 requests 65\n");
    check_left(&rt, "requests", &around, &left);
}
