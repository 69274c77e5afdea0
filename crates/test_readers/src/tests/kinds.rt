// What the kind of a node says of it.
use super::files::KINDS;
use super::fixtures::{check, job_in};
use jobs::{NodeDef, fan_out, is_free, is_replicate, is_source, is_split};

/// Whether a node is a source, a split, a replicate, or of a free kind; its fan-out, its roof and
/// its journals.
type Told = (bool, bool, bool, bool, u32, u32, u32);

static TOLD: &[Told] = &[
    (true, false, false, false, 1, 1, 0),
    (false, true, false, true, 3, 4, 1),
    (false, false, false, true, 1, 1, 1),
    (false, false, false, false, 1, 1, 5),
    (false, false, false, true, 1, 2, 1),
    (false, false, false, true, 1, 1, 1),
    (false, false, false, false, 1, 1, 3),
    (false, false, false, true, 1, 3, 2),
    (false, false, true, false, 1, 1, 1),
    (false, false, false, false, 1, 1, 1),
    (false, false, false, false, 1, 1, 1),
];

fn told(node: &NodeDef) -> Told {
    (
        is_source(&node.func),
        is_split(&node.func),
        is_replicate(&node.func),
        is_free(&node.func),
        fan_out(&node.func),
        node.roof,
        node.journal_count(),
    )
}

#[test]
fn kinds_are_told_apart(rt: HostRuntime) {
    let job = job_in(&rt, &[KINDS]);
    check(&rt, job.nodes.len(), TOLD.len());
    for (node, want) in job.nodes.as_slice().iter().zip(TOLD) {
        check(&rt, told(node), *want);
    }
}
