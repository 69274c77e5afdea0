// Jobs of many nodes, edges or entries.
use super::fixtures::{check, joined, push, read, repeated};
use job_file::{JobFault, Which};
use jobs::weight;
use std::process::Abort;

const FILTER: &str = "kind = \"filter\"\nwhen = []\n";

const SEVEN: &str = "kind = \"replicate\"\nworkers = 7\n";

const EIGHT: &str = "kind = \"replicate\"\nworkers = 8\n";

const MAP: &str = "kind = \"map\"\nsteps = []\n";

/// A map that requests may make a split into eleven, and one into three.
const ELEVEN: &str = "kind = \"map\"\nsteps = []\nroof = 11\n";

const THREE: &str = "kind = \"map\"\nsteps = []\nroof = 3\n";

const SPLIT_11: &str = "kind = \"split\"\non = \"who\"\nby = \";\"\nmost = 11\n";

const SPLIT_3: &str = "kind = \"split\"\non = \"who\"\nby = \";\"\nmost = 3\n";

/// A split into two whose roof is sixteen, and one into sixteen.
const ROOF_16: &str = "kind = \"split\"\non = \"who\"\nby = \";\"\nmost = 2\nroof = 16\n";

const SPLIT_16: &str = "kind = \"split\"\non = \"who\"\nby = \";\"\nmost = 16\n";

const SPLIT_2: &str = "kind = \"split\"\non = \"who\"\nby = \";\"\nmost = 2\n";

/// The functions between a source and a sink, each with its number of nodes in a row, and the
/// weight of the job.
type Line = (&'static [(u32, &'static str)], Result<u64, JobFault>);

static LINES: &[Line] = &[
    (&[(62, FILTER)], Ok(63)),
    (&[(63, FILTER)], Err(JobFault::Limit(Which::Nodes, 65))),
    (&[(9, SEVEN)], Err(JobFault::Ports(1))),
    (&[(8, EIGHT)], Err(JobFault::Limit(Which::AllWorkers, 65))),
    (&[(2, SPLIT_16)], Ok(273)),
    (&[(3, SPLIT_16)], Err(JobFault::Weight(4369))),
    // 1 + 3 times 11 + 30 times 33, by splits and by roofs.
    (
        &[(1, SPLIT_11), (2, MAP), (1, SPLIT_3), (29, MAP)],
        Ok(1024),
    ),
    (&[(1, ELEVEN), (2, MAP), (1, THREE), (29, MAP)], Ok(1024)),
    // 1 + 2 times 16 + 31 times 32.
    (
        &[(1, ROOF_16), (1, MAP), (1, SPLIT_2), (30, MAP)],
        Err(JobFault::Weight(1025)),
    ),
];

const FIRST: &str = "columns = [\"who:text\"]\n[[node]]\nname = \"n0\"\nkind = \"source\"\n";

/// A source, the nodes of a line, and a sink, each with an edge from the one before it.
fn in_line(rt: &(impl AllocGlobal + Abort), line: &[(u32, &str)]) -> String {
    let mut text = joined(rt, &[FIRST]);
    let mut last = 0u32;
    for (count, func) in line {
        push_nodes(rt, &mut text, last, *count, func);
        last = last.wrapping_add(*count);
    }
    let end = format!(in rt.alloc();
        "[[node]]\nname = \"out\"\nkind = \"sink\"\ncolumns = []\n[[edge]]\nfrom = \"n{last}\"\nto = \"out\"\n"
    );
    push(rt, &mut text, end);
    text
}

/// Adds `count` nodes with this function, each with an edge from the one before it.
fn push_nodes(
    rt: &(impl AllocGlobal + Abort),
    text: &mut String,
    first: u32,
    count: u32,
    func: &str,
) {
    for i in 0..count {
        let last = first.wrapping_add(i);
        let next = last.wrapping_add(1);
        let node = format!(in rt.alloc();
            "[[node]]\nname = \"n{next}\"\n{func}[[edge]]\nfrom = \"n{last}\"\nto = \"n{next}\"\n"
        );
        push(rt, text, node);
    }
}

fn weight_of(rt: &(impl AllocGlobal + Abort), text: &str) -> Result<u64, JobFault> {
    match read(rt, &[text]) {
        Ok(job) => Ok(weight(&job)),
        Err(fault) => Err(fault),
    }
}

#[test]
fn nodes_in_a_line(rt: HostRuntime) {
    for (line, want) in LINES {
        check(&rt, weight_of(&rt, in_line(&rt, line).as_str()), *want);
    }
}

/// A number of entries of a table and of equal edges, and the weight of the job.
static MANY: &[(u32, u32, Result<u64, JobFault>)] = &[
    (4096, 1, Ok(1)),
    (4097, 1, Err(JobFault::Limit(Which::Entries, 4097))),
    (0, 128, Err(JobFault::Ports(0))),
    (0, 129, Err(JobFault::Limit(Which::Edges, 129))),
];

/// A table of this number of entries, and a source and a sink with this number of equal edges.
fn many(rt: &(impl AllocGlobal + Abort), entries: u32, edges: u32) -> String {
    let mut text = joined(rt, &["columns = [\"who:text\"]\n[tables.known]\n"]);
    for i in 0..entries {
        push(rt, &mut text, format!(in rt.alloc(); "k{i} = 7\n"));
    }
    let ends = repeated(rt, ENDS, "[[edge]]\nfrom = \"in\"\nto = \"out\"\n", edges);
    joined(rt, &[text.as_str(), ends.as_str()])
}

const ENDS: &str = "[[node]]
name = \"in\"
kind = \"source\"
[[node]]
name = \"out\"
kind = \"sink\"
columns = []
";

#[test]
fn entries_and_edges_have_limits(rt: HostRuntime) {
    for (entries, edges, want) in MANY {
        check(
            &rt,
            weight_of(&rt, many(&rt, *entries, *edges).as_str()),
            *want,
        );
    }
}
