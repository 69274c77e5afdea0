// Job files, and the first fault of each.
use super::fixtures::{check, job_in, read, read_bytes};
use super::{clamp_cases, dedupe_cases, edge_cases, func_cases, job_cases};
use job_file::{JobFault, faulty_is_no_job, files_have_one_fault};
use jobs::{
    Job, functions_fit, jobs_have_one_fault, refused_is_unlawful, roofs_hold, weight,
    weights_settle, worker_count,
};
use std::process::Abort;
use test_texts::{CHAIN, PAYMENTS_JOB, RING, ROOF};

/// The columns and a table of a small job.
const COLUMNS: &str =
    "columns = [\"who:text\", \"sum:cents\", \"risk:number:own\"]\n[tables.known]\nann = 3\n";

const SOURCE: &str = "[[node]]\nname = \"in\"\nkind = \"source\"\n";

const FILTER: &str = "[[node]]\nname = \"x\"\nkind = \"filter\"\nwhen = []\n";

/// A sink, and the edges from the source over `x` to it.
const REST: &str =
    "[[node]]\nname = \"out\"\nkind = \"sink\"\ncolumns = [\"who\"]\n[[edge]]\nfrom = \"in\"\nto = \"x\"\n[[edge]]\nfrom = \"x\"\nto = \"out\"\n";

const OUT: &str = "[[node]]\nname = \"out\"\nkind = \"sink\"\ncolumns = []\n";

/// A second sink, and both edges of `x`.
const TWO_WAYS: &str =
    "[[node]]\nname = \"out\"\nkind = \"sink\"\ncolumns = []\n[[node]]\nname = \"log\"\nkind = \"sink\"\ncolumns = []\n[[edge]]\nfrom = \"in\"\nto = \"x\"\n[[edge]]\nfrom = \"x\"\nto = \"out\"\n[[edge]]\nfrom = \"x\"\nto = \"log\"\nport = 1\n";

/// What a reader answers of a job file: nothing where it is read.
pub type Answer = Result<(), JobFault>;

/// A piece of a job file, what it is of the file, and what the reader answers.
pub type Case = (Text, &'static str, Answer);

/// What a piece of text is of the file of a small job.
#[derive(Clone, Copy)]
pub enum Text {
    /// The whole file.
    File,
    /// The columns and tables, before a source, a filter and a sink.
    Columns,
    /// The function of a node between a source and a sink.
    Func,
    /// The function of a node between a source and two sinks.
    TwoWays,
    /// The name of a sink behind a source.
    Name,
    /// The edges of a source and a sink, and maybe nodes before them.
    Edges,
    /// The edges of a filter behind a source, before two sinks.
    Ways,
}

fn answer_of(rt: &(impl AllocGlobal + Abort), pieces: &[&str]) -> Answer {
    match read(rt, pieces) {
        Ok(_) => Ok(()),
        Err(fault) => Err(fault),
    }
}

fn answer_to(rt: &(impl AllocGlobal + Abort), text: Text, piece: &str) -> Answer {
    let name = "[[node]]\nname = \"";
    let sink = "\"\nkind = \"sink\"\ncolumns = []\n[[edge]]\nfrom = \"in\"\nto = \"";
    match text {
        Text::File => answer_of(rt, &[piece]),
        Text::Columns => answer_of(rt, &[piece, SOURCE, FILTER, REST]),
        Text::Func => answer_of(rt, &[COLUMNS, SOURCE, name, "x\"\n", piece, REST]),
        Text::TwoWays => answer_of(rt, &[COLUMNS, SOURCE, name, "x\"\n", piece, TWO_WAYS]),
        Text::Name => answer_of(rt, &[COLUMNS, SOURCE, name, piece, sink, piece, "\"\n"]),
        Text::Edges => answer_of(rt, &[COLUMNS, SOURCE, OUT, piece]),
        Text::Ways => answer_of(rt, &[COLUMNS, edge_cases::NODES, piece]),
    }
}

fn check_answers(rt: &(impl AllocGlobal + Abort), cases: &[Case]) {
    for (text, piece, want) in cases {
        assert_eq!(rt; answer_to(rt, *text, piece), *want, "{piece}");
    }
}

#[test]
fn faults_and_where_they_stand(rt: HostRuntime) {
    check_answers(&rt, job_cases::CASES);
}

#[test]
fn functions_are_refused_where_they_stand(rt: HostRuntime) {
    check_answers(&rt, func_cases::CASES);
    check_answers(&rt, dedupe_cases::READ);
    check_answers(&rt, clamp_cases::READ);
}

#[test]
fn edges_are_those_of_their_nodes(rt: HostRuntime) {
    check_answers(&rt, edge_cases::CASES);
}

#[test]
fn cycle_is_refused(rt: HostRuntime) {
    check(
        &rt,
        answer_to(&rt, Text::File, RING),
        Err(JobFault::Cycle(0)),
    );
}

/// How many nodes, edges and workers a job has, and its weight.
type Sizes = (usize, u32, u64, u64);

static EXAMPLES: &[(&str, Sizes)] = &[
    (CHAIN, (3, 2, 2, 2)),
    (PAYMENTS_JOB, (9, 8, 8, 14)),
    (ROOF, (4, 3, 3, 7)),
];

fn sizes_of(job: &Job) -> Sizes {
    functions_fit(job);
    roofs_hold(job);
    weights_settle(job);
    (
        job.nodes.len(),
        job.dag.edges(),
        worker_count(job),
        weight(job),
    )
}

#[test]
fn jobs_of_the_examples(rt: HostRuntime) {
    faulty_is_no_job();
    files_have_one_fault();
    jobs_have_one_fault();
    refused_is_unlawful();
    for (text, want) in EXAMPLES {
        check(&rt, sizes_of(&job_in(&rt, &[text])), *want);
    }
}

/// Whether the first `end` bytes of a file are a job.
fn is_read(rt: &(impl AllocGlobal + Abort), text: &str, end: usize) -> bool {
    let bytes = text.as_bytes().get(..end).expect(rt, "a text");
    read_bytes(rt, bytes).is_ok()
}

#[test]
fn a_file_cut_anywhere(rt: HostRuntime) {
    for end in 0..CHAIN.len() {
        let all_but_the_line_feed = end + 1 == CHAIN.len();
        check(&rt, is_read(&rt, CHAIN, end), all_but_the_line_feed);
    }
}
