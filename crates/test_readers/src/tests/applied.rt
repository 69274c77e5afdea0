// What operators make of tuples, and which workers these reach.
ghost use Rattle.keyed_state.specs.Counts.{CanCarry};

use super::cases::{
    COPIES, COUNT, COUNT_TURNED, Case, DOUBLED, DOUBLED_BARE, DOUBLED_TURNED, NUMBER_TESTS,
    ONE_PORT, OPERATIONS, PIECE_COUNTS, PIECE_TURNED, PIECES, PRODUCT, RATED, RATED_TURNED,
    TEXT_TESTS, UNCHANGED, ZERO_BARE, ZERO_TURNED,
};
use super::clamp_cases::{CLAMPED, CLAMPED_BARE, CLAMPED_TURNED};
use super::dedupe_cases::{
    ALL_THREE, BOTH_FIRSTS, BY_ACCOUNT, FIRSTS, FIRSTS_BARE, FIRSTS_TURNED, THE_OTHER, TWO_AND_ONE,
};
use super::fixtures::{
    BARE, GIVEN, ONE_WAY, TURNED, TWO_WAYS, check, job_of, lines_of_outputs, rows_of,
};
use crate::tests::check_text;
use jobs::{ClampBy, Columns, Func, Job, Lookup};
use keyed_state::{Carry, Keyed};
use operators::{Outs, Visited, lane_of, most_outputs, out_ports};
use std::process::Abort;
use tuple_trace::{Row, Value, Visit};

const NODE: u32 = 1;

const VISIT: Visit = Visit {
    node: NODE,
    worker: 0,
    last: 1,
};

// What a function puts out at the node `x` for all rows, with no counts before, as lines.
fn lines_of(rt: &(impl AllocGlobal + Abort), job: &Job, func: &Func, rows: &[Row]) -> String {
    lines_after(rt, job, func, &mut Keyed::new(rt.alloc()), rows)
}

// The same with these counts before.
fn lines_after(
    rt: &(impl AllocGlobal + Abort),
    job: &Job,
    func: &Func,
    counts: &mut Keyed,
    rows: &[Row],
) -> String {
    let ports = out_ports(rt.alloc(), job, NODE).expect(rt, "memory");
    let mut outs = Outs::new(rt.alloc());
    for row in rows {
        let here = Visited {
            job,
            ports: ports.as_slice(),
            visit: VISIT,
        };
        here.apply(rt.alloc(), func, counts, &row.tuple, &mut outs)
            .expect(rt, "memory");
    }
    lines_of_outputs(rt, outs.as_slice())
}

fn put_out(rt: &(impl AllocGlobal + Abort), job: &Job, rows: &[Row]) -> String {
    lines_of(rt, job, func_in(rt, job), rows)
}

fn func_in<'a>(rt: &impl Abort, job: &'a Job) -> &'a Func {
    let node = job.nodes.as_slice().get(NODE as usize).expect(rt, "a node");
    &node.func
}

// Checks what functions put out for payments with these columns.
fn check_cases(rt: &(impl AllocGlobal + Abort), columns: &str, ways: &str, cases: &[Case]) {
    for (func, payments, want) in cases {
        let job = job_of(rt, GIVEN, func, ways);
        let rows = rows_of(rt, columns, payments);
        check_text(rt, put_out(rt, &job, rows.as_slice()).as_bytes(), want);
    }
}

#[test]
fn split_into_pieces(rt: HostRuntime) {
    check_cases(&rt, GIVEN, ONE_WAY, PIECES);
}

#[test]
fn clamped_product(rt: HostRuntime) {
    check_cases(&rt, GIVEN, ONE_WAY, PRODUCT);
}

#[test]
fn filters_compare_numbers(rt: HostRuntime) {
    check_cases(&rt, GIVEN, TWO_WAYS, NUMBER_TESTS);
}

#[test]
fn filters_compare_texts(rt: HostRuntime) {
    check_cases(&rt, GIVEN, TWO_WAYS, TEXT_TESTS);
    check_cases(&rt, BARE, TWO_WAYS, ZERO_BARE);
    check_cases(&rt, TURNED, TWO_WAYS, ZERO_TURNED);
}

#[test]
fn tuples_end_at_a_filter_of_one_port(rt: HostRuntime) {
    check_cases(&rt, GIVEN, ONE_WAY, ONE_PORT);
}

#[test]
fn copies_are_told_apart_by_their_ports(rt: HostRuntime) {
    check_cases(&rt, GIVEN, TWO_WAYS, COPIES);
}

#[test]
fn splits_count_their_pieces(rt: HostRuntime) {
    check_cases(&rt, GIVEN, ONE_WAY, PIECE_COUNTS);
    check_cases(&rt, TURNED, ONE_WAY, PIECE_TURNED);
    check(&rt, most_outputs(&Func::Replicate, &[0, 1]), 2);
}

#[test]
fn maps_compute(rt: HostRuntime) {
    check_cases(&rt, GIVEN, ONE_WAY, OPERATIONS);
}

#[test]
fn later_steps_read_what_earlier_ones_wrote(rt: HostRuntime) {
    check_cases(&rt, GIVEN, ONE_WAY, DOUBLED);
    check_cases(&rt, TURNED, ONE_WAY, DOUBLED_TURNED);
    check_cases(&rt, BARE, ONE_WAY, DOUBLED_BARE);
}

const ONE_ROW: &str = "source,account,tags,amount,risk\nin,ann,,0.04,1\n";

// Checks what a function that no node of the job has puts out for one row.
fn check_func(rt: &(impl AllocGlobal + Abort), func: &Func, want: &str) {
    let job = job_of(rt, GIVEN, "kind = \"map\"\nsteps = []\n", ONE_WAY);
    let rows = rows_of(rt, GIVEN, ONE_ROW);
    check_text(
        rt,
        lines_of(rt, &job, func, rows.as_slice()).as_bytes(),
        want,
    );
}

// A look-up into a column that isn't there.
fn lookup_into_nowhere() -> Func {
    Func::Enrich(Lookup {
        key: 0,
        into: 9,
        table: 0,
        other: Value::Num(-1),
    })
}

#[test]
fn accounts_are_looked_up(rt: HostRuntime) {
    check_cases(&rt, GIVEN, ONE_WAY, RATED);
    check_cases(&rt, TURNED, ONE_WAY, RATED_TURNED);
    check_func(&rt, &lookup_into_nowhere(), " 0#1.0@1.0.1 ann  4 1\n");
}

#[test]
fn keys_are_counted(rt: HostRuntime) {
    check_cases(&rt, GIVEN, ONE_WAY, COUNT);
    check_cases(&rt, TURNED, ONE_WAY, COUNT_TURNED);
}

#[test]
fn first_tuples_of_a_text_pass(rt: HostRuntime) {
    check_cases(&rt, GIVEN, ONE_WAY, FIRSTS);
    check_cases(&rt, TURNED, ONE_WAY, FIRSTS_TURNED);
    check_cases(&rt, BARE, ONE_WAY, FIRSTS_BARE);
}

// Checks what passes of payments that come once more, after a carry.
fn check_again(rt: &(impl AllocGlobal + Abort), carry: Carry, want: &str)
    requires { CanCarry carry }
{
    let job = job_of(rt, GIVEN, BY_ACCOUNT, ONE_WAY);
    let (func, rows) = (func_in(rt, &job), rows_of(rt, GIVEN, TWO_AND_ONE));
    let mut counts = Keyed::new(rt.alloc());
    let first = lines_after(rt, &job, func, &mut counts, rows.as_slice());
    check_text(rt, first.as_bytes(), BOTH_FIRSTS);
    counts.carry(carry);
    let again = lines_after(rt, &job, func, &mut counts, rows.as_slice());
    check_text(rt, again.as_bytes(), want);
}

#[test]
fn texts_are_new_once_their_counts_are_gone(rt: HostRuntime) {
    check_again(&rt, Carry::Keep, "");
    check_again(&rt, Carry::Reset, BOTH_FIRSTS);
    check_again(&rt, Carry::DropBelow(2), THE_OTHER);
    check_again(&rt, Carry::Scale(1, 2), THE_OTHER);
    check_again(&rt, Carry::Scale(0, 1), BOTH_FIRSTS);
    // Below 0, so a text is met once it comes to 1.
    check_again(&rt, Carry::Scale(-1, 1), ALL_THREE);
}

// A clamp of a column of the job, or of one that isn't there.
fn clamp_of(on: u32, low: i64, high: i64) -> Func {
    Func::Clamp(ClampBy { on, low, high })
}

#[test]
fn clamps_bring_numbers_between_two(rt: HostRuntime) {
    check_cases(&rt, GIVEN, ONE_WAY, CLAMPED);
    check_cases(&rt, TURNED, ONE_WAY, CLAMPED_TURNED);
    check_cases(&rt, BARE, ONE_WAY, CLAMPED_BARE);
    check_func(&rt, &clamp_of(9, 5, 6), " 0#1.0@1.0.1 ann  4 1\n");
    // No job has such ends: what isn't below the low one becomes the high one.
    check_func(&rt, &clamp_of(2, 5, 3), " 0#1.0@1.0.1 ann  5 1\n");
    check_func(&rt, &clamp_of(2, 4, 3), " 0#1.0@1.0.1 ann  3 1\n");
    check_func(&rt, &clamp_of(2, 2, -1), " 0#1.0@1.0.1 ann  -1 1\n");
}

#[test]
fn sources_and_sinks_put_nothing_out(rt: HostRuntime) {
    check_func(&rt, &Func::Source, "");
    check_func(&rt, &Func::Sink(Columns::new(rt.alloc())), "");
}

#[test]
fn an_output_is_the_tuple_with_its_visit(rt: HostRuntime) {
    check_cases(&rt, GIVEN, ONE_WAY, UNCHANGED);
}

const EIGHT_COUNTS: &str =
    "kind = \"count\"\nkey = \"account\"\nadd = 1\ninto = \"risk\"\nworkers = 8\n";

const EIGHT_DEDUPES: &str = "kind = \"dedupe\"\nkey = \"account\"\nworkers = 8\n";

const THREE_CLAMPS: &str = "kind = \"clamp\"\non = \"risk\"\nlow = 0\nhigh = 9\nworkers = 3\n";

const THREE_SPLITS: &str = "kind = \"split\"\non = \"tags\"\nby = \";\"\nmost = 3\nworkers = 3\n";

const TWO_ROWS: &str = "source,account,tags,amount,risk\nin,k1,,0,1\nin,k1,,0,1\n";

/// The function of a node, the columns of payments, payments, an edge, and the worker that the
/// latest of them reaches along it.
type Reach = (&'static str, &'static str, &'static str, u32, u32);

static REACHES: &[Reach] = &[
    (EIGHT_COUNTS, GIVEN, TWO_ROWS, 0, 6),
    (EIGHT_COUNTS, BARE, "source\nin\n", 0, 0),
    (EIGHT_DEDUPES, GIVEN, TWO_ROWS, 0, 6),
    (EIGHT_DEDUPES, BARE, "source\nin\n", 0, 0),
    (EIGHT_DEDUPES, GIVEN, TWO_ROWS, 1, 0),
    (THREE_CLAMPS, GIVEN, TWO_ROWS, 0, 2),
    (THREE_SPLITS, GIVEN, TWO_ROWS, 0, 2),
    (THREE_SPLITS, GIVEN, TWO_ROWS, 1, 0),
];

fn worker(rt: &impl Abort, job: &Job, edge: u32, rows: &[Row]) -> u32 {
    let row = rows.last().expect(rt, "a row");
    assert!(rt; edge < job.dag.edges());
    lane_of(job, edge, &row.tuple)
}

#[test]
fn workers_are_reached_by_key_or_by_row(rt: HostRuntime) {
    for (func, columns, payments, edge, want) in REACHES {
        let job = job_of(&rt, GIVEN, func, ONE_WAY);
        let rows = rows_of(&rt, columns, payments);
        check(&rt, worker(&rt, &job, *edge, rows.as_slice()), *want);
    }
}
