// The text of an audit.
ghost use Rattle.std.specs.Prelude.{◌≡◌, length};
ghost use Rattle.jobs.specs.Nodes.{worker_count};

use super::fixtures::{job_in, joined, whole};
use crate::tests::check_text;
use jobs::{Job, worker_count};
use keyed_state::Keyed;
use payments::read_rows;
use sink_journal::{
    Entry, Feed, Feeds, Journal, Journals, Noted, States, audit_header_text, audit_part_text,
    audit_text,
};
use std::process::Abort;
use std::thread::Threads;
use text_threads::{Audited, Team};
use tuple_trace::{Bytes, Tuple};

/// A source, a count of two workers and a sink. The lanes 0 and 1 lead to the count, and 2 and 3
/// from it to the sink.
const COUNT: &str = r#"
columns = ["account:text", "seen:number:own"]
node = [
  { name = "card", kind = "source" },
  { name = "tally", kind = "count", workers = 2, key = "account", add = 1, into = "seen" },
  { name = "out", kind = "sink", columns = [] },
]
edge = [
  { from = "card", to = "tally" },
  { from = "tally", to = "out" },
]
"#;

const HEADER: &str = "entry,node,worker,lane,number,extra\n";

const RECORDS: &str = r#"refused,,,,2,Q4
refused,,,,64,Q9
fed,,,,1,
issued,,,,1,
fed,,,,2,
stopped,,,,,
met,tally,0,0,1,
marked,tally,0,0,1,
turned,tally,0,,1,
ended,tally,0,0,,
state,tally,0,,2,a
state,tally,0,,9223372036854775807,"a,""x"
state,tally,0,,-7,b
ended,tally,1,1,,
met,out,0,2,1,2
met,out,0,3,1,3.0.12
ended,out,0,2,,
ended,out,0,3,,
"#;

/// The records of `LATER`.
const LATER_RECORDS: &str = r#"refused,,,,1,Q1
fed,,,,3,
stopped,,,,,
met,tally,1,1,1,
state,tally,1,,5,c
met,out,0,3,1,4
ended,out,0,3,,
"#;

// The tuple of the one row.
fn tuple_of(rt: &(impl AllocGlobal + Abort), job: &Job) -> Tuple {
    let rows = read_rows(rt.alloc(), job, b"source,account\ncard,ann\n").expect(rt, "rows");
    let row = rows.as_slice().first().expect(rt, "a row");
    row.tuple.copy().expect(rt, "memory")
}

/// An entry of a journal. A tuple that is met has this birth.
enum Step {
    Met(u32, &'static [u32]),
    Marked,
    Turned,
    Ended(u32),
}

/// What a run, or one part of a stream, leaves: what was refused and fed, and the journals and
/// counts of the two workers of `tally` and of `out`.
struct Part {
    refused: &'static [Noted],
    feeds: &'static [Feed],
    journals: [&'static [Step]; 3],
    counts: [&'static [(&'static str, i64)]; 3],
}

const FIRST: Part = Part {
    refused: &[Noted { place: 2, code: 4 }, Noted { place: 64, code: 9 }],
    feeds: &[Feed::Fed(1), Feed::Issued(1), Feed::Fed(2), Feed::Stopped],
    journals: [
        &[
            Step::Met(0, &[]),
            Step::Marked,
            Step::Turned,
            Step::Ended(0),
        ],
        &[Step::Ended(1)],
        &[
            Step::Met(2, &[2]),
            Step::Met(3, &[3, 0, 12]),
            Step::Ended(2),
            Step::Ended(3),
        ],
    ],
    counts: [&[("b", -7), ("a,\"x", i64::MAX), ("a", 2)], &[], &[]],
};

const LATER: Part = Part {
    refused: &[Noted { place: 1, code: 1 }],
    feeds: &[Feed::Fed(3), Feed::Stopped],
    journals: [
        &[],
        &[Step::Met(1, &[])],
        &[Step::Met(3, &[4]), Step::Ended(3)],
    ],
    counts: [&[], &[("c", 5)], &[]],
};

fn born(rt: &impl Abort, tuple: &Tuple, birth: &[u32]) -> Tuple {
    let mut tuple = tuple.copy().expect(rt, "memory");
    for index in birth {
        tuple = tuple.child(*index).expect(rt, "memory");
    }
    tuple
}

fn entry_of(rt: &impl Abort, tuple: &Tuple, step: &Step) -> Entry {
    match step {
        Step::Met(lane, birth) => Entry::Met {
            lane: *lane,
            tuple: born(rt, tuple, birth),
        },
        Step::Marked => Entry::Marked {
            lane: 0,
            request: 1,
        },
        Step::Turned => Entry::Turned { request: 1 },
        Step::Ended(lane) => Entry::Ended { lane: *lane },
    }
}

fn journal_of(rt: &(impl AllocGlobal + Abort), tuple: &Tuple, steps: &[Step]) -> Journal {
    let mut journal = Journal::new(rt.alloc());
    for step in steps {
        journal.push(entry_of(rt, tuple, step)).expect(rt, "memory");
    }
    journal
}

fn journals_of(rt: &(impl AllocGlobal + Abort), job: &Job, part: &Part) -> Journals
    ensures { length result ≡ worker_count job.now.nodes }
{
    let tuple = tuple_of(rt, job);
    let mut journals = Journals::new(rt.alloc());
    for steps in part.journals {
        journals
            .push(journal_of(rt, &tuple, steps))
            .expect(rt, "memory");
    }
    assert!(rt; journals.len() as u64 == worker_count(job));
    journals
}

fn counts_of(rt: &(impl AllocGlobal + Abort), table: &[(&str, i64)]) -> Keyed {
    let mut counts = Keyed::new(rt.alloc());
    for (key, count) in table {
        counts.add(key.as_bytes(), *count).expect(rt, "memory");
    }
    counts
}

fn states_of(rt: &(impl AllocGlobal + Abort), job: &Job, part: &Part) -> States
    ensures { length result ≡ worker_count job.now.nodes }
{
    let mut states = States::new(rt.alloc());
    for table in part.counts {
        states.push(counts_of(rt, table)).expect(rt, "memory");
    }
    assert!(rt; states.len() as u64 == worker_count(job));
    states
}

/// What an audit is of.
#[derive(Clone, Copy)]
enum Extent {
    /// A run, with a header.
    Run,
    /// One part of a stream.
    Part,
}

fn text_of(rt: &(impl AllocGlobal + Abort), job: &Job, part: &Part, extent: Extent) -> Bytes {
    let journals = journals_of(rt, job, part);
    let states = states_of(rt, job, part);
    let feeds = Feeds::from_slice(rt.alloc(), part.feeds).expect(rt, "memory");
    let text = match extent {
        Extent::Run => audit_text(rt.alloc(), job, part.refused, &feeds, &journals, &states),
        Extent::Part => {
            audit_part_text(rt.alloc(), job, part.refused, &feeds, &journals, &states)
        }
    };
    text.expect(rt, "memory")
}

static RUN: Part = FIRST;

#[test]
fn audit_of_each_kind_of_record(rt: HostRuntime) {
    let job = job_in(&rt, &[COUNT]);
    let text = text_of(&rt, &job, &RUN, Extent::Run);
    check_text(
        &rt,
        text.as_slice(),
        joined(&rt, &[HEADER, RECORDS]).as_str(),
    );
}

// The text of the run's audit, made by so many threads.
fn text_on(rt: &(impl AllocGlobal + Abort + Threads + Sync), job: &Job, threads: u32) -> Bytes {
    let journals = journals_of(rt, job, &RUN);
    let states = states_of(rt, job, &RUN);
    let feeds = Feeds::from_slice(rt.alloc(), RUN.feeds).expect(rt, "memory");
    let team = Team {
        rt,
        alloc: rt.alloc(),
        threads,
    };
    let of = Audited {
        job,
        refused: RUN.refused,
        feeds: &feeds,
        journals: &journals,
        states: &states,
    };
    whole(rt, &team.audit_text(of).expect(rt, "memory"))
}

#[test]
fn audit_on_one_and_three_threads(rt: HostRuntime) {
    let job = job_in(&rt, &[COUNT]);
    let want = joined(&rt, &[HEADER, RECORDS]);
    for threads in [1, 3] {
        let text = text_on(&rt, &job, threads);
        check_text(&rt, text.as_slice(), want.as_str());
    }
}

static PARTS: [Part; 2] = [FIRST, LATER];

// The header's text, followed by the text of each part.
fn text_in_parts(rt: &(impl AllocGlobal + Abort), job: &Job) -> Bytes {
    let mut text = audit_header_text(rt.alloc()).expect(rt, "memory");
    for part in &PARTS {
        let part = text_of(rt, job, part, Extent::Part);
        text.extend_from_slice(part.as_slice()).expect(rt, "memory");
    }
    text
}

#[test]
fn two_parts_after_one_header(rt: HostRuntime) {
    let text = text_in_parts(&rt, &job_in(&rt, &[COUNT]));
    let want = joined(&rt, &[HEADER, RECORDS, LATER_RECORDS]);
    check_text(&rt, text.as_slice(), want.as_str());
}
