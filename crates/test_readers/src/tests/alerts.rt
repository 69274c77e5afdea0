// The text of alerts.
ghost use Rattle.std.specs.Prelude.{◌≡◌, length};
ghost use Rattle.jobs.specs.Nodes.{worker_count};

use super::fixtures::{job_in, whole};
use crate::tests::check_text;
use jobs::{Job, worker_count};
use payments::read_rows;
use sink_journal::{Entry, Journal, Journals, alerts_header_text, alerts_part_text};
use std::process::Abort;
use std::thread::Threads;
use test_texts::{PAYMENTS_ALERTS, THREE_ALERTS};
use text_threads::Team;
use tuple_trace::{Bytes, Row};

/// A source, a filter and a sink that lists all four columns.
const CHAIN: &str =
    "columns = [\"account:text\", \"merchant:text\", \"amount:cents\", \"tags:text\"]
[[node]]
name = \"card\"
kind = \"source\"
[[node]]
name = \"big\"
kind = \"filter\"
when = []
[[node]]
name = \"alerts\"
kind = \"sink\"
columns = [\"account\", \"merchant\", \"amount\", \"tags\"]
[[edge]]
from = \"card\"
to = \"big\"
[[edge]]
from = \"big\"
to = \"alerts\"
";

/// Two sources, filters of one and two workers, and two sinks. The first sink lists the columns
/// 0 to 3 and the second 0, 1 and 4.
const TWO_SINKS: &str = "columns = [\"account:text\", \"merchant:text\", \"amount:cents\",
           \"risk:number\", \"seen:number\"]
[[node]]
name = \"card\"
kind = \"source\"
[[node]]
name = \"wire\"
kind = \"source\"
[[node]]
name = \"tally\"
kind = \"filter\"
when = []
workers = 2
[[node]]
name = \"review\"
kind = \"sink\"
columns = [\"account\", \"merchant\", \"amount\", \"risk\"]
[[node]]
name = \"often\"
kind = \"filter\"
when = []
[[node]]
name = \"watch\"
kind = \"sink\"
columns = [\"seen\", \"account\", \"merchant\"]
[[edge]]
from = \"card\"
to = \"tally\"
[[edge]]
from = \"wire\"
to = \"tally\"
[[edge]]
from = \"tally\"
to = \"review\"
[[edge]]
from = \"tally\"
to = \"often\"
port = 1
[[edge]]
from = \"often\"
to = \"watch\"
";

fn add(rt: &impl Abort, journal: &mut Journal, entry: Entry) {
    journal.push(entry).expect(rt, "memory");
}

// The journal of a worker that met these rows, turned a request after each, and ended.
fn journal_of(rt: &(impl AllocGlobal + Abort), rows: &[Row], met: &[usize]) -> Journal {
    let lane = 0;
    let mut journal = Journal::new(rt.alloc());
    for place in met {
        let row = rows.get(*place).expect(rt, "a row");
        let tuple = row.tuple.copy().expect(rt, "memory");
        add(rt, &mut journal, Entry::Met { lane, tuple });
        add(rt, &mut journal, Entry::Marked { lane, request: 1 });
        add(rt, &mut journal, Entry::Turned { request: 1 });
    }
    add(rt, &mut journal, Entry::Ended { lane });
    journal
}

// The journals of the workers of a job, by the places of the rows that each met.
fn journals_of(
    rt: &(impl AllocGlobal + Abort),
    job: &Job,
    rows: &[Row],
    workers: &[&[usize]],
) -> Journals
    ensures { length result ≡ worker_count job.now.nodes }
{
    let mut journals = Journals::new(rt.alloc());
    for met in workers {
        let journal = journal_of(rt, rows, met);
        journals.push(journal).expect(rt, "memory");
    }
    assert!(rt; journals.len() as u64 == worker_count(job));
    journals
}

// Checks the alerts of a job whose workers met these of the payments, by their places. They are
// made on one thread, and by three.
fn check_alerts(
    rt: &(impl AllocGlobal + Abort + Threads + Sync),
    job: &str,
    payments: &[u8],
    workers: &[&[usize]],
    want: &str,
) {
    let job = job_in(rt, &[job]);
    let rows = read_rows(rt.alloc(), &job, payments).expect(rt, "rows");
    let journals = journals_of(rt, &job, rows.as_slice(), workers);
    for threads in [1, 3] {
        let team = Team {
            rt,
            alloc: rt.alloc(),
            threads,
        };
        let text = team.alerts_text(&job, &journals).expect(rt, "memory");
        check_text(rt, whole(rt, &text).as_slice(), want);
    }
}

fn add_part(
    rt: &(impl AllocGlobal + Abort),
    text: &mut Bytes,
    job: &Job,
    rows: &[Row],
    workers: &[&[usize]],
) {
    let journals = journals_of(rt, job, rows, workers);
    let part = alerts_part_text(rt.alloc(), job, &journals).expect(rt, "memory");
    text.extend_from_slice(part.as_slice()).expect(rt, "memory");
}

// Checks the alerts of a stream in parts: the header's text, followed by the text of each part. In
// each part the workers met these of the payments, by their places.
fn check_parts(
    rt: &(impl AllocGlobal + Abort),
    job: &str,
    payments: &[u8],
    parts: &[&[&[usize]]],
    want: &str,
) {
    let job = job_in(rt, &[job]);
    let rows = read_rows(rt.alloc(), &job, payments).expect(rt, "rows");
    let mut text = alerts_header_text(rt.alloc(), &job).expect(rt, "memory");
    for workers in parts {
        add_part(rt, &mut text, &job, rows.as_slice(), workers);
    }
    check_text(rt, text.as_slice(), want);
}

const FOUR_PAYMENTS: &[u8] = b"source,account,merchant,amount,tags
card,a,m,99.99,
card,b,m,100.00,
card,c,m,50.00,
card,d,m,120.00,
";

const HEADER: &str = "sink,row,account,merchant,amount,tags\n";

static NONE_MET: &[&[usize]] = &[&[0, 1, 2, 3], &[]];

#[test]
fn header_alone(rt: HostRuntime) {
    check_alerts(&rt, CHAIN, FOUR_PAYMENTS, NONE_MET, HEADER);
}

static THREE_MET: &[&[usize]] = &[&[0, 1, 2, 3], &[1, 2, 3]];

#[test]
fn four_payments(rt: HostRuntime) {
    check_alerts(&rt, CHAIN, FOUR_PAYMENTS, THREE_MET, THREE_ALERTS);
}

static MET_IN_TWO_PARTS: &[&[&[usize]]] = &[&[&[0, 1], &[1]], &[&[2, 3], &[2, 3]]];

// One sink worker, so the records of two parts are those of the whole.
#[test]
fn four_payments_in_two_parts(rt: HostRuntime) {
    check_parts(&rt, CHAIN, FOUR_PAYMENTS, MET_IN_TWO_PARTS, THREE_ALERTS);
}

#[test]
fn header_before_any_part(rt: HostRuntime) {
    check_parts(&rt, CHAIN, FOUR_PAYMENTS, &[], HEADER);
}

const LARGEST: &[u8] = b"source,account,merchant,amount,tags
card,a,m,92233720368547758.07,
card,a,m,-0.05,
";

static BOTH_MET: &[&[usize]] = &[&[], &[0, 1]];

#[test]
fn clamped_product(rt: HostRuntime) {
    let want = "sink,row,account,merchant,amount,tags
alerts,1,a,m,92233720368547758.07,
alerts,2,a,m,-0.05,
";
    check_alerts(&rt, CHAIN, LARGEST, BOTH_MET, want);
}

const TEN_PAYMENTS: &[u8] = b"source,account,merchant,amount,risk,seen
card,a,m,0,0,0
card,bob,casino,250.00,3,0
card,a,m,0,0,0
card,a,m,0,0,0
card,a,m,0,0,0
wire,fay,casino,75.00,3,0
card,a,m,0,0,0
card,a,m,0,0,0
card,ann,\"A, \"\"B\"\" Ltd\",12.00,1,2
wire,gus,grocer,5.00,1,2
";

static FOUR_MET: &[&[usize]] = &[&[], &[8], &[1, 5], &[], &[8, 9]];

#[test]
fn payments_job(rt: HostRuntime) {
    check_alerts(&rt, TWO_SINKS, TEN_PAYMENTS, FOUR_MET, PAYMENTS_ALERTS);
}

static FIVE_MET_IN_TWO_PARTS: &[&[&[usize]]] = &[
    &[&[], &[], &[1, 5], &[], &[8]],
    &[&[], &[8], &[2], &[], &[9]],
];

// Each part has its own records of both sinks.
#[test]
fn payments_job_in_two_parts(rt: HostRuntime) {
    let want = "sink,row,account,merchant,amount,risk,seen
review,2,bob,casino,250.00,3,
review,6,fay,casino,75.00,3,
watch,9,ann,\"A, \"\"B\"\" Ltd\",,,2
review,3,a,m,0.00,0,
watch,10,gus,grocer,,,2
";
    check_parts(&rt, TWO_SINKS, TEN_PAYMENTS, FIVE_MET_IN_TWO_PARTS, want);
}
