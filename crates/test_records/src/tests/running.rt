ghost use Rattle.std.specs.Prelude.{◌<◌, length};
ghost use Rattle.flow_model.specs.Setup.{setup_view};
ghost use Rattle.flow_model.specs.Workers.{workers_in};

use crate::tests::chains::AT_BOTH_ENDS;
use flow_model::{Setup, SetupWorker, Start};
use flow_replay::{Replayed, RunRecord, replay};
use sink_journal::{Entry, Feed, Journal};
use std::alloc::Global;
use std::process::Abort;
use test_runs::Inputs;
use test_texts::{AFTER_2, AMOUNT_CHAIN, FOUR_AMOUNTS, TWICE_AFTER_3};
use tuple_trace::Item;

/// The run of the four payments through the chain.
fn ran(alloc: Global, requests: &str) -> Option<Box<RunRecord>> {
    let inputs = Inputs {
        job: AMOUNT_CHAIN,
        requests,
        payments: FOUR_AMOUNTS,
        ordered: false,
    };
    inputs.run(alloc)
}

/// A step of a worker: a tuple of a row, the marker of a request, the turn of one, or an end.
#[derive(Clone, Copy, Debug, PartialEq, Eq)]
enum Step {
    Met(u64),
    Marked(u64),
    Turned(u64),
    Ended,
}

fn step_of(entry: &Entry) -> Step {
    match entry {
        Entry::Met { tuple, .. } => Step::Met(tuple.row),
        Entry::Marked { request, .. } => Step::Marked(*request),
        Entry::Turned { request } => Step::Turned(*request),
        Entry::Ended { .. } => Step::Ended,
    }
}

fn has_steps(journal: &Journal, steps: &[Step]) -> bool {
    let entries = journal.as_slice();
    entries.len() == steps.len()
        && entries
            .iter()
            .zip(steps)
            .all(|(entry, step)| step_of(entry) == *step)
}

const BIG: [Step; 6] = [
    Step::Met(1),
    Step::Met(2),
    Step::Turned(1),
    Step::Met(3),
    Step::Met(4),
    Step::Ended,
];

const ALERTS: [Step; 4] = [Step::Met(2), Step::Met(3), Step::Met(4), Step::Ended];

fn has_both_journals(ran: &RunRecord) -> bool {
    match ran.journals.as_slice() {
        [big, alerts] => has_steps(big, &BIG) && has_steps(alerts, &ALERTS),
        _ => false,
    }
}

fn are_noted(alloc: Global) -> bool {
    match ran(alloc, AFTER_2) {
        Some(ran) => has_both_journals(&ran),
        None => false,
    }
}

#[test]
fn four_payments(rt: HostRuntime) {
    assert!(rt; are_noted(rt.alloc()));
}

fn check_feed(rt: &(impl AllocGlobal + Abort), requests: &str, feed: &[Feed]) {
    let ran = ran(rt.alloc(), requests).expect(rt, "a run");
    assert_eq!(rt; ran.feeds.as_slice(), feed);
}

#[test]
fn two_requests_after_one_row(rt: HostRuntime) {
    let feed = [
        Feed::Fed(1),
        Feed::Fed(2),
        Feed::Fed(3),
        Feed::Issued(1),
        Feed::Issued(2),
        Feed::Fed(4),
        Feed::Stopped,
    ];
    check_feed(&rt, TWICE_AFTER_3, &feed);
}

#[test]
fn requests_before_the_first_row_and_beyond_the_last(rt: HostRuntime) {
    let feed = [
        Feed::Issued(1),
        Feed::Fed(1),
        Feed::Fed(2),
        Feed::Fed(3),
        Feed::Fed(4),
        Feed::Issued(2),
        Feed::Stopped,
    ];
    check_feed(&rt, AT_BOTH_ENDS, &feed);
}

/// An item of a lane: a tuple of a row, the marker of a request, or the last one.
#[derive(Clone, Copy, Debug, PartialEq, Eq)]
enum Sent {
    Carry(u64),
    Mark(u64),
    Last,
}

fn sent_as(item: &Item) -> Sent {
    match item {
        Item::Carry(tuple) => Sent::Carry(tuple.row),
        Item::Mark { request, .. } => Sent::Mark(*request),
        Item::Last => Sent::Last,
    }
}

/// Whether a worker with one lane out sends these items on it.
fn sends(replayed: &Replayed, items: &[Sent]) -> bool {
    match replayed.sent.as_slice() {
        [list] => {
            list.len() == items.len()
                && list
                    .as_slice()
                    .iter()
                    .zip(items)
                    .all(|(item, sent)| sent_as(item) == *sent)
        }
        _ => false,
    }
}

fn has_no_counts(replayed: &Replayed) -> bool {
    replayed.state.iter().next().is_none()
}

/// What the replay of a journal leaves, from the beginning of all on.
fn replayed(alloc: Global, setup: &Setup, worker: u32, journal: &Journal) -> Option<Replayed>
    requires { worker < length (workers_in (setup_view setup.now).job) }
{
    let start = Start::first(alloc, setup).ok()?;
    let who = SetupWorker {
        setup,
        number: worker,
    };
    replay(alloc, &start, who, journal).ok()
}

fn big_sends(alloc: Global, ran: &RunRecord, items: &[Sent]) -> bool {
    if ran.setup.workers() != 2 {
        return false;
    }
    let [big, _] = ran.journals.as_slice() else {
        return false;
    };
    match replayed(alloc, &ran.setup, 0, big) {
        Some(replayed) => sends(&replayed, items) && has_no_counts(&replayed),
        None => false,
    }
}

fn alerts_send_nothing(alloc: Global, ran: &RunRecord) -> bool {
    if ran.setup.workers() != 2 {
        return false;
    }
    let [_, alerts] = ran.journals.as_slice() else {
        return false;
    };
    match replayed(alloc, &ran.setup, 1, alerts) {
        Some(replayed) => replayed.sent.as_slice().is_empty() && has_no_counts(&replayed),
        None => false,
    }
}

const ITEMS: [Sent; 4] = [Sent::Carry(2), Sent::Carry(3), Sent::Carry(4), Sent::Last];

fn are_replayed(alloc: Global) -> bool {
    match ran(alloc, AFTER_2) {
        Some(ran) => big_sends(alloc, &ran, &ITEMS) && alerts_send_nothing(alloc, &ran),
        None => false,
    }
}

#[test]
fn replay_of_four_payments(rt: HostRuntime) {
    assert!(rt; are_replayed(rt.alloc()));
}
