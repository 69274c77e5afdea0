use crate::tests::payments_job::{AFTER_4, inputs};
use flow_replay::{RunRecord, Setup, States};
use savepoint::{first_of, join};
use sink_journal::{Entry, Feed, Feeds, Journal, Journals};
use std::alloc::Global;
use tuple_trace::NoMemory;

/// The feeder stops.
fn stop(alloc: Global) -> Result<Feeds, NoMemory> {
    let mut feeds = Feeds::new(alloc);
    feeds.push(Feed::Stopped)?;
    Ok(feeds)
}

/// The journal of each of `workers` workers has one end.
fn ends(alloc: Global, workers: usize) -> Result<Journals, NoMemory> {
    let mut journals = Journals::new(alloc);
    for _worker in 0..workers {
        journals.push(ended(alloc)?)?;
    }
    Ok(journals)
}

fn ended(alloc: Global) -> Result<Journal, NoMemory> {
    let mut journal = Journal::new(alloc);
    journal.push(Entry::Ended { lane: 0 })?;
    Ok(journal)
}

/// A second part without rows.
fn end_of_run(alloc: Global) -> Option<Box<RunRecord>> {
    let setup = inputs(AFTER_4).setup(alloc)?;
    let feeds = stop(alloc).ok()?;
    let journals = ends(alloc, setup.workers() as usize).ok()?;
    let end = RunRecord {
        setup: Box::into_inner(setup),
        feeds,
        journals,
        states: States::new(alloc),
    };
    Box::new(alloc, end).ok()
}

/// What is joined: a run and an end, for a setup.
#[derive(Drop)]
struct Parts {
    setup: Box<Setup>,
    first: Box<RunRecord>,
    end: Box<RunRecord>,
}

/// The stops and all entries of the feed; the ends and all other entries of the journals.
fn counts(ran: &RunRecord) -> [usize; 4] {
    let feeds = ran.feeds.as_slice();
    let stops = feeds.iter().filter(|feed| **feed == Feed::Stopped).count();
    let (mut ends, mut others) = (0usize, 0usize);
    for journal in &ran.journals {
        for entry in journal {
            if matches!(entry, Entry::Ended { .. }) {
                ends = ends.saturating_add(1);
            } else {
                others = others.saturating_add(1);
            }
        }
    }
    [stops, feeds.len(), ends, others]
}

fn parts_of(alloc: Global) -> Option<Parts> {
    let first = inputs(AFTER_4).run(alloc)?;
    let end = end_of_run(alloc)?;
    let setup = inputs(AFTER_4).setup(alloc)?;
    Some(Parts { setup, first, end })
}

fn joined(alloc: Global, parts: Parts) -> Option<Box<RunRecord>> {
    let Parts { setup, first, end } = parts;
    let first = Box::into_inner(first);
    match join(alloc, Box::into_inner(setup), first, Box::into_inner(end)) {
        Ok(ran) => Box::new(alloc, ran).ok(),
        Err(_) => None,
    }
}

fn counts_of_joined(alloc: Global) -> [usize; 4] {
    let Some(parts) = parts_of(alloc) else {
        return [0, 0, 0, 0];
    };
    match joined(alloc, parts) {
        Some(ran) => counts(&ran),
        None => [0, 0, 0, 0],
    }
}

#[test]
fn a_run_is_joined_to_its_end(rt: HostRuntime) {
    assert_eq!(rt; counts_of_joined(rt.alloc()), [1, 12, 8, 40]);
}

/// A setup with one request, of which none is left.
fn cut(alloc: Global) -> Option<Box<Setup>> {
    let setup = inputs(AFTER_4).setup(alloc)?;
    Box::new(alloc, first_of(Box::into_inner(setup), 0)).ok()
}

/// How many requests and plans are left of it.
fn left(alloc: Global) -> Option<(usize, usize)> {
    let setup = cut(alloc)?;
    Some((setup.request_count(), setup.plans.len()))
}

#[test]
fn no_request_is_left(rt: HostRuntime) {
    assert_eq!(rt; left(rt.alloc()), Some((0, 0)));
}
