//! What a record tells, a line each.

use flow_model::RunRecord;
use jobs::worker_count;
use sink_journal::{Entry, Feed, Journal, audit_text};
use std::alloc::Global;
use tuple_trace::{Bytes, NoMemory};

/// The audit of a record without refused requests. `None` if it lacks a journal or counts of a
/// worker, or memory runs out.
pub fn audit_of(alloc: Global, ran: &RunRecord) -> Option<Bytes> {
    let job = &ran.setup.job;
    let count = worker_count(job);
    if ran.journals.len() as u64 != count || ran.states.len() as u64 != count {
        return None;
    }
    audit_text(alloc, job, &[], &ran.feeds, &ran.journals, &ran.states).ok()
}

/// The lines of the feed of a record. `None` if memory runs out.
pub fn feed_of(alloc: Global, ran: &RunRecord) -> Option<Bytes> {
    let mut feed = Bytes::new(alloc);
    push_feeds(alloc, ran.feeds.as_slice(), &mut feed).ok()?;
    Some(feed)
}

/// The lines of the turns of a record. `None` if memory runs out.
pub fn turns_of(alloc: Global, ran: &RunRecord) -> Option<Bytes> {
    let mut turns = Bytes::new(alloc);
    push_journals(alloc, ran.journals.as_slice(), &mut turns).ok()?;
    Some(turns)
}

fn push_journals(alloc: Global, journals: &[Journal], lines: &mut Bytes) -> Result<(), NoMemory> {
    for (worker, journal) in journals.iter().enumerate() {
        push_turns(alloc, worker, journal.as_slice(), lines)?;
    }
    Ok(())
}

fn push_turns(
    alloc: Global,
    worker: usize,
    journal: &[Entry],
    lines: &mut Bytes,
) -> Result<(), NoMemory> {
    for entry in journal {
        if let Entry::Turned { request } = entry {
            let line = format!(in alloc; "{worker} turned {request}\n")?;
            lines.extend_from_slice(line.as_bytes())?;
        }
    }
    Ok(())
}

fn push_feeds(alloc: Global, feeds: &[Feed], lines: &mut Bytes) -> Result<(), NoMemory> {
    for feed in feeds {
        let line = match feed {
            Feed::Fed(row) => format!(in alloc; "fed {row}\n"),
            Feed::Issued(request) => format!(in alloc; "issued {request}\n"),
            Feed::Stopped => format!(in alloc; "stopped\n"),
        };
        lines.extend_from_slice(line?.as_bytes())?;
    }
    Ok(())
}
