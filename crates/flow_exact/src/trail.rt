// What parts of a run leave together.
ghost use Rattle.std.specs.Prelude.{◌≡◌, ◌++◌, IfOk, map};
ghost use Rattle.std.specs.List.{zip};
ghost use Rattle.savepoint.specs.Parts.{is_end as is_end_of, is_stop as is_stop_of};
ghost use Rattle.savepoint.specs.Parts.{joined_journal, unstopped};

use sink_journal::{Entry, Feed, Feeds, Journal, Journals};
use std::alloc::Global;
use tuple_trace::{Items, NoMemory};

/// What a run leaves, without its setup and its counts.
#[derive(Drop)]
pub(crate) struct Trail {
    pub feeds: Feeds,
    pub journals: Journals,
}

/// The first trail without its stop and the ends of its lanes, followed by the second. The one
/// error is out of memory; it gives up both.
pub(crate) fn joined_trails(alloc: Global, first: Trail, second: Trail) -> Result<Trail, NoMemory>
    ensures feeds { IfOk result (λ both. both.feeds ≡ unstopped first.feeds ++ second.feeds) }
    ensures journals { IfOk result (λ both. both.journals
        ≡ map joined_journal (zip first.journals second.journals)) }
{
    let Trail { feeds, journals } = second;
    let feeds = joined_feeds(first.feeds, feeds)?;
    let journals = joined_journals(alloc, first.journals, journals)?;
    Ok(Trail { feeds, journals })
}

fn joined_feeds(first: Feeds, second: Feeds) -> Result<Feeds, NoMemory>
    ensures { IfOk result (λ feeds. feeds ≡ unstopped first ++ second) }
{
    let mut feeds = first.into_vec();
    feeds.retain(|feed| !is_stop(feed));
    let mut more = second.into_vec();
    feeds.append(&mut more)?;
    Ok(Items::from_vec(feeds))
}

fn joined_journals(alloc: Global, first: Journals, second: Journals) -> Result<Journals, NoMemory>
    ensures { IfOk result (λ journals. journals ≡ map joined_journal (zip first second)) }
{
    let mut journals = Journals::new(alloc);
    for (one, more) in first
        .into_vec()
        .into_iter()
        .zip(second.into_vec().into_iter())
    {
        journals.push(joined_one(one, more)?)?;
    }
    Ok(journals)
}

fn joined_one(first: Journal, second: Journal) -> Result<Journal, NoMemory>
    ensures { IfOk result (λ journal. journal ≡ joined_journal (first, second)) }
{
    let mut journal = first.into_vec();
    journal.retain(|entry| !is_end(entry));
    let mut more = second.into_vec();
    journal.append(&mut more)?;
    Ok(Items::from_vec(journal))
}

fn is_end(entry: &Entry) -> bool
    ensures { result ≡ is_end_of entry.now }
{
    matches!(entry, Entry::Ended { .. })
}

fn is_stop(feed: &Feed) -> bool
    ensures { result ≡ is_stop_of feed.now }
{
    matches!(feed, Feed::Stopped)
}
