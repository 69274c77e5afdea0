ghost use Rattle.std.specs.Prelude.{◌≡◌, ◌≤◌, ◌++◌, ℕ, IfOk, List, length, map};
ghost use Rattle.std.specs.List.{zip};
ghost use Rattle.jobs.specs.Nodes.{AreFromSources};
ghost use Rattle.tuple_trace.specs.Rows.{AreRows};
ghost use Rattle.tuple_trace.specs.declared.row.Row.{Row};
ghost use Rattle.flow_model.specs.Consistent.{IsConsistent};
ghost use Rattle.flow_model.specs.Record.{record_view};
ghost use Rattle.flow_model.specs.Run.{IsRun};
ghost use Rattle.flow_model.specs.Setup.{setup_view};
ghost use Rattle.savepoint.specs.Parts.{
  AreParts,
  first_of as first_of_is,
  is_end as is_end_of,
  is_stop as is_stop_of,
  joined,
  joined_journal,
  unstopped,
};

use flow_model::{RunRecord, Setup, States};
use sink_journal::{Entry, Feed, Feeds, Journal, Journals};
use std::alloc::Global;
use tuple_trace::{Items, NoMemory};

/// Keeps only the first `turned` accepted requests of a setup and their plans. Takes no memory.
///
/// The job, its topology, the refused requests, the mask of the splits and the mode stay.
pub fn first_of(setup: Setup, turned: u64) -> Setup
    requires { turned ≤ length (setup_view setup).requests }
    ensures cut { setup_view result ≡ first_of_is (setup_view setup) turned }
    ensures job { result.job ≡ setup.job }
    ensures refused { result.judged.refused ≡ setup.judged.refused }
{
    let Setup {
        job,
        topology,
        mut judged,
        mut plans,
        splits,
        ordered,
    } = setup;
    judged.accepted.truncate(turned as usize);
    plans.truncate(turned as usize);
    Setup {
        job,
        topology,
        judged,
        plans,
        splits,
        ordered,
    }
}

/// Joins two records to one. If they are parts of a run, the result is the whole run, in which each
/// row is whole at each request.
///
/// The first feed loses its stop and is followed by the second. Each first journal loses the ends
/// of its lanes and is followed by the second. The counts are those of the second record. The only
/// error is out of memory; the setup and both records are then lost.
pub fn join(
    alloc: Global,
    setup: Setup,
    first: RunRecord,
    second: RunRecord,
) -> Result<RunRecord, NoMemory>
    ensures record_view { IfOk result (λ ran.
        record_view ran ≡ joined (setup_view setup) (record_view first) (record_view second)) }
    ensures same { IfOk result (λ ran. ran.setup ≡ setup) }
    ensures run { IfOk result (λ ran. (rows : List Row) (row : ℕ) → AreRows rows →
        AreParts (setup_view setup) rows row (record_view first) (record_view second) →
        IsRun (setup_view setup) rows (record_view ran)) }
    ensures consistent { IfOk result (λ ran. (rows : List Row) (row : ℕ) → AreRows rows →
        AreFromSources (setup_view setup).job rows →
        AreParts (setup_view setup) rows row (record_view first) (record_view second) →
        IsConsistent rows (record_view ran)) }
{
    let Left {
        feeds,
        journals,
        states,
    } = joined_left(alloc, left_of(first), left_of(second))?;
    Ok(RunRecord {
        setup,
        feeds,
        journals,
        states,
    })
}

/// What a run left, without its setup.
#[derive(Drop)]
struct Left {
    feeds: Feeds,
    journals: Journals,
    states: States,
}

fn left_of(ran: RunRecord) -> Left
    ensures feeds { result.feeds ≡ ran.feeds }
    ensures journals { result.journals ≡ ran.journals }
    ensures states { result.states ≡ ran.states }
{
    let RunRecord {
        feeds,
        journals,
        states,
        ..
    } = ran;
    Left {
        feeds,
        journals,
        states,
    }
}

fn joined_left(alloc: Global, first: Left, second: Left) -> Result<Left, NoMemory>
    ensures feeds { IfOk result (λ left. left.feeds ≡ unstopped first.feeds ++ second.feeds) }
    ensures journals { IfOk result (λ left. left.journals
        ≡ map joined_journal (zip first.journals second.journals)) }
    ensures states { IfOk result (λ left. left.states ≡ second.states) }
{
    let Left {
        feeds: more_feeds,
        journals: more_journals,
        states,
    } = second;
    let feeds = joined_feeds(first.feeds, more_feeds)?;
    let journals = joined_journals(alloc, first.journals, more_journals)?;
    Ok(Left {
        feeds,
        journals,
        states,
    })
}

fn joined_feeds(first: Feeds, second: Feeds) -> Result<Feeds, NoMemory>
    ensures { IfOk result (λ feeds. feeds ≡ unstopped first ++ second) }
{
    let mut feeds = first.into_vec();
    feeds.retain(|feed| !is_stop(feed));
    let mut more = second.into_vec();
    feeds.append(&mut more)?;
    Ok(Items::from_vec(feeds))
}

fn joined_journals(alloc: Global, first: Journals, second: Journals) -> Result<Journals, NoMemory>
    ensures { IfOk result (λ journals. journals ≡ map joined_journal (zip first second)) }
{
    let mut journals = Journals::new(alloc);
    for (one, more) in first
        .into_vec()
        .into_iter()
        .zip(second.into_vec().into_iter())
    {
        journals.push(joined_one(one, more)?)?;
    }
    Ok(journals)
}

fn joined_one(first: Journal, second: Journal) -> Result<Journal, NoMemory>
    ensures { IfOk result (λ journal. journal ≡ joined_journal (first, second)) }
{
    let mut journal = first.into_vec();
    journal.retain(|entry| !is_end(entry));
    let mut more = second.into_vec();
    journal.append(&mut more)?;
    Ok(Items::from_vec(journal))
}

fn is_end(entry: &Entry) -> bool
    ensures { result ≡ is_end_of entry.now }
{
    matches!(entry, Entry::Ended { .. })
}

fn is_stop(feed: &Feed) -> bool
    ensures { result ≡ is_stop_of feed.now }
{
    matches!(feed, Feed::Stopped)
}
