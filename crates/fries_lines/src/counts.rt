// What is counted of a run.
ghost use Rattle.std.specs.Prelude.{◌≡◌, ◌+◌, IfOk, length, sum_by};
ghost use Rattle.jobs.specs.Nodes.{worker_count};
ghost use Rattle.fries_lines.specs.Lines.{alert_count as alert_count_of, met_by as met_by_func};
ghost use Rattle.fries_lines.specs.Lines.{met_count as met_count_of, row_count as row_count_of};

use jobs::{Func, Job, is_sink};
use sink_journal::{Entry, Feed, Journal};
use tuple_trace::NoMemory;

/// How many rows were fed.
pub fn row_count(feeds: &[Feed]) -> usize
    ensures { result ≡ row_count_of feeds.now }
{
    feeds
        .iter()
        .filter(|feed| matches!(feed, Feed::Fed(_)))
        .count()
}

/// How many tuples reached the sinks of a job whose workers have these journals. A number too great
/// to be counted is more than memory holds.
pub fn alert_count(job: &Job, journals: &[Journal]) -> Result<usize, NoMemory>
    requires { length journals.now ≡ worker_count job.now.nodes }
    ensures { IfOk result (λ count. count ≡ alert_count_of job.now.nodes journals.now) }
{
    let mut count = 0;
    let mut rest = journals;
    for node in job.nodes.as_slice() {
        let (own, later) = rest.split_at(node.journal_count() as usize);
        count = sum(count, met_by(&node.func, own)?)?;
        rest = later;
    }
    Ok(count)
}

// How many tuples the journals of a sink met; those of any other node aren't counted.
fn met_by(func: &Func, journals: &[Journal]) -> Result<usize, NoMemory>
    ensures { IfOk result (λ count. count ≡ met_by_func func.now journals.now) }
{
    if is_sink(func) {
        met_in(journals)
    } else {
        Ok(0)
    }
}

fn met_in(journals: &[Journal]) -> Result<usize, NoMemory>
    ensures { IfOk result (λ count. count ≡ sum_by met_count_of journals.now) }
{
    let mut count = 0;
    for journal in journals {
        count = sum(count, met_count(journal.as_slice()))?;
    }
    Ok(count)
}

fn met_count(journal: &[Entry]) -> usize
    ensures { result ≡ met_count_of journal.now }
{
    journal
        .iter()
        .filter(|entry| matches!(entry, Entry::Met { .. }))
        .count()
}

fn sum(a: usize, b: usize) -> Result<usize, NoMemory>
    ensures { IfOk result (λ sum. sum ≡ a + b) }
{
    a.checked_add(b).ok_or(NoMemory)
}
