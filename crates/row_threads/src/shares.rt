ghost use Rattle.std.specs.Prelude.{◌≡◌, ◌++◌, IfOk, map};
ghost use Rattle.csv.specs.Reading.{default_config};
ghost use Rattle.input_pieces.specs.Cut.{IsCut};
ghost use Rattle.jobs.specs.Job.{job_view};
ghost use Rattle.stream_rows.specs.Rows.{stream_rows};
ghost use Rattle.row_threads.specs.inner.Shares.{AreReads, AreShares, IsRead};

use input_pieces::last_cut;
use jobs::Job;
use std::alloc::Global;
use std::thread::{Threads, map_indices};
use stream_rows::{RowReader, SoundRows, rows_behind};
use text_threads::Team;
use tuple_trace::NoMemory;

/// Reads the shares of a text, each on a thread. Returns what each read found, in order.
pub(crate) fn reads_of<R: Threads + Sync>(
    team: &Team<'_, R>,
    job: &Job,
    text: &[u8],
    count: usize,
) -> Result<Vec<Result<SoundRows, NoMemory>>, NoMemory>
    ensures { IfOk result (λ reads. AreReads (job_view job.now) text.now reads.items) }
{
    let alloc = team.alloc;
    let shares = shares_of(alloc, text, count)?;
    let texts = shares.as_slice();
    let read = |place: usize| -> Result<SoundRows, NoMemory>
        ensures { IsRead (job_view job.entry.now) texts.entry.now place result }
    { read_share(alloc, job, texts, place) };
    Ok(map_indices(team.rt, alloc, texts.len(), &read)?)
}

// Cuts a text into at most `count` shares of about as many bytes. Each but the last is cut between
// records.
fn shares_of<'a>(alloc: Global, text: &'a [u8], count: usize) -> Result<Vec<&'a [u8]>, NoMemory>
    ensures { IfOk result (λ shares. AreShares text.now (map (λ share. share.now) shares.items)) }
{
    let size = text.len().div_ceil(count.max(1));
    let mut shares = Vec::new(alloc);
    let mut rest = text;
    for _ in 1..count {
        let (share, later) = cut(rest, size);
        if share.is_empty() {
            break;
        }
        shares.push(share)?;
        rest = later;
    }
    shares.push(rest)?;
    Ok(shares)
}

// Cuts a text in two behind the last whole record of its first `size` bytes.
fn cut(text: &[u8], size: usize) -> (&[u8], &[u8])
    ensures whole { result.0.now ++ result.1.now ≡ text.now }
    ensures cut { IsCut default_config result.0.now }
{
    let (window, _) = text.split_at(size.min(text.len()));
    text.split_at(last_cut(window))
}

// Reads the rows of the share at this place.
fn read_share(
    alloc: Global,
    job: &Job,
    texts: &[&[u8]],
    place: usize,
) -> Result<SoundRows, NoMemory>
    ensures { IsRead (job_view job.now) texts.now place result }
{
    let Some(text) = texts.get(place) else {
        return Err(NoMemory);
    };
    if place == 0 {
        first_rows(alloc, job, text)
    } else {
        rows_behind(alloc, job, 0, text)
    }
}

// The rows of the first share, which has the header.
fn first_rows(alloc: Global, job: &Job, text: &[u8]) -> Result<SoundRows, NoMemory>
    ensures { IfOk result (λ sound. sound ≡ stream_rows (job_view job.now) 0 text.now) }
{
    let mut reader = RowReader::new();
    reader.read(alloc, job, text)
}
