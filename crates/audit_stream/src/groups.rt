// The records of a stream's audit, put into a text for each group.
ghost use Rattle.std.specs.Prelude.{◌≡◌, ◌<◌, ◌+◌, ◌++◌, ◌∷◌, [], IfOk, OnOk, List, ℕ};
ghost use Rattle.std.specs.Prelude.{length};
ghost use Rattle.std.specs.List.{concat};
ghost use Rattle.csv.specs.Records.{fields_of};
ghost use Rattle.jobs.specs.Job.{job_view};
ghost use Rattle.sink_journal.specs.Audit.{audit_header};
ghost use Rattle.sink_journal.specs.Records.{record_text};
ghost use Rattle.audit_stream.specs.Sorting.{AreDistinct, closed_from, group_among, group_texts};
ghost use Rattle.audit_stream.specs.Sorting.{workers_spelled};

use crate::kinds::{closes, is_step};
use crate::workers::{Spelled, number_of, spelled_workers};
use audit_parts::{begins_with, cell, write_record};
use csv::ByteRecord;
use jobs::Job;
use payments::TextRecords;
use sink_journal::audit_header_text;
use std::alloc::Global;
use tuple_trace::{Bytes, NoMemory};

/// The text of the header and of the records after it, group by group. Of the first `stop` records
/// after the header, stops and ends are left out.
pub(crate) fn sorted_text(
    alloc: Global,
    job: &Job,
    stop: u64,
    records: &mut TextRecords<'_>,
    cells: &mut ByteRecord,
) -> Result<Bytes, NoMemory>
    ensures { (first : List (List ℕ)) (body : List (List (List ℕ))) →
        records.old ≡ first ∷ body → IfOk result (λ text. text ≡ record_text audit_header
        ++ concat (group_texts (workers_spelled (job_view job.now)) (closed_from stop body))) }
{
    let _header = records.next(cells)?;
    let workers = spelled_workers(alloc, job)?;
    text_by(alloc, workers.as_slice(), stop, records, cells)
}

// The text of the header and of these records, group by group.
fn text_by(
    alloc: Global,
    workers: &[Spelled],
    stop: u64,
    records: &mut TextRecords<'_>,
    cells: &mut ByteRecord,
) -> Result<Bytes, NoMemory>
    requires { AreDistinct workers.now }
    ensures { IfOk result (λ text. text ≡ record_text audit_header
        ++ concat (group_texts workers.now (closed_from stop records.old))) }
{
    let mut texts = empty_texts(alloc, workers)?;
    sort_records(workers, texts.as_mut_slice(), stop, records, cells)?;
    join(alloc, texts.as_slice())
}

fn empty_texts(alloc: Global, workers: &[Spelled]) -> Result<Vec<Bytes>, NoMemory>
    ensures { IfOk result (λ texts. texts.items ≡ group_texts workers.now []) }
{
    let mut texts = Vec::new(alloc);
    for _group in 0..workers.len() + 3 {
        texts.push(Bytes::new(alloc))?;
    }
    Ok(texts)
}

// Appends each of these records to the text of its group, without the stops and ends among the
// first `stop` records.
fn sort_records(
    workers: &[Spelled],
    texts: &mut [Bytes],
    stop: u64,
    records: &mut TextRecords<'_>,
    cells: &mut ByteRecord,
) -> Result<(), NoMemory>
    requires distinct { AreDistinct workers.now }
    requires empty { texts.old ≡ group_texts workers.now [] }
    ensures { OnOk result (texts.new ≡ group_texts workers.now (closed_from stop records.old)) }
{
    let mut near = 0;
    for number in 0..u64::MAX {
        if !records.next(cells)? {
            return Ok(());
        }
        if number >= stop || !closes(cells) {
            near = sort_record(workers, texts, cells, near)?;
        }
    }
    Err(NoMemory)
}

// Appends a record to the text of its group. The worker `near` is tried first. Returns its worker,
// or the first worker.
fn sort_record(
    workers: &[Spelled],
    texts: &mut [Bytes],
    cells: &ByteRecord,
    near: usize,
) -> Result<usize, NoMemory>
    requires distinct { AreDistinct workers.now }
    requires long { length texts.old ≡ 3 + length workers.now }
    ensures { (above : List (List (List ℕ))) → texts.old ≡ group_texts workers.now above →
        OnOk result (texts.new ≡ group_texts workers.now (above ++ fields_of cells.now ∷ [])) }
{
    let group = group_of(workers, cells, near);
    write_record(&mut texts[group], cells)?;
    Ok(group.saturating_sub(2))
}

/// The group of a record. The worker `near` is tried first.
pub(crate) fn group_of(workers: &[Spelled], cells: &ByteRecord, near: usize) -> usize
    requires { AreDistinct workers.now }
    ensures group { result ≡ group_among workers.now (fields_of cells.now) }
    ensures within { result < 3 + length workers.now }
{
    if begins_with(cells, b"refused") {
        return 0;
    }
    if is_step(cells) {
        return 1;
    }
    2 + number_of(workers, cell(cells, 1), cell(cells, 2), near)
}

// The header, and then these texts.
fn join(alloc: Global, texts: &[Bytes]) -> Result<Bytes, NoMemory>
    ensures { IfOk result (λ text. text ≡ record_text audit_header ++ concat texts.now) }
{
    let mut text = audit_header_text(alloc)?;
    for part in texts {
        text.extend_from_slice(part.as_slice())?;
    }
    Ok(text)
}
