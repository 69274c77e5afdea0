// The audit of a stream as that of one run.
ghost use Rattle.std.specs.Prelude.{◌≡◌, ◌<◌, ◌+◌, ◌^◌, ◌∷◌, ◌↔◌, [], ℕ, IfNone, IfOk, IfSome};
ghost use Rattle.std.specs.Prelude.{IsTrue, List, get_or};
ghost use Rattle.csv.specs.Records.{fields_of};
ghost use Rattle.jobs.specs.Job.{job_view};
ghost use Rattle.sink_journal.specs.Audit.{audit_header};
ghost use Rattle.audit_laws.specs.Fits.{csv_records};
ghost use Rattle.audit_laws.specs.Verdict.{HasNoHeader};
ghost use Rattle.audit_stream.specs.Sorting.{stop_place};
ghost use Rattle.audit_stream.specs.Together.{together};

use crate::groups::sorted_text;
use crate::kinds::is_stop;
use audit_parts::cell;
use csv::ByteRecord;
use jobs::Job;
use payments::TextRecords;
use std::alloc::Global;
use tuple_trace::{Bytes, NoMemory};

/// The text of the audit of one run, put together of the text of the audit of a stream, part by
/// part. Returns `None` if the first record isn't the header, or there is none.
///
/// After the header come all refused requests, then all steps of the feeder, and then the records
/// of each worker in the order of their numbers; what names no worker is last. Each of these groups
/// keeps the order of the text. A stop or an end that a stop follows is left out, so that the ends
/// of the last part are the only ones.
///
/// The text is read twice, record by record. Memory is taken for what is put together, twice.
///
/// # Errors
///
/// Only out of memory.
pub fn put_together(alloc: Global, job: &Job, bytes: &[u8]) -> Result<Option<Bytes>, NoMemory>
    ensures some { IfOk result (λ found. IfSome found (λ text.
        csv_records text ≡ together (job_view job.now) (csv_records bytes.now))) }
    ensures header { IfOk result (λ found. IfSome found (λ _. (body : List (List (List ℕ))) ×
        (csv_records bytes.now ≡ audit_header ∷ body))) }
    ensures none { IfOk result (λ found. IfNone found (HasNoHeader (csv_records bytes.now))) }
{
    let Some(stop) = text_stop(alloc, bytes)? else {
        return Ok(None);
    };
    let text = put_past(alloc, job, bytes, stop)?;
    Ok(Some(text))
}

// The same, of a text that begins with the header. Its last stop is known.
fn put_past(alloc: Global, job: &Job, bytes: &[u8], stop: u64) -> Result<Bytes, NoMemory>
    requires { (body : List (List (List ℕ))) × (csv_records bytes.now ≡ audit_header ∷ body)
        × (stop ≡ stop_place body) }
    ensures { IfOk result (λ text.
        csv_records text ≡ together (job_view job.now) (csv_records bytes.now)) }
{
    let mut records = TextRecords::of(alloc, bytes);
    let mut cells = ByteRecord::new(alloc);
    sorted_text(alloc, job, stop, &mut records, &mut cells)
}

/// How many records of a text stand between the header and the last stop; none if there is no stop.
/// Returns `None` if the text doesn't begin with the header.
pub(crate) fn text_stop(alloc: Global, bytes: &[u8]) -> Result<Option<u64>, NoMemory>
    ensures some { IfOk result (λ found. IfSome found (λ stop. (body : List (List (List ℕ))) ×
        (csv_records bytes.now ≡ audit_header ∷ body) × (stop ≡ stop_place body))) }
    ensures none { IfOk result (λ found. IfNone found (HasNoHeader (csv_records bytes.now))) }
{
    let mut records = TextRecords::of(alloc, bytes);
    let mut cells = ByteRecord::new(alloc);
    stop_among(&mut records, &mut cells)
}

// The same, of records. `cells` holds each of them in turn.
fn stop_among(
    records: &mut TextRecords<'_>,
    cells: &mut ByteRecord,
) -> Result<Option<u64>, NoMemory>
    ensures some { IfOk result (λ found. IfSome found (λ stop. (body : List (List (List ℕ))) ×
        (records.old ≡ audit_header ∷ body) × (stop ≡ stop_place body))) }
    ensures none { IfOk result (λ found. IfNone found (HasNoHeader records.old)) }
{
    if !records.next(cells)? {
        return Ok(None);
    }
    if !is_header(cells) {
        return Ok(None);
    }
    let stop = last_stop(records, cells)?;
    Ok(Some(stop))
}

// How many records stand before the last stop; none if there is no stop.
fn last_stop(records: &mut TextRecords<'_>, cells: &mut ByteRecord) -> Result<u64, NoMemory>
    ensures { IfOk result (λ stop. stop ≡ stop_place records.old) }
{
    let mut stop = 0;
    for number in 0..u64::MAX {
        if !records.next(cells)? {
            return Ok(stop);
        }
        if is_stop(cells) {
            stop = number;
        }
    }
    Err(NoMemory)
}

#[tactic(auto, using(sink_journal::proofs::CellLemmas::six_cells))]
fn is_header(cells: &ByteRecord) -> bool
    ensures { IsTrue result ↔ (fields_of cells.now ≡ audit_header) }
{
    cells.len() == 6
        && are_cells(cells, 0, b"entry", b"node", b"worker")
        && are_cells(cells, 3, b"lane", b"number", b"extra")
}

// Whether these are the cells from a place on.
fn are_cells(cells: &ByteRecord, place: usize, a: &[u8], b: &[u8], c: &[u8]) -> bool
    requires { place < 2 ^ 32 }
    ensures { IsTrue result ↔ ((get_or (fields_of cells.now) place [] ≡ a.now)
        × (get_or (fields_of cells.now) (place + 1) [] ≡ b.now)
        × (get_or (fields_of cells.now) (place + 2) [] ≡ c.now)) }
{
    cell(cells, place) == a && cell(cells, place + 1) == b && cell(cells, place + 2) == c
}
