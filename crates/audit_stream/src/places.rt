// Where the records of an audit that is put together stand in the audit of the stream.
ghost use Rattle.std.specs.Prelude.{◌≡◌, ◌∷◌, [], ℕ, IfNone, IfOk, IfSome, List};
ghost use Rattle.std.specs.Prelude.{OnOk, get_or, map};
ghost use Rattle.std.specs.List.{concat};
ghost use Rattle.jobs.specs.Job.{job_view};
ghost use Rattle.sink_journal.specs.Audit.{audit_header};
ghost use Rattle.audit_laws.specs.Fits.{csv_records};
ghost use Rattle.audit_laws.specs.Verdict.{HasNoHeader};
ghost use Rattle.audit_stream.specs.Places.{places_together};
ghost use Rattle.audit_stream.specs.Sorting.{AreDistinct, place_lists, stop_place};
ghost use Rattle.audit_stream.specs.Sorting.{workers_spelled};
ghost use Rattle.audit_stream.specs.Together.{together};

use crate::groups::group_of;
use crate::kinds::closes;
use crate::together::text_stop;
use crate::workers::{Spelled, spelled_workers};
use csv::ByteRecord;
use jobs::Job;
use payments::TextRecords;
use std::alloc::Global;
use tuple_trace::{Items, NoMemory};

/// Where each record of the text that [`put_together`](crate::put_together) makes stands in the
/// text of the stream. Records are counted from 0, which is the header. Returns `None` if the first
/// record isn't the header, or there is none.
///
/// So a fault that names a record of the text that was put together can name that of the stream.
///
/// # Errors
///
/// Only out of memory.
pub fn record_places(alloc: Global, job: &Job, bytes: &[u8]) -> Result<Option<Items<u64>>, NoMemory>
    ensures places { IfOk result (λ found. IfSome found (λ places.
        places ≡ places_together (job_view job.now) (csv_records bytes.now))) }
    ensures records { IfOk result (λ found. IfSome found (λ places.
        map (λ place. get_or (csv_records bytes.now) place []) places
        ≡ together (job_view job.now) (csv_records bytes.now))) }
    ensures none { IfOk result (λ found. IfNone found (HasNoHeader (csv_records bytes.now))) }
{
    let Some(stop) = text_stop(alloc, bytes)? else {
        return Ok(None);
    };
    let places = places_past(alloc, job, bytes, stop)?;
    Ok(Some(places))
}

// The same, of a text that begins with the header. Its last stop is known.
fn places_past(alloc: Global, job: &Job, bytes: &[u8], stop: u64) -> Result<Items<u64>, NoMemory>
    requires { (body : List (List (List ℕ))) × (csv_records bytes.now ≡ audit_header ∷ body)
        × (stop ≡ stop_place body) }
    ensures { IfOk result (λ places.
        places ≡ places_together (job_view job.now) (csv_records bytes.now)) }
{
    let mut records = TextRecords::of(alloc, bytes);
    let mut cells = ByteRecord::new(alloc);
    sorted_places(alloc, job, stop, &mut records, &mut cells)
}

// The place of the header, and then those of the records after it, group by group. Of the first
// `stop` records after the header, stops and ends are left out.
fn sorted_places(
    alloc: Global,
    job: &Job,
    stop: u64,
    records: &mut TextRecords<'_>,
    cells: &mut ByteRecord,
) -> Result<Items<u64>, NoMemory>
    ensures { (first : List (List ℕ)) (body : List (List (List ℕ))) →
        records.old ≡ first ∷ body → IfOk result (λ places. places
        ≡ 0 ∷ concat (place_lists (workers_spelled (job_view job.now)) stop body)) }
{
    let _header = records.next(cells)?;
    let workers = spelled_workers(alloc, job)?;
    places_by(alloc, workers.as_slice(), stop, records, cells)
}

fn places_by(
    alloc: Global,
    workers: &[Spelled],
    stop: u64,
    records: &mut TextRecords<'_>,
    cells: &mut ByteRecord,
) -> Result<Items<u64>, NoMemory>
    requires { AreDistinct workers.now }
    ensures { IfOk result (λ places.
        places ≡ 0 ∷ concat (place_lists workers.now stop records.old)) }
{
    let mut lists = empty_lists(alloc, workers)?;
    sort_places(workers, lists.as_mut_slice(), stop, records, cells)?;
    join(alloc, lists.as_slice())
}

fn empty_lists(alloc: Global, workers: &[Spelled]) -> Result<Vec<Items<u64>>, NoMemory>
    ensures { (stop : ℕ) → IfOk result (λ lists. lists.items ≡ place_lists workers.now stop []) }
{
    let mut lists = Vec::new(alloc);
    for _group in 0..workers.len() + 3 {
        lists.push(Items::new(alloc))?;
    }
    Ok(lists)
}

// Appends the place of each of these records to the list of its group, without the stops and ends
// among the first `stop` records. The first record has place 1.
fn sort_places(
    workers: &[Spelled],
    lists: &mut [Items<u64>],
    stop: u64,
    records: &mut TextRecords<'_>,
    cells: &mut ByteRecord,
) -> Result<(), NoMemory>
    requires distinct { AreDistinct workers.now }
    requires empty { lists.old ≡ place_lists workers.now stop [] }
    ensures { OnOk result (lists.new ≡ place_lists workers.now stop records.old) }
{
    let mut near = 0;
    for number in 0..u64::MAX {
        if !records.next(cells)? {
            return Ok(());
        }
        if number >= stop || !closes(cells) {
            let group = group_of(workers, cells, near);
            lists[group].push(number + 1)?;
            near = group.saturating_sub(2);
        }
    }
    Err(NoMemory)
}

// The place of the header, and then these.
fn join(alloc: Global, lists: &[Items<u64>]) -> Result<Items<u64>, NoMemory>
    ensures { IfOk result (λ places. places ≡ 0 ∷ concat lists.now) }
{
    let mut places = Items::new(alloc);
    places.push(0)?;
    for list in lists {
        places.extend_from_slice(list.as_slice())?;
    }
    Ok(places)
}
