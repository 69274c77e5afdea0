// The waits that a text shows.
ghost use Rattle.std.specs.Prelude.{◌≡◌, IfOk, get_or, length, max, min};
ghost use Rattle.csv.specs.Reading.{default_config, records, strip_bom};
ghost use Rattle.audit_live.specs.Shown.{rows_shown, waits_from};
ghost use Rattle.audit_live.specs.Shown.{shown_waits as shown_waits_of};

use audit_parts::begins_with;
use csv::ByteRecord;
use payments::TextRecords;
use std::alloc::Global;
use tuple_trace::{Items, NoMemory, Rows};
use versions::Request;

/// The number of rows for which each accepted request waits, as the CSV records of a text show it.
/// No text is refused.
///
/// # Errors
///
/// Only out of memory.
pub fn shown_waits(
    alloc: Global,
    accepted: &[Request],
    rows: &Rows,
    bytes: &[u8],
) -> Result<Items<u64>, NoMemory>
    ensures { IfOk result (λ waits. waits ≡ shown_waits_of (length rows.now) accepted.now
        (records default_config (strip_bom bytes.now))) }
{
    let mut records = TextRecords::of(alloc, bytes);
    let mut cells = ByteRecord::new(alloc);
    let shown = rows_shown(alloc, &mut records, &mut cells)?;
    waits_of(alloc, accepted, rows.len() as u64, shown.as_slice())
}

// The number of `fed` records before each `issued` record. `cells` holds each record in turn.
fn rows_shown(
    alloc: Global,
    records: &mut TextRecords<'_>,
    cells: &mut ByteRecord,
) -> Result<Items<u64>, NoMemory>
    ensures { IfOk result (λ shown. shown ≡ rows_shown 0 records.old) }
{
    let mut shown = Items::new(alloc);
    let mut fed = 0;
    for _ in 0..u64::MAX {
        if !records.next(cells)? {
            return Ok(shown);
        }
        if begins_with(cells, b"issued") {
            shown.push(fed)?;
        } else if begins_with(cells, b"fed") {
            fed += 1;
        }
    }
    Err(NoMemory)
}

// The waits of these requests, if these rows are shown for them.
fn waits_of(
    alloc: Global,
    accepted: &[Request],
    rows: u64,
    shown: &[u64],
) -> Result<Items<u64>, NoMemory>
    ensures { IfOk result (λ waits. waits ≡ waits_from rows 0 accepted.now shown.now) }
{
    let mut waits = Items::new(alloc);
    let mut least = 0;
    for place in 0..accepted.len() {
        least = wait_at(shown, place, rows, least.max(accepted[place].after));
        waits.push(least)?;
    }
    Ok(waits)
}

// The rows that are shown at a place, but at least `least` and at most `rows`. If none are shown
// there, all rows.
fn wait_at(shown: &[u64], place: usize, rows: u64, least: u64) -> u64
    ensures { result ≡ min (max least (get_or shown.now place rows)) rows }
{
    match shown.get(place) {
        Some(row) => least.max(*row).min(rows),
        None => rows,
    }
}
