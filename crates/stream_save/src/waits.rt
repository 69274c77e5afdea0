// The waits of a stream's savepoint.
ghost use Rattle.std.specs.Prelude.{◌≡◌, ◌≢◌, ◌<◌, ◌^◌, Ok, Err, IfErr, IfOk, drop};
ghost use Rattle.csv.specs.Records.{fields_of};
ghost use Rattle.stream_save.specs.Steps.{wait_numbers};
ghost use Rattle.stream_save.specs.StreamReading.{misplaced as misplaced_of};
ghost use Rattle.stream_save.specs.StreamReading.{wait_read as wait_of_record, waits_read};

use csv::ByteRecord;
use payments::TextRecords;
use savepoint::SaveFault;
use savepoint_file::{cell, head_number};
use std::alloc::Global;
use tuple_trace::Items;

/// The waits of the first `turned` records. The first one has the number 1, and `cells` holds each
/// record in turn.
///
/// # Errors
///
/// [`SaveFault::Shape`] for the first record that isn't of the form of a wait, or that is missing;
/// or out of memory.
pub(crate) fn read_waits(
    alloc: Global,
    turned: u64,
    records: &mut TextRecords<'_>,
    cells: &mut ByteRecord,
) -> Result<Items<u64>, SaveFault>
    requires { turned < 2 ^ 63 }
    ensures ok { IfOk result (λ waits. waits_read turned 1 records.old ≡ Ok waits) }
    ensures rest { IfOk result (λ waits. records.new ≡ drop turned records.old) }
    ensures fault { IfErr result (λ fault. fault ≢ SaveFault.NoMemory →
        waits_read turned 1 records.old ≡ Err fault) }
{
    let mut waits = Items::new(alloc);
    for done in 0..turned {
        if !records.next(cells)? {
            return Err(SaveFault::Shape(done + 1));
        }
        let Some(row) = wait_of(cells, done + 1) else {
            return Err(SaveFault::Shape(done + 1));
        };
        waits.push(row)?;
    }
    Ok(waits)
}

// The row of the wait of the request with this number, if the record is of its form.
#[tactic(auto, using(crate::proofs::WaitLemmas::no_wait, crate::proofs::WaitLemmas::three_cells))]
fn wait_of(cells: &ByteRecord, number: u64) -> Option<u64>
    ensures { result ≡ wait_of_record number (fields_of cells.now) }
{
    if cells.len() != 3 {
        return None;
    }
    if cell(cells, 0) == b"wait".as_slice() {
        row_of(cells, number)
    } else {
        None
    }
}

// The row of a record of three cells, if its number is this one.
fn row_of(cells: &ByteRecord, number: u64) -> Option<u64>
    ensures { result ≡ wait_numbers number (fields_of cells.now) }
{
    let found = head_number(cell(cells, 1))?;
    let row = head_number(cell(cells, 2))?;
    if found == number { Some(row) } else { None }
}

/// The number of the first wait that is before the one before it, or above this row. Waits are
/// counted from 1.
pub(crate) fn misplaced(row: u64, waits: &[u64]) -> Option<u64>
    ensures { result ≡ misplaced_of row 1 0 waits.now }
{
    let mut before = 0;
    for (place, wait) in waits.iter().enumerate() {
        if *wait < before || *wait > row {
            return Some(place as u64 + 1);
        }
        before = *wait;
    }
    None
}
