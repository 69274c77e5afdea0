ghost use Rattle.std.specs.Prelude.{◌≡◌, ◌≢◌, ◌<◌, ◌≤◌, ◌^◌, Ok, Err, Some, None, IfErr, IfOk};
ghost use Rattle.std.specs.Prelude.{List, OnOk, get_or, length, map, option_map, slice_set};
ghost use Rattle.std.specs.FinMap.{insert};
ghost use Rattle.keyed_state.specs.Counts.{Counts as CountsIs};
ghost use Rattle.csv.specs.Records.{fields_of};
ghost use Rattle.flow_model.specs.Setup.{setup_view};
ghost use Rattle.flow_model.specs.Workers.{workers_in};
ghost use Rattle.savepoint.specs.SaveReading.{Spelled as SpelledIs, begin_at as begin_at_of};
ghost use Rattle.savepoint.specs.SaveReading.{begin_in, begin_with, placed_from};
ghost use Rattle.savepoint.specs.SaveReading.{counts_at, head_of as head_of_record};
ghost use Rattle.savepoint.specs.SaveReading.{placed_of as placed_of_spelled, save_of, spelled_of};
ghost use Rattle.savepoint.specs.declared.fault.SaveFault.TheVariants.{Shape as ShapeOf};
ghost use Rattle.savepoint_file.specs.Steps.{placed_in, read_from, there};
ghost use Rattle.savepoint_file.specs.Views.{spelled_view};

use crate::issued_up_to;
use crate::placed::{Placed, Spelled, placed_of, stands_behind};
use crate::records::four_of;
use crate::spelling::{head_number, number};
use csv::ByteRecord;
use flow_model::{Setup, Start};
use keyed_state::Keyed;
use payments::TextRecords;
use savepoint::SaveFault;
use sink_journal::States;
use std::alloc::Global;
use tuple_trace::{Items, NoMemory};

/// Counts as they are read: `None` stands for one that has no place.
pub type PlacedCounts = Items<Option<Placed>>;

/// Where a run goes on by the text of a savepoint, or the text's first fault.
///
/// `rows` is the number of all rows. The form of each record is judged first, then the row, the
/// number of requests, and the places of the counts in their order.
///
/// # Errors
///
/// The fault of the text, or out of memory.
pub fn read_save(alloc: Global, setup: &Setup, rows: u64, bytes: &[u8]) -> Result<Start, SaveFault>
    ensures ok { IfOk result (λ start. save_of (setup_view setup.now) rows bytes.now ≡ Ok start) }
    ensures fault { IfErr result (λ fault. fault ≢ SaveFault.NoMemory →
        save_of (setup_view setup.now) rows bytes.now ≡ Err fault) }
{
    let mut records = TextRecords::of(alloc, bytes);
    let mut cells = ByteRecord::new(alloc);
    read_records(alloc, setup, rows, &mut records, &mut cells)
}

// Where a run goes on by these records. `cells` holds each record in turn.
fn read_records(
    alloc: Global,
    setup: &Setup,
    rows: u64,
    records: &mut TextRecords<'_>,
    cells: &mut ByteRecord,
) -> Result<Start, SaveFault>
    ensures ok { IfOk result (λ start.
        begin_in (setup_view setup.now) rows records.old ≡ Ok start) }
    ensures fault { IfErr result (λ fault. fault ≢ SaveFault.NoMemory →
        begin_in (setup_view setup.now) rows records.old ≡ Err fault) }
{
    if !records.next(cells)? {
        return Err(SaveFault::Shape(0));
    }
    let Some((row, turned)) = head_of(cells) else {
        return Err(SaveFault::Shape(0));
    };
    let counts = read_counts(alloc, setup, 1, records, cells)?;
    begin_at(alloc, setup, rows, row, turned, counts.as_slice())
}

// The row and the number of requests of the first record.
#[tactic(auto, using(crate::proofs::ReadLemmas::no_head))]
fn head_of(cells: &ByteRecord) -> Option<(u64, u64)>
    ensures { result ≡ head_of_record (fields_of cells.now) }
{
    let four = four_of(cells)?;
    if four.first == b"fries".as_slice() && four.second == b"save".as_slice() {
        Some((head_number(four.third)?, head_number(four.fourth)?))
    } else {
        None
    }
}

/// The counts of the records that are left, each in its place. The first record has the number
/// `first`, and `cells` holds each record in turn.
///
/// # Errors
///
/// [`SaveFault::Shape`] for the first record that isn't of the form of a count, or out of memory.
pub fn read_counts(
    alloc: Global,
    setup: &Setup,
    first: u64,
    records: &mut TextRecords<'_>,
    cells: &mut ByteRecord,
) -> Result<PlacedCounts, SaveFault>
    ensures ok { IfOk result (λ counts.
        read_from (setup_view setup.now).job first records.old ≡ Ok counts) }
    ensures fault { IfErr result (λ fault. fault ≢ SaveFault.NoMemory →
        read_from (setup_view setup.now).job first records.old ≡ Err fault) }
{
    let mut counts = PlacedCounts::new(alloc);
    for number in first..u64::MAX {
        if !records.next(cells)? {
            return Ok(counts);
        }
        counts.push(count_in(alloc, setup, number, cells)?)?;
    }
    Err(SaveFault::NoMemory)
}

// The count of the record with this number, in its place.
fn count_in(
    alloc: Global,
    setup: &Setup,
    number: u64,
    cells: &ByteRecord,
) -> Result<Option<Placed>, SaveFault>
    ensures ok { IfOk result (λ placed. option_map (placed_of_spelled (setup_view setup.now).job)
        (spelled_of (fields_of cells.now)) ≡ Some placed) }
    ensures fault { IfErr result (λ fault. fault ≢ SaveFault.NoMemory →
        (spelled_of (fields_of cells.now) ≡ None) × (fault ≡ ShapeOf number)) }
{
    let Some(spelled) = spelled(cells) else {
        return Err(SaveFault::Shape(number));
    };
    Ok(placed_of(alloc, setup, spelled)?)
}

// What a record spells.
#[tactic(auto, using(crate::proofs::ReadLemmas::no_spelling))]
fn spelled(cells: &ByteRecord) -> Option<Spelled<'_>>
    ensures { option_map spelled_view result ≡ spelled_of (fields_of cells.now) }
{
    let four = four_of(cells)?;
    Some(Spelled {
        name: four.first,
        place: number(four.second)?,
        key: four.third,
        count: number(four.fourth)?,
    })
}

// Where a run goes on with these counts.
fn begin_at(
    alloc: Global,
    setup: &Setup,
    rows: u64,
    row: u64,
    turned: u64,
    counts: &[Option<Placed>],
) -> Result<Start, SaveFault>
    requires { (spelled : List SpelledIs) ×
        (counts.now ≡ map (placed_of_spelled (setup_view setup.now).job) spelled) }
    ensures ok { IfOk result (λ start. (spelled : List SpelledIs) →
        counts.now ≡ map (placed_of_spelled (setup_view setup.now).job) spelled →
        begin_at_of (setup_view setup.now) rows (row, turned) spelled ≡ Ok start) }
    ensures fault { IfErr result (λ fault. fault ≢ SaveFault.NoMemory → (spelled : List SpelledIs) →
        counts.now ≡ map (placed_of_spelled (setup_view setup.now).job) spelled →
        begin_at_of (setup_view setup.now) rows (row, turned) spelled ≡ Err fault) }
{
    let issued = issued_up_to(setup, row, rows);
    if row > rows {
        return Err(SaveFault::Past(row));
    }
    if turned != issued {
        return Err(SaveFault::Count(issued));
    }
    start_with(alloc, setup, row, turned, 1, counts)
}

/// Where a run goes on after `row` rows and `turned` requests with these counts. The record of the
/// first count has the number `first`.
///
/// # Errors
///
/// [`SaveFault::State`] for the first count that has no place or comes too early, or out of memory.
pub fn start_with(
    alloc: Global,
    setup: &Setup,
    row: u64,
    turned: u64,
    first: u64,
    counts: &[Option<Placed>],
) -> Result<Start, SaveFault>
    requires few { first ≤ 2 ^ 63 }
    requires named { (spelled : List SpelledIs) ×
        (counts.now ≡ map (placed_of_spelled (setup_view setup.now).job) spelled) }
    ensures ok { IfOk result (λ start. (spelled : List SpelledIs) →
        counts.now ≡ map (placed_of_spelled (setup_view setup.now).job) spelled →
        begin_with (setup_view setup.now).job row turned
        (placed_from (setup_view setup.now).job first None spelled) ≡ Ok start) }
    ensures fault { IfErr result (λ fault. fault ≢ SaveFault.NoMemory → (spelled : List SpelledIs) →
        counts.now ≡ map (placed_of_spelled (setup_view setup.now).job) spelled →
        begin_with (setup_view setup.now).job row turned
        (placed_from (setup_view setup.now).job first None spelled) ≡ Err fault) }
{
    check_order(first, counts)?;
    Ok(Start {
        row,
        turned,
        states: states_of(alloc, setup, first, counts)?,
    })
}

// Whether each count has a place, and comes after the one before it. The record of the first one
// has the number `first`.
fn check_order(first: u64, counts: &[Option<Placed>]) -> Result<(), SaveFault>
    requires { first ≤ 2 ^ 63 }
    ensures ok { OnOk result (placed_in first None counts.now ≡ Ok (there counts.now)) }
    ensures fault { IfErr result (λ fault. placed_in first None counts.now ≡ Err fault) }
{
    let mut before = None;
    for (place, count) in counts.iter().enumerate() {
        let number = first + place as u64;
        let Some(placed) = count else {
            return Err(SaveFault::State(number));
        };
        if !stands_behind(before, placed) {
            return Err(SaveFault::State(number));
        }
        before = Some(placed);
    }
    Ok(())
}

// The counts of each worker. All counts have a place, and come in order.
fn states_of(
    alloc: Global,
    setup: &Setup,
    first: u64,
    counts: &[Option<Placed>],
) -> Result<States, NoMemory>
    requires named { (spelled : List SpelledIs) ×
        (counts.now ≡ map (placed_of_spelled (setup_view setup.now).job) spelled) }
    requires order { placed_in first None counts.now ≡ Ok (there counts.now) }
    ensures { IfOk result (λ states. states ≡
        map (counts_at (there counts.now)) (workers_in (setup_view setup.now).job)) }
{
    let Start { states, .. } = Start::first(alloc, setup)?;
    let mut states = states.into_vec();
    for count in counts {
        match count {
            Some(placed) => set(&mut states, placed)?,
            None => {}
        }
    }
    Ok(States::from_vec(states))
}

// Gives the worker of a count this count.
fn set(states: &mut Vec<Keyed>, placed: &Placed) -> Result<(), NoMemory>
    requires { placed.now.worker < length states.old.items }
    ensures { OnOk result ((d : CountsIs) → states.new.items
        ≡ slice_set states.old.items placed.now.worker
        (insert (get_or states.old.items placed.now.worker d) placed.now.key placed.now.count)) }
{
    states[placed.worker as usize].set(placed.key.as_slice(), placed.count)
}
