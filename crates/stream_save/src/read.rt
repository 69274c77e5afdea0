ghost use Rattle.std.specs.Prelude.{◌≡◌, ◌≢◌, ◌<◌, ◌^◌, Ok, Err, Some, IfErr, IfOk, List, map};
ghost use Rattle.flow_model.specs.Setup.{setup_view};
ghost use Rattle.savepoint.specs.SaveReading.{Spelled, placed_of};
ghost use Rattle.stream_save.specs.StreamReading.{save_after, save_at, stream_save_in, saved_at};
ghost use Rattle.stream_save.specs.StreamReading.{stream_save_of};

use crate::head::{Head, head_of};
use crate::waits::{misplaced, read_waits};
use crate::{StreamSave, StreamSaveFault};
use csv::ByteRecord;
use flow_model::{Setup, Start};
use payments::TextRecords;
use savepoint_file::{Placed, read_counts, start_with};
use std::alloc::Global;

/// The savepoint of a stream that a text tells, or the text's first fault.
///
/// The form of each record is judged first, then the waits, and then the places of the counts in
/// their order. Of the setup only the job counts. The rows and the lengths of files aren't judged.
///
/// # Errors
///
/// The fault of the text, or out of memory.
pub fn read_stream(
    alloc: Global,
    setup: &Setup,
    bytes: &[u8],
) -> Result<StreamSave, StreamSaveFault>
    ensures ok { IfOk result (λ save.
        stream_save_of (setup_view setup.now).job bytes.now ≡ Ok save) }
    ensures fault { IfErr result (λ fault. fault ≢ StreamSaveFault.NoMemory →
        stream_save_of (setup_view setup.now).job bytes.now ≡ Err fault) }
{
    let mut records = TextRecords::of(alloc, bytes);
    let mut cells = ByteRecord::new(alloc);
    read_records(alloc, setup, &mut records, &mut cells)
}

// The savepoint by these records. `cells` holds each record in turn.
fn read_records(
    alloc: Global,
    setup: &Setup,
    records: &mut TextRecords<'_>,
    cells: &mut ByteRecord,
) -> Result<StreamSave, StreamSaveFault>
    ensures ok { IfOk result (λ save.
        stream_save_in (setup_view setup.now).job records.old ≡ Ok save) }
    ensures fault { IfErr result (λ fault. fault ≢ StreamSaveFault.NoMemory →
        stream_save_in (setup_view setup.now).job records.old ≡ Err fault) }
{
    if !records.next(cells)? {
        return Err(StreamSaveFault::Shape(0));
    }
    let Some(head) = head_of(cells) else {
        return Err(StreamSaveFault::Shape(0));
    };
    read_after(alloc, setup, &head, records, cells)
}

// The savepoint by its head and the records that are left. `cells` holds each record in turn.
fn read_after(
    alloc: Global,
    setup: &Setup,
    head: &Head,
    records: &mut TextRecords<'_>,
    cells: &mut ByteRecord,
) -> Result<StreamSave, StreamSaveFault>
    requires { head.now.turned < 2 ^ 63 }
    ensures ok { IfOk result (λ save.
        save_after (setup_view setup.now).job (Some head.now) records.old ≡ Ok save) }
    ensures fault { IfErr result (λ fault. fault ≢ StreamSaveFault.NoMemory →
        save_after (setup_view setup.now).job (Some head.now) records.old ≡ Err fault) }
{
    let waits = read_waits(alloc, head.turned, records, cells)?;
    let counts = read_counts(alloc, setup, head.turned + 1, records, cells)?;
    let start = start_at(alloc, setup, head, waits.as_slice(), counts.as_slice())?;
    Ok(StreamSave {
        start,
        read: head.read,
        waits,
        alerts: head.alerts,
        audit: head.audit,
    })
}

// Where the run goes on with this head, these waits and these counts.
fn start_at(
    alloc: Global,
    setup: &Setup,
    head: &Head,
    waits: &[u64],
    counts: &[Option<Placed>],
) -> Result<Start, StreamSaveFault>
    requires small { head.now.turned < 2 ^ 63 }
    requires named { (spelled : List Spelled) ×
        (counts.now ≡ map (placed_of (setup_view setup.now).job) spelled) }
    ensures ok { IfOk result (λ start. (spelled : List Spelled) →
        counts.now ≡ map (placed_of (setup_view setup.now).job) spelled →
        save_at (setup_view setup.now).job head.now waits.now spelled
        ≡ Ok (saved_at head.now waits.now start)) }
    ensures fault { IfErr result (λ fault. fault ≢ StreamSaveFault.NoMemory →
        (spelled : List Spelled) →
        counts.now ≡ map (placed_of (setup_view setup.now).job) spelled →
        save_at (setup_view setup.now).job head.now waits.now spelled ≡ Err fault) }
{
    if let Some(number) = misplaced(head.row, waits) {
        return Err(StreamSaveFault::Count(number));
    }
    let first = head.turned + 1;
    Ok(start_with(alloc, setup, head.row, head.turned, first, counts)?)
}
