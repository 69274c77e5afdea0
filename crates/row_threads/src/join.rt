ghost use Rattle.std.specs.Prelude.{◌≡◌, ◌++◌, ◌+◌, ◌<◌, IfSome, OnOk, IsTrue, length, true};
ghost use Rattle.std.specs.List.{flat_map, list_all};
ghost use Rattle.stream_rows.specs.Rows.{numbered};
ghost use Rattle.row_threads.specs.inner.Joined.{first_of, is_sound, numbered_from, rows_in};

use std::alloc::Global;
use stream_rows::SoundRows;
use tuple_trace::{Births, Items, NoMemory, Row, Rows, Tuple, Visits};

/// Whether the first of these reads found rows.
pub(crate) fn has_first(reads: &[Result<SoundRows, NoMemory>]) -> bool
    ensures { IsTrue result → 0 < length (first_of reads.now) }
{
    match reads.first() {
        Some(Ok(sound)) => !sound.rows.is_empty(),
        Some(Err(_)) => false,
        None => false,
    }
}

/// The rows of all reads in order, numbered from 1. `None` if a read found a fault, and if there is
/// no memory.
pub(crate) fn joined(alloc: Global, reads: Vec<Result<SoundRows, NoMemory>>) -> Option<Rows>
    ensures sound { IfSome result (λ rows. list_all is_sound reads.items ≡ true) }
    ensures rows { IfSome result (λ rows. rows
        ≡ numbered_from 1 (flat_map rows_in reads.items)) }
{
    let mut rows = Rows::new(alloc);
    for read in reads {
        let more = sound_rows(read)?;
        push_all(alloc, &mut rows, more).ok()?;
    }
    Some(rows)
}

// The rows of a read without a fault.
fn sound_rows(read: Result<SoundRows, NoMemory>) -> Option<Items<Row>>
    ensures { IfSome result (λ rows. (is_sound read ≡ true) × (rows ≡ rows_in read)) }
{
    let sound = read.ok()?;
    if sound.fault.is_some() {
        return None;
    }
    let SoundRows { rows, fault: _ } = sound;
    Some(rows)
}

// Appends rows, numbered on.
fn push_all(alloc: Global, rows: &mut Rows, more: Items<Row>) -> Result<(), NoMemory>
    ensures { OnOk result (rows.new ≡ rows.old ++ numbered_from (length rows.old + 1) more) }
{
    for row in more {
        let number = (rows.len() as u64).checked_add(1).ok_or(NoMemory)?;
        rows.push(with_number(alloc, row, number))?;
    }
    Ok(())
}

// The row as it is read with this number.
fn with_number(alloc: Global, row: Row, number: u64) -> Row
    ensures { result ≡ numbered number row }
{
    let Row { source, tuple } = row;
    let Tuple {
        row: _,
        birth: _,
        issued: _,
        fields,
        trace: _,
    } = tuple;
    let tuple = Tuple {
        row: number,
        birth: Births::new(alloc),
        issued: 0,
        fields,
        trace: Visits::new(alloc),
    };
    Row { source, tuple }
}
