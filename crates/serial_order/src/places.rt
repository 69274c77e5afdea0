// The numbers of rows, by the rows that a journal meets.
ghost use Rattle.std.specs.Prelude.{◌≡◌, ◌==◌, ◌∷◌, []};
ghost use Rattle.flow_model.specs.Whole.{after_turn, is_turn as is_turn_of, meets_row};
ghost use Rattle.serial_order.specs.Places.{rows_numbered, row_met};

use crate::Serial;
use sink_journal::Entry;

/// Gives the rows that a journal meets after its turn of a request the request's number.
///
/// The first number is that of row 1. A row without a number is passed over.
pub(crate) fn number_after_turn(journal: &[Entry], request: u64, numbers: &mut Serial)
    ensures { numbers.new ≡
        rows_numbered (λ row. meets_row row (after_turn request journal.now))
        request 1 numbers.old }
{
    let mut turned = false;
    for entry in journal {
        if turned {
            number_met(entry, request, numbers);
        }
        turned |= is_turn(entry, request);
    }
}

fn number_met(entry: &Entry, request: u64, numbers: &mut Serial)
    ensures { numbers.new
        ≡ rows_numbered (λ row. meets_row row (entry.now ∷ [])) request 1 numbers.old }
{
    if let Some(row) = met_row(entry) {
        number_row(row, request, numbers);
    }
}

fn met_row(entry: &Entry) -> Option<u64>
    ensures { result ≡ row_met entry.now }
{
    match entry {
        Entry::Met { tuple, .. } => Some(tuple.row),
        Entry::Marked { .. } | Entry::Turned { .. } | Entry::Ended { .. } => None,
    }
}

fn number_row(row: u64, request: u64, numbers: &mut Serial)
    ensures { numbers.new ≡ rows_numbered (λ other. row == other) request 1 numbers.old }
{
    let Some(place) = row.checked_sub(1) else {
        return;
    };
    if place < numbers.len() as u64 {
        numbers.set(place as usize, request);
    }
}

fn is_turn(entry: &Entry, request: u64) -> bool
    ensures { result ≡ is_turn_of request entry.now }
{
    matches!(entry, Entry::Turned { request: turned } if *turned == request)
}
