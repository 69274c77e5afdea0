// The first record of a stream's savepoint.
ghost use Rattle.std.specs.Prelude.{◌≡◌, ◌<◌, ◌^◌, IfSome};
ghost use Rattle.csv.specs.Records.{fields_of};
ghost use Rattle.stream_save.specs.Steps.{head_numbers, is_first_record as is_head_of};
ghost use Rattle.stream_save.specs.StreamReading.{stream_head_read as head_of_record};

use csv::ByteRecord;
use savepoint_file::{cell, head_number};
use std::marker::Model;

/// The numbers of a first record.
#[derive(Drop)]
pub(crate) struct Head {
    pub(crate) row: u64,
    pub(crate) turned: u64,
    pub(crate) read: u64,
    pub(crate) alerts: u64,
    pub(crate) audit: u64,
}

impl Model for Head {
    ghost use Rattle.stream_save.specs.StreamReading.{Head};

    ghost Value = { Head };

    ghost view = { λ h. record {
      row = h.row;
      turned = h.turned;
      read = h.read;
      alerts = h.alerts;
      audit = h.audit;
    } };
}

/// The numbers of the record, if it is a first record.
#[tactic(auto, using(crate::proofs::HeadLemmas::no_head, crate::proofs::HeadLemmas::seven_cells))]
pub(crate) fn head_of(cells: &ByteRecord) -> Option<Head>
    ensures head { result ≡ head_of_record (fields_of cells.now) }
    ensures small { IfSome result (λ head. head.turned < 2 ^ 63) }
{
    if cells.len() != 7 {
        return None;
    }
    if is_head(cell(cells, 0), cell(cells, 1)) {
        numbers_of(cells)
    } else {
        None
    }
}

fn is_head(fries: &[u8], stream: &[u8]) -> bool
    ensures { result ≡ is_head_of fries.now stream.now }
{
    fries == b"fries".as_slice() && stream == b"stream".as_slice()
}

// The numbers of a record of seven cells, which are its last five.
fn numbers_of(cells: &ByteRecord) -> Option<Head>
    ensures numbers { result ≡ head_numbers (fields_of cells.now) }
    ensures small { IfSome result (λ head. head.turned < 2 ^ 63) }
{
    Some(Head {
        row: head_number(cell(cells, 2))?,
        turned: head_number(cell(cells, 3))?,
        read: head_number(cell(cells, 4))?,
        alerts: head_number(cell(cells, 5))?,
        audit: head_number(cell(cells, 6))?,
    })
}
