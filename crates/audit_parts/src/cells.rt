// The cells of a record of CSV.
ghost use Rattle.std.specs.Prelude.{◌≡◌, ◌↔◌, [], IsTrue, codes, get_or, if◌then◌else◌};
ghost use Rattle.csv.specs.Records.{fields_of};
ghost use Rattle.payments.specs.Reading.{begins_with};
ghost use Rattle.sink_journal.specs.Audit.{audit_header};
ghost use Rattle.audit_parts.specs.Cut.{leads, may_end};

use csv::ByteRecord;

/// The cell of a record at a place. No bytes if there is none.
pub fn cell(cells: &ByteRecord, place: usize) -> &[u8]
    ensures { result.now ≡ get_or (fields_of cells.now) place [] }
{
    match cells.get(place) {
        Some(cell) => cell,
        None => &[],
    }
}

/// Whether the first cell of a record is this word.
pub fn begins_with(cells: &ByteRecord, word: &[u8]) -> bool
    ensures { result ≡ begins_with word.now (fields_of cells.now) }
{
    match cells.get(0) {
        Some(cell) => cell == word,
        None => false,
    }
}

/// How many records this one adds to those that begin with a word.
pub(crate) fn one_if(cells: &ByteRecord, word: &[u8]) -> u64
    ensures { result ≡ (if begins_with word.now (fields_of cells.now) then 1 else 0) }
{
    if begins_with(cells, word) { 1 } else { 0 }
}

/// Whether the record is of a refused request or of the feeder.
pub(crate) fn leads(cells: &ByteRecord) -> bool
    ensures { result ≡ leads (fields_of cells.now) }
{
    begins_with(cells, b"refused")
        || begins_with(cells, b"fed")
        || begins_with(cells, b"issued")
        || begins_with(cells, b"stopped")
}

/// Whether a part may end with the record.
pub(crate) fn may_end(cells: &ByteRecord) -> bool
    ensures { result ≡ may_end (fields_of cells.now) }
{
    begins_with(cells, b"stopped") || !leads(cells)
}

/// Whether the record is the header of an audit.
pub(crate) fn is_header(cells: &ByteRecord) -> bool
    ensures { IsTrue result ↔ (fields_of cells.now ≡ audit_header) }
{
    cells.len() == 6 && begins_as_header(cells) && ends_as_header(cells)
}

fn begins_as_header(cells: &ByteRecord) -> bool
    ensures { IsTrue result ↔ ((get_or (fields_of cells.now) 0 [] ≡ codes "entry")
        × (get_or (fields_of cells.now) 1 [] ≡ codes "node")
        × (get_or (fields_of cells.now) 2 [] ≡ codes "worker")) }
{
    is_at(cells, 0, b"entry") && is_at(cells, 1, b"node") && is_at(cells, 2, b"worker")
}

fn ends_as_header(cells: &ByteRecord) -> bool
    ensures { IsTrue result ↔ ((get_or (fields_of cells.now) 3 [] ≡ codes "lane")
        × (get_or (fields_of cells.now) 4 [] ≡ codes "number")
        × (get_or (fields_of cells.now) 5 [] ≡ codes "extra")) }
{
    is_at(cells, 3, b"lane") && is_at(cells, 4, b"number") && is_at(cells, 5, b"extra")
}

fn is_at(cells: &ByteRecord, place: usize, word: &[u8]) -> bool
    ensures { IsTrue result ↔ (get_or (fields_of cells.now) place [] ≡ word.now) }
{
    cell(cells, place) == word
}
