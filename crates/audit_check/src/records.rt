// The cells of a record of CSV.
ghost use Rattle.std.specs.Prelude.{◌≡◌, ◌≢◌, ◌∷◌, [], IfNone, IfOk, IfSome, MatchBool, get_or};
ghost use Rattle.std.specs.Prelude.{length};
ghost use Rattle.csv.specs.Records.{fields_of};
ghost use Rattle.audit_check.specs.Cells.{cells_of};

use csv::ByteRecord;

/// The cells of a record of six.
#[derive(Clone, Copy)]
pub(crate) struct Six<'c> {
    pub(crate) entry: &'c [u8],
    pub(crate) node: &'c [u8],
    pub(crate) worker: &'c [u8],
    pub(crate) lane: &'c [u8],
    pub(crate) number: &'c [u8],
    pub(crate) extra: &'c [u8],
}

/// The cells of a record, if they are six.
#[tactic(auto, using(sink_journal::proofs::CellLemmas::six_cells))]
pub(crate) fn six_of(cells: &ByteRecord) -> Option<Six<'_>>
    ensures some { IfSome result (λ six. fields_of cells.now ≡ cells_of six) }
    ensures none { IfNone result (length (fields_of cells.now) ≢ 6) }
{
    if cells.len() != 6 {
        return None;
    }
    Some(Six {
        entry: cell(cells, 0),
        node: cell(cells, 1),
        worker: cell(cells, 2),
        lane: cell(cells, 3),
        number: cell(cells, 4),
        extra: cell(cells, 5),
    })
}

fn cell(cells: &ByteRecord, place: usize) -> &[u8]
    ensures { result.now ≡ get_or (fields_of cells.now) place [] }
{
    match cells.get(place) {
        Some(cell) => cell,
        None => &[],
    }
}
