// The cells of a record of CSV.
ghost use Rattle.std.specs.Prelude.{◌≡◌, ◌≢◌, ◌∷◌, [], IfNone, IfSome, get_or};
ghost use Rattle.std.specs.Prelude.{length};
ghost use Rattle.csv.specs.Records.{fields_of};

use csv::ByteRecord;

/// The cells of a record of four.
#[derive(Clone, Copy)]
pub(crate) struct Four<'c> {
    pub(crate) first: &'c [u8],
    pub(crate) second: &'c [u8],
    pub(crate) third: &'c [u8],
    pub(crate) fourth: &'c [u8],
}

/// The cells of a record, if they are four.
#[tactic(auto, using(crate::proofs::CellLemmas::four_cells))]
pub(crate) fn four_of(cells: &ByteRecord) -> Option<Four<'_>>
    ensures some { IfSome result (λ four. fields_of cells.now
        ≡ four.first.now ∷ four.second.now ∷ four.third.now ∷ four.fourth.now ∷ []) }
    ensures none { IfNone result (length (fields_of cells.now) ≢ 4) }
{
    if cells.len() != 4 {
        return None;
    }
    Some(Four {
        first: cell(cells, 0),
        second: cell(cells, 1),
        third: cell(cells, 2),
        fourth: cell(cells, 3),
    })
}

/// The cell at this place, from 0. It is empty if there are fewer.
pub fn cell(cells: &ByteRecord, place: usize) -> &[u8]
    ensures { result.now ≡ get_or (fields_of cells.now) place [] }
{
    match cells.get(place) {
        Some(cell) => cell,
        None => &[],
    }
}
