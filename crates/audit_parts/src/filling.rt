// The records of an audit, read part by part.
ghost use Rattle.std.specs.Prelude.{◌≡◌, ◌∷◌, [], ℕ, List, All, IfOk, IfSome, option_map};
ghost use Rattle.csv.specs.Records.{fields_of};
ghost use Rattle.audit_parts.specs.Ahead.{parts_from};
ghost use Rattle.audit_parts.specs.Cut.{cut_parts, parts_of};
ghost use Rattle.audit_parts.specs.Texts.{IsReadAs, IsTextOf};
ghost use Rattle.audit_parts.specs.inner.Fields.{HasField, HaveFields};

use crate::AuditPart;
use crate::cells::{is_header, leads, may_end};
use csv::ByteRecord;
use payments::TextRecords;
use tuple_trace::NoMemory;

// Reads the header, and the record after it. Returns `None` if the first record isn't the header,
// and else whether there is a record after it, which `cells` then holds.
pub(crate) fn begin(
    records: &mut TextRecords<'_>,
    cells: &mut ByteRecord,
) -> Result<Option<bool>, NoMemory>
    ensures parts { IfOk result (λ found. parts_of records.old
        ≡ option_map (λ more. parts_from more (fields_of cells.new) records.new) found) }
    ensures fields { All HasField records.old → IfOk result (λ found. IfSome found (λ more.
        HaveFields more (fields_of cells.new) records.new)) }
{
    if !records.next(cells)? {
        return Ok(None);
    }
    if !is_header(cells) {
        return Ok(None);
    }
    Ok(Some(records.next(cells)?))
}

// Appends the records of a part, of which `cells` holds the first. Returns whether it is followed
// by another part, whose first record `cells` then holds.
pub(crate) fn fill(
    records: &mut TextRecords<'_>,
    cells: &mut ByteRecord,
    part: &mut AuditPart,
) -> Result<bool, NoMemory>
    requires empty { IsTextOf part.old [] }
    requires fields { All HasField (fields_of cells.old ∷ records.old) }
    ensures part { IfOk result (λ more. (own : List (List (List ℕ))) × IsTextOf part.new own
        × IsReadAs part.new.text own × (cut_parts (fields_of cells.old ∷ records.old)
        ≡ own ∷ parts_from more (fields_of cells.new) records.new)) }
    ensures fields { IfOk result (λ more.
        HaveFields more (fields_of cells.new) records.new) }
{
    for _ in 0..u64::MAX {
        let ends = may_end(cells);
        part.add(cells)?;
        if !records.next(cells)? {
            return Ok(false);
        }
        if ends && leads(cells) {
            return Ok(true);
        }
    }
    Err(NoMemory)
}
