ghost use Rattle.std.specs.Prelude.{◌≡◌, ◌∷◌, [], ℕ, List, false, true};
ghost use Rattle.std.specs.Prelude.{IfOk, IfNone, IfSome, is_err, option_map};
ghost use Rattle.csv.specs.Reading.{default_config, records as records_of, strip_bom};
ghost use Rattle.csv.specs.Records.{fields_of};
ghost use Rattle.audit_parts.specs.Ahead.{is_fault, is_read};
ghost use Rattle.audit_parts.specs.Cut.{parts_of};
ghost use Rattle.audit_parts.specs.inner.Fields.{HaveFields};

use crate::AuditPart;
use crate::filling::{begin, fill};
use csv::ByteRecord;
use payments::TextRecords;
use std::alloc::Global;
use tuple_trace::NoMemory;

/// What a reader of parts has before it.
#[derive(Clone, Copy)]
pub(crate) enum Ahead {
    /// The first record of a part, which was read.
    Record,
    /// No record.
    End,
    /// Nothing that is known: a call ran out of memory.
    Fault,
}

/// The parts of the audit of a stream that are still to be read.
///
/// A part's text is written anew, since it begins with the header. So a reader needs memory for one
/// part at a time. The bytes are read once.
#[derive(Drop)]
pub struct AuditParts<'a> {
    alloc: Global,
    records: TextRecords<'a>,
    /// The record that was read last.
    cells: ByteRecord,
    ahead: Ahead,
    ghost fielded: { HaveFields (is_read ahead) (fields_of cells) records },
}

impl<'a> AuditParts<'a> {
    ghost use Rattle.audit_parts.specs.Reading.{has_failed, parts_left};
    ghost use Rattle.audit_parts.specs.Texts.{IsReadAs, IsTextOf};

    /// The parts of the audit of these bytes. `None` if its first record isn't the header, or if
    /// there is no record.
    ///
    /// # Errors
    ///
    /// Only out of memory.
    pub fn of(alloc: Global, bytes: &'a [u8]) -> Result<Option<Self>, NoMemory>
        ensures parts { IfOk result (λ found. option_map parts_left found
            ≡ parts_of (records_of default_config (strip_bom bytes.now))) }
        ensures sound { IfOk result (λ found. IfSome found (λ parts. has_failed parts ≡ false)) }
    {
        let mut records = TextRecords::of(alloc, bytes);
        let mut cells = ByteRecord::new(alloc);
        match begin(&mut records, &mut cells)? {
            Some(more) => Ok(Some(AuditParts {
                alloc,
                records,
                cells,
                ahead: ahead_of(more),
            })),
            None => Ok(None),
        }
    }

    /// The next part. `None` if there is none left.
    ///
    /// # Errors
    ///
    /// Only out of memory. Each later call then returns this error too.
    pub fn next_part(&mut self) -> Result<Option<AuditPart>, NoMemory>
        ensures part { IfOk result (λ given. IfSome given (λ part.
            (records : List (List (List ℕ))) × (parts_left self.old ≡ records ∷ parts_left self.new)
            × IsTextOf part records × IsReadAs part.text records)) }
        ensures none { IfOk result (λ given. IfNone given
            ((parts_left self.old ≡ []) × (parts_left self.new ≡ []))) }
        ensures failed { has_failed self.new ≡ is_err result }
        ensures fails { has_failed self.old ≡ true → has_failed self.new ≡ true }
    {
        match self.ahead {
            Ahead::Fault => Err(NoMemory),
            Ahead::End => Ok(None),
            Ahead::Record => {
                self.ahead = Ahead::Fault;
                let mut part = AuditPart::begin(self.alloc)?;
                let more = fill(&mut self.records, &mut self.cells, &mut part)?;
                self.ahead = ahead_of(more);
                Ok(Some(part))
            }
        }
    }
}

fn ahead_of(more: bool) -> Ahead
    ensures read { is_read result ≡ more }
    ensures fault { is_fault result ≡ false }
{
    if more { Ahead::Record } else { Ahead::End }
}
