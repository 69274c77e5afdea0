ghost use Rattle.std.specs.Prelude.{◌≡◌, ◌<◌, ◌^◌, ◌-◌, ◌++◌, ◌∷◌, [], ℕ, List, IfOk, OnOk, length};
ghost use Rattle.csv.specs.Records.{fields_of};

use crate::cells::one_if;
use crate::writing::write_record;
use csv::ByteRecord;
use sink_journal::audit_header_text;
use std::alloc::Global;
use tuple_trace::{Bytes, NoMemory};

/// One part of the audit of a stream, as an audit of its own.
#[derive(Drop)]
pub struct AuditPart {
    /// The header and the part's records, as they are written.
    pub text: Bytes,
    /// How many records the part has, without the header.
    pub records: u64,
    /// How many of them are of refused requests, by their first field.
    pub refused: u64,
    /// How many are of rows that were fed.
    pub fed: u64,
    /// How many are of requests that were issued.
    pub issued: u64,
}

impl AuditPart {
    ghost use Rattle.audit_parts.specs.Texts.{IsTextOf};

    /// The header alone.
    pub(crate) fn begin(alloc: Global) -> Result<AuditPart, NoMemory>
        ensures { IfOk result (λ part. IsTextOf part []) }
    {
        Ok(AuditPart {
            text: audit_header_text(alloc)?,
            records: 0,
            refused: 0,
            fed: 0,
            issued: 0,
        })
    }

    /// Appends a record, and counts it.
    pub(crate) fn add(&mut self, cells: &ByteRecord) -> Result<(), NoMemory>
        requires { (records : List (List (List ℕ))) × IsTextOf self.old records
            × (length records < 2 ^ 64 - 1) }
        ensures { OnOk result ((records : List (List (List ℕ))) → IsTextOf self.old records
            → IsTextOf self.new (records ++ fields_of cells.now ∷ [])) }
    {
        write_record(&mut self.text, cells)?;
        self.records += 1;
        self.refused += one_if(cells, b"refused");
        self.fed += one_if(cells, b"fed");
        self.issued += one_if(cells, b"issued");
        Ok(())
    }
}
