ghost use Rattle.std.specs.Prelude.{◌≡◌, ◌++◌, [], OnOk, OnErr, IfOk};
ghost use Rattle.csv.specs.Writing.{default_writer, row_text};

use crate::cells::Cells;
use csv::{Writer, WriterBuilder};
use std::alloc::Global;
use std::marker::Model;
use tuple_trace::{Bytes, NoMemory};

/// A text of CSV records of any lengths. Contracts see the bytes of the records that were written.
#[derive(Drop)]
pub(crate) struct Sheet {
    alloc: Global,
    writer: Writer<Vec<u8>>,
}

impl Model for Sheet {
    ghost use Rattle.std.specs.Prelude.{◌≡◌, ◌++◌, false, true, List, ℕ};
    ghost use Rattle.csv.specs.Writing.{default_writer, writer_under, writer_pending, writer_setup};
    ghost use Rattle.csv.specs.Writing.{fields_written, has_written, with_flexible};

    ghost Value = { List ℕ };

    ghost view = { λ a. (writer_under a.writer).items ++ writer_pending a.writer };

    ghost invariant = { λ a. (writer_setup a.writer ≡ with_flexible default_writer true)
        × (fields_written a.writer ≡ 0) × (has_written a.writer ≡ false) };
}

impl Sheet {
    /// A text of no records. Takes no memory.
    pub(crate) fn new(alloc: Global) -> Self
        ensures { result ≡ [] }
    {
        Sheet {
            alloc,
            writer: WriterBuilder::new()
                .flexible(true)
                .from_writer(Vec::new(alloc)),
        }
    }

    /// Appends a record of these cells. After [`NoMemory`] the sheet has no records.
    #[tactic(auto, using(crate::proofs::SheetLemmas::row_same))]
    pub(crate) fn write(&mut self, cells: &Cells) -> Result<(), NoMemory>
        ensures ok { OnOk result (self.new ≡ self.old ++ row_text default_writer cells.now) }
        ensures err { OnErr result (self.new ≡ []) }
    {
        if self.writer.write_byte_record(cells.as_record()).is_err() {
            *self = Sheet::new(self.alloc);
            return Err(NoMemory);
        }
        Ok(())
    }

    /// The whole text.
    pub(crate) fn finish(self) -> Result<Bytes, NoMemory>
        ensures { IfOk result (λ bytes. bytes ≡ self) }
    {
        match self.writer.into_inner() {
            Ok(bytes) => Ok(Bytes::from_vec(bytes)),
            Err(_) => Err(NoMemory),
        }
    }
}
