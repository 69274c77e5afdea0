ghost use Rattle.std.specs.Prelude.{◌≡◌, ◌++◌, OnOk, length, map};
ghost use Rattle.fries_lines.specs.Lines.{noted as noted_as};

use fries_lines::noted;
use input_pieces::Pieces;
use std::alloc::Global;
use stream_intake::Known;
use stream_rows::RowReader;
use stream_run::Books;
use tuple_trace::{Bytes, NoMemory};
use versions::Refusals;

/// What is kept of what a stream reads, beside the stream itself.
#[derive(Drop)]
pub struct StreamInputs {
    /// What was read of the input and isn't a whole record yet.
    pub pieces: Pieces,
    pub reader: RowReader,
    /// The requests that were read.
    pub known: Known,
    /// The bytes of their file when they were last looked at.
    pub seen: Bytes,
    /// The requests that were refused since the call began.
    pub refused: Refusals,
    pub books: Books,
}

impl StreamInputs {
    /// Notes requests that were refused, for the lines at the end and for the next part's audit.
    /// The one error is out of memory.
    pub(crate) fn note(&mut self, alloc: Global, refused: &Refusals) -> Result<(), NoMemory>
        ensures refused { OnOk result (self.new.refused ≡ self.old.refused ++ refused.now) }
        ensures noted { OnOk result (self.new.books.refused.items
            ≡ self.old.books.refused.items ++ map noted_as refused.now) }
        ensures read { OnOk result (self.new.books.read ≡ length self.old.known.requests) }
        ensures known { self.new.known ≡ self.old.known }
        ensures pieces { self.new.pieces ≡ self.old.pieces }
        ensures reader { self.new.reader ≡ self.old.reader }
        ensures tally { self.new.books.tally ≡ self.old.books.tally }
    {
        let mut noted = noted(alloc, refused.as_slice())?;
        self.books.refused.append(&mut noted)?;
        self.refused.extend_from_slice(refused.as_slice())?;
        self.books.read = self.known.requests.len() as u64;
        Ok(())
    }
}
