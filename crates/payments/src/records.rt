ghost use Rattle.std.specs.Prelude.{◌≡◌, ◌∷◌, [], IfOk, MatchBool};
ghost use Rattle.csv.specs.Reading.{default_config, records, strip_bom};
ghost use Rattle.csv.specs.Records.{fields_of};

use csv::{ByteRecord, Reader, ReaderBuilder};
use std::alloc::Global;
use std::marker::Model;
use tuple_trace::NoMemory;

/// The records of a text of CSV that are still to be read. A record may have any number of fields.
#[derive(Drop)]
pub struct TextRecords<'a> {
    reader: Reader<&'a [u8]>,
}

impl<'a> Model for TextRecords<'a> {
    ghost use Rattle.std.specs.Prelude.{List, ℕ};
    ghost use Rattle.payments.specs.Records.{AreUnread, unread_of};

    ghost Value = { List (List (List ℕ)) };

    ghost view = { λ a. unread_of a.reader };

    ghost invariant = { λ a. AreUnread a.reader };
}

impl<'a> TextRecords<'a> {
    /// All records of a text. A byte order mark at its start is no part of them.
    pub fn of(alloc: Global, text: &'a [u8]) -> Self
        ensures { result ≡ records default_config (strip_bom text.now) }
    {
        TextRecords {
            reader: ReaderBuilder::new()
                .has_headers(false)
                .flexible(true)
                .from_reader(alloc, text),
        }
    }

    /// Reads the next record into `cells`, and says whether there was one.
    ///
    /// # Errors
    ///
    /// Only out of memory.
    pub fn next(&mut self, cells: &mut ByteRecord) -> Result<bool, NoMemory>
        ensures { IfOk result (λ found.
            MatchBool found (self.old ≡ fields_of cells.new ∷ self.new) (self.old ≡ [])) }
    {
        self.reader.read_byte_record(cells).map_err(|_| NoMemory)
    }
}
