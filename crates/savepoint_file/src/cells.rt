ghost use Rattle.std.specs.Prelude.{◌≡◌, ◌++◌, ◌∷◌, [], OnOk, IfSome};
ghost use Rattle.csv.specs.Records.{fields_of};

use csv::ByteRecord;
use std::alloc::Global;
use std::fmt::{Display, Write};
use std::marker::Model;
use tuple_trace::NoMemory;

/// The cells of one record, in memory that the next record uses again. Contracts see their texts.
///
/// What a refused push leaves is open: [`Cells::clear`] makes a new start.
#[derive(Drop)]
pub struct Cells {
    raw: ByteRecord,
    digits: String,
}

impl Model for Cells {
    ghost use Rattle.std.specs.Prelude.{◌≡◌, [], List, ℕ};
    ghost use Rattle.csv.specs.Records.{fields_of, partial_of};

    ghost Value = { List (List ℕ) };

    ghost view = { λ a. fields_of a.raw };

    ghost invariant = { λ a. partial_of a.raw ≡ [] };
}

impl Cells {
    /// No cells. Takes no memory.
    pub fn new(alloc: Global) -> Self
        ensures { result ≡ [] }
    {
        Cells {
            raw: ByteRecord::new(alloc),
            digits: String::new(alloc),
        }
    }

    /// Drops all cells. Their memory is kept for the next ones.
    pub fn clear(&mut self)
        ensures { self.new ≡ [] }
    {
        self.raw.clear();
    }

    pub(crate) fn as_record(&self) -> &ByteRecord
        ensures { fields_of result.now ≡ self.now }
    {
        &self.raw
    }

    /// Appends a cell with this text.
    ///
    /// # Errors
    ///
    /// Only out of memory.
    pub fn push(&mut self, text: &[u8]) -> Result<(), NoMemory>
        ensures { OnOk result (self.new ≡ self.old ++ text.now ∷ []) }
    {
        if self.raw.push_field(text).is_err() {
            self.raw.clear();
            return Err(NoMemory);
        }
        Ok(())
    }

    /// Appends a cell with what `{}` prints of a value.
    ///
    /// # Errors
    ///
    /// Only out of memory.
    pub fn push_printed<D: Display + Copy>(&mut self, value: D) -> Result<(), NoMemory>
        ensures { OnOk result (IfSome (D.output value) (λ text. self.new ≡ self.old ++ text ∷ [])) }
    {
        self.digits.clear();
        write!(self.digits, "{value}")?;
        if self.raw.push_field(self.digits.as_bytes()).is_err() {
            self.raw.clear();
            return Err(NoMemory);
        }
        Ok(())
    }
}
