// The records of a text.
use csv::{ByteRecord, Reader, ReaderBuilder};
use input_pieces::PieceFault;
use std::alloc::Global;

/// The records of a text, one after another.
#[derive(Drop)]
pub struct Records<'a> {
    reader: Reader<&'a [u8]>,
    cells: ByteRecord,
}

impl<'a> Records<'a> {
    /// Nothing is read yet. No line is a header, and lengths may differ.
    pub fn new(alloc: Global, text: &'a [u8]) -> Self {
        let mut builder = ReaderBuilder::new();
        builder.has_headers(false).flexible(true);
        Records {
            reader: builder.from_reader(alloc, text),
            cells: ByteRecord::new(alloc),
        }
    }

    /// Reads the next record, and returns whether there is one.
    ///
    /// # Errors
    ///
    /// Out of memory. A slice refuses no read, and a flexible reader refuses no record.
    pub fn next(&mut self) -> Result<bool, PieceFault> {
        match self.reader.read_byte_record(&mut self.cells) {
            Ok(found) => Ok(found),
            Err(_) => Err(PieceFault::NoMemory),
        }
    }

    /// Whether the records that were read last have the same fields.
    pub fn agrees(&self, other: &Records<'_>) -> bool {
        self.cells == other.cells
    }
}
