// The records of pieces, beside those of the whole text.
use crate::records::Records;
use input_pieces::{PieceFault, Pieces, Tap};
use std::alloc::Global;

/// What a comparison found.
#[derive(Clone, Copy)]
pub struct Found {
    pub pieces: u64,
    /// How many records agree, up to the first that doesn't.
    pub records: u64,
    /// Whether the pieces join to the text, and have its records and no others.
    pub agrees: bool,
}

/// Reads the pieces of a tap of this text, and compares their records with the text's, up to the
/// first that differs.
///
/// # Errors
///
/// The error of a call for a piece, or out of memory.
pub fn compare<T: Tap>(alloc: Global, text: &[u8], tap: &mut T) -> Result<Found, PieceFault> {
    let mut comparison = Comparison {
        alloc,
        left: text,
        whole: Records::new(alloc, text),
        found: Found {
            pieces: 0,
            records: 0,
            agrees: true,
        },
    };
    let done = compare_all(&mut Pieces::new(alloc), tap, &mut comparison);
    let found = comparison.found;
    done.map(|()| found)
}

// Goes on while the records agree and pieces come.
fn compare_all<T: Tap>(
    pieces: &mut Pieces,
    tap: &mut T,
    comparison: &mut Comparison<'_>,
) -> Result<(), PieceFault> {
    for _ in 0..u64::MAX {
        match pieces.next_piece(tap)? {
            Some(piece) => comparison.add(piece.as_slice())?,
            None => return comparison.end(),
        }
        if !comparison.found.agrees {
            break;
        }
    }
    Ok(())
}

// A comparison that is under way.
#[derive(Drop)]
struct Comparison<'a> {
    alloc: Global,
    // What is left of the text after the pieces.
    left: &'a [u8],
    whole: Records<'a>,
    found: Found,
}

impl<'a> Comparison<'a> {
    // Compares a piece with the text, and its records with the text's next ones.
    fn add(&mut self, piece: &[u8]) -> Result<(), PieceFault> {
        self.found.pieces = self.found.pieces.saturating_add(1);
        match self.left.strip_prefix(piece) {
            Some(left) => self.left = left,
            None => self.found.agrees = false,
        }
        self.add_records(&mut Records::new(self.alloc, piece))
    }

    fn add_records(&mut self, piece: &mut Records<'_>) -> Result<(), PieceFault> {
        for _ in 0..u64::MAX {
            if !self.found.agrees || !piece.next()? {
                break;
            }
            if self.whole.next()? && self.whole.agrees(piece) {
                self.found.records = self.found.records.saturating_add(1);
            } else {
                self.found.agrees = false;
            }
        }
        Ok(())
    }

    // After the last piece nothing may be left, neither bytes nor a record.
    fn end(&mut self) -> Result<(), PieceFault> {
        let more = self.whole.next()?;
        self.found.agrees = !more && self.left.is_empty();
        Ok(())
    }
}
