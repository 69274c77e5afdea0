ghost use Rattle.std.specs.Prelude.{◌≡◌, [], IfOk, string_bytes};

use crate::{Items, NoMemory};
use std::alloc::Global;
use std::marker::Model;
use std::sync::ArcSlice;

/// The bytes of a file.
pub type Bytes = Items<u8>;

/// A text of a job or a payment: any bytes. Contracts see the list of its bytes.
///
/// A short text lies in the value itself. A longer one doesn't change once it is made, so all
/// copies of it share one piece of memory.
#[derive(Clone, Debug, Drop)]
pub struct Txt {
    place: Place,
}

/// Where the bytes of a text lie.
#[derive(Clone, Debug, Drop)]
enum Place {
    Here { count: u8, bytes: [u8; 14] },
    There(ArcSlice<u8>),
}

impl Model for Txt {
    ghost use Rattle.std.specs.Prelude.{List, ℕ};
    ghost use Rattle.tuple_trace.specs.Short.{bytes_of};

    ghost Value = { List ℕ };

    ghost view = { λ a. bytes_of a.place };
}

impl Txt {
    /// The empty text. Takes no memory.
    pub fn new(_alloc: Global) -> Self
        ensures { result ≡ [] }
    {
        Txt {
            place: Place::Here {
                count: 0,
                bytes: [0; 14],
            },
        }
    }

    /// A text of these bytes.
    pub fn from_slice(alloc: Global, text: &[u8]) -> Result<Self, NoMemory>
        ensures { IfOk result (λ made. made ≡ text.now) }
    {
        if text.len() > 14 {
            let place = Place::There(ArcSlice::from_slice(alloc, text)?);
            return Ok(Txt { place });
        }
        let mut bytes = [0u8; 14];
        bytes[..text.len()].copy_from_slice(text);
        let place = Place::Here {
            count: text.len() as u8,
            bytes,
        };
        Ok(Txt { place })
    }

    /// All bytes in order.
    pub fn as_slice(&self) -> &[u8]
        ensures { result.now ≡ self.now }
    {
        match &self.place {
            Place::Here { count, bytes } => match bytes.get(..*count as usize) {
                Some(text) => text,
                None => bytes,
            },
            Place::There(text) => text.as_slice(),
        }
    }

    /// An equal text.
    pub fn copy(&self) -> Result<Txt, NoMemory>
        ensures { IfOk result (λ copy. copy ≡ self.now) }
    {
        Ok(self.clone()?)
    }
}

/// A word of a command line, or the name of a file: a text in UTF-8. Contracts see the list of its
/// bytes.
#[derive(Clone, Debug, Drop)]
pub struct Word {
    text: String,
}

impl Model for Word {
    ghost use Rattle.std.specs.Prelude.{List, ℕ, string_bytes};

    ghost Value = { List ℕ };

    ghost view = { λ a. string_bytes a.text };
}

impl Word {
    /// The word that a string holds. Takes no memory.
    pub fn from_string(text: String) -> Self
        ensures { result ≡ string_bytes text }
    {
        Word { text }
    }

    /// The word as a string.
    pub fn as_str(&self) -> &str
        ensures { result.now ≡ self.now }
    {
        self.text.as_str()
    }

    /// An equal word.
    pub fn copy(&self) -> Result<Word, NoMemory>
        ensures { IfOk result (λ copy. copy ≡ self.now) }
    {
        Ok(self.clone()?)
    }
}
