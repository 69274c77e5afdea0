ghost use Rattle.std.specs.Prelude.{◌≡◌, ◌++◌, [], IfOk, OnErr, OnOk};
ghost use Rattle.std.specs.List.{concat};

use std::alloc::Global;
use std::marker::Model;
use tuple_trace::{Bytes, NoMemory};

/// A text in parts, one behind another. Contracts see the whole text.
#[derive(Drop)]
pub struct Text {
    parts: Vec<Bytes>,
}

impl Model for Text {
    ghost use Rattle.std.specs.Prelude.{List, ℕ};
    ghost use Rattle.std.specs.List.{concat};

    ghost Value = { List ℕ };

    ghost view = { λ a. concat a.parts.items };
}

impl Text {
    /// The empty text. Takes no memory.
    pub(crate) fn new(alloc: Global) -> Self
        ensures { result ≡ [] }
    {
        Text {
            parts: Vec::new(alloc),
        }
    }

    /// A text in one part.
    pub fn from_bytes(alloc: Global, text: Bytes) -> Result<Self, NoMemory>
        ensures { IfOk result (λ made. made ≡ text) }
    {
        Ok(Text {
            parts: Vec::from_array(alloc, [text])?,
        })
    }

    /// All parts in order.
    pub fn parts(&self) -> &[Bytes]
        ensures { concat result.now ≡ self.now }
    {
        self.parts.as_slice()
    }

    /// Puts a part behind the others. After [`NoMemory`] the text is as before, and the part is
    /// given up.
    pub(crate) fn push(&mut self, part: Bytes) -> Result<(), NoMemory>
        ensures ok { OnOk result (self.new ≡ self.old ++ part) }
        ensures err { OnErr result (self.new ≡ self.old) }
    {
        self.parts.push(part)?;
        Ok(())
    }

    /// Puts the parts of another text behind the others. After [`NoMemory`] the text is as before,
    /// and the other is given up.
    pub(crate) fn append(&mut self, more: Text) -> Result<(), NoMemory>
        ensures ok { OnOk result (self.new ≡ self.old ++ more) }
        ensures err { OnErr result (self.new ≡ self.old) }
    {
        let Text { mut parts } = more;
        self.parts.append(&mut parts)?;
        Ok(())
    }
}
