ghost use Rattle.std.specs.Prelude.{◌≡◌, ◌≢◌, ◌≤◌, ◌<◌, None, Some, Ok, true, false};
ghost use Rattle.std.specs.Prelude.{length, take, IfOk, IfSome, OnErr, OnOk};
ghost use Rattle.payments.specs.Causes.{WriteCause};
ghost use Rattle.payments.specs.Files.{told_bytes, with_more};
ghost use Rattle.payments.specs.Growing.{GrowsByProperPrefix, with_cut, with_text};

use crate::{Shelf, ShelfFault};
use tuple_trace::Word;

/// Files that also grow in their places, and are cut there.
///
/// These calls have no draft: a file is at once as they leave it. They are called while there is no
/// draft, since a draft that is kept later would forget what they wrote. A file that isn't there is
/// taken as an empty one.
pub trait GrowingShelf: Shelf {
    /// Appends the first bytes of a piece to a file, at least one, and returns how many. A name
    /// without a file begins one.
    fn extend(&mut self, name: &Word, piece: &[u8]) -> Result<u64, ShelfFault>
        requires closed { (Self.state self.old).draft ≡ None }
        requires some { 0 < length piece.now }
        ensures count { IfOk result (λ n. (0 < n) × (n ≤ length piece.now)) }
        ensures more { IfOk result (λ n. (Self.state self.new).files
            ≡ with_more (Self.state self.old).files name.now (take n piece.now)) }
        ensures as_before { OnErr result
            ((Self.state self.new).files ≡ (Self.state self.old).files) }
        ensures closed { (Self.state self.new).draft ≡ None }
        ensures cause { WriteCause result (Some name.now)
            (Self.state self.old).faults (Self.state self.new).faults };

    /// Cuts a file to its first `size` bytes, and makes it if it isn't there. Returns false if the
    /// file is shorter. It stays as it is then.
    fn cut(&mut self, name: &Word, size: u64) -> Result<bool, ShelfFault>
        requires closed { (Self.state self.old).draft ≡ None }
        ensures cut { result ≡ Ok true → (Self.state self.new).files
            ≡ with_cut (Self.state self.old).files name.now size }
        ensures enough { result ≡ Ok true →
            IfSome (told_bytes (Self.state self.old).files name.now) (λ told. size ≤ length told) }
        ensures short { result ≡ Ok false →
            IfSome (told_bytes (Self.state self.old).files name.now) (λ told. length told < size) }
        ensures as_before { result ≢ Ok true →
            (Self.state self.new).files ≡ (Self.state self.old).files }
        ensures closed { (Self.state self.new).draft ≡ None }
        ensures cause { WriteCause result (Some name.now)
            (Self.state self.old).faults (Self.state self.new).faults };
}

/// Appends a text to a file. Each call hands in all that is left of it; an empty text makes none.
///
/// After an error the file has gained a prefix of the text, which isn't all of it. No other file
/// changes.
pub fn extend_all<S: GrowingShelf>(
    shelf: &mut S,
    name: &Word,
    text: &[u8],
) -> Result<(), ShelfFault>
    requires closed { (S.state shelf.old).draft ≡ None }
    ensures whole { OnOk result ((S.state shelf.new).files
        ≡ with_text (S.state shelf.old).files name.now text.now) }
    ensures stopped { OnErr result (GrowsByProperPrefix
        (S.state shelf.old).files (S.state shelf.new).files name.now text.now) }
    ensures closed { (S.state shelf.new).draft ≡ None }
    ensures cause { WriteCause result (Some name.now)
        (S.state shelf.old).faults (S.state shelf.new).faults }
{
    let mut left = text;
    while !left.is_empty() {
        let taken = shelf.extend(name, left)?;
        left = &left[taken as usize..];
    }
    Ok(())
}
