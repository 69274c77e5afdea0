ghost use Rattle.std.specs.Prelude.{◌≡◌, ◌++◌, ℕ, List, None, Some, option_map, IsSome, OnErr};
ghost use Rattle.std.specs.Prelude.{OnOk};
ghost use Rattle.std.specs.List.{concat};
ghost use Rattle.payments.specs.Causes.{WriteCause, SinkCause, GainsPrefix, GainsProperPrefix};
ghost use Rattle.payments.specs.Files.{draft_name, draft_with, with_bytes};

use crate::{Shelf, ShelfFault, Sink, SinkFault};
use tuple_trace::{Bytes, Word};

/// Makes a file hold this text and nothing else.
///
/// After an error the file is as before. No other file changes.
pub fn store<S: Shelf>(shelf: &mut S, name: &Word, text: &[u8]) -> Result<(), ShelfFault>
    ensures whole { OnOk result
        ((S.state shelf.new).files ≡ with_bytes (S.state shelf.old).files name.now text.now) }
    ensures as_before { OnErr result ((S.state shelf.new).files ≡ (S.state shelf.old).files) }
    ensures closed { (S.state shelf.new).draft ≡ None }
    ensures cause { WriteCause result (Some name.now)
        (S.state shelf.old).faults (S.state shelf.new).faults }
{
    shelf.create(name)?;
    append_all(shelf, text)?;
    shelf.keep()
}

/// Makes a file hold the parts of a text, one behind another, and nothing else. The text itself is
/// never in memory as a whole.
///
/// After an error the file is as before. No other file changes.
pub fn store_parts<S: Shelf>(shelf: &mut S, name: &Word, parts: &[Bytes]) -> Result<(), ShelfFault>
    ensures whole { OnOk result ((S.state shelf.new).files
        ≡ with_bytes (S.state shelf.old).files name.now (concat parts.now)) }
    ensures as_before { OnErr result ((S.state shelf.new).files ≡ (S.state shelf.old).files) }
    ensures closed { (S.state shelf.new).draft ≡ None }
    ensures cause { WriteCause result (Some name.now)
        (S.state shelf.old).faults (S.state shelf.new).faults }
{
    shelf.create(name)?;
    for part in parts {
        append_all(shelf, part.as_slice())?;
    }
    shelf.keep()
}

// Appends a text to the draft. Each append hands in all that is left of it.
fn append_all<S: Shelf>(shelf: &mut S, text: &[u8]) -> Result<(), ShelfFault>
    requires begun { IsSome (S.state shelf.old).draft }
    ensures more { OnOk result ((name begun : List ℕ)
        → (S.state shelf.old).draft ≡ Some (draft_with (S.state shelf.old).files name begun)
        → (S.state shelf.new).draft
        ≡ Some (draft_with (S.state shelf.old).files name (begun ++ text.now))) }
    ensures closed { OnErr result ((S.state shelf.new).draft ≡ None) }
    ensures files { (S.state shelf.new).files ≡ (S.state shelf.old).files }
    ensures cause { WriteCause result (draft_name (S.state shelf.old).draft)
        (S.state shelf.old).faults (S.state shelf.new).faults }
{
    let mut rest = text;
    while !rest.is_empty() {
        let taken = shelf.append(rest)?;
        rest = &rest[taken as usize..];
    }
    Ok(())
}

/// Writes a text to a stream. Each write hands in all that is left of it.
///
/// After an error the stream has gained a prefix of the text, which isn't all of it.
pub fn write_all<O: Sink>(out: &mut O, text: &[u8]) -> Result<(), SinkFault>
    ensures whole { OnOk result ((O.state out.new).written ≡
        option_map (λ w. w ++ text.now) (O.state out.old).written) }
    ensures part { GainsPrefix (O.state out.old).written (O.state out.new).written text.now }
    ensures stopped { OnErr result
        (GainsProperPrefix (O.state out.old).written (O.state out.new).written text.now) }
    ensures cause { SinkCause result (O.state out.old).faults (O.state out.new).faults }
{
    let mut left = text;
    while !left.is_empty() {
        let taken = out.write(left)?;
        left = &left[taken as usize..];
    }
    Ok(())
}
