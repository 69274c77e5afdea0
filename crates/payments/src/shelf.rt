ghost use Rattle.std.specs.Prelude.{◌≡◌, ◌≤◌, ◌<◌, ◌++◌, [], None, Some, length, take, option_map};
ghost use Rattle.std.specs.Prelude.{IfOk, IfSome, IsSome, IsErrOf, OnErr, OnOk};
ghost use Rattle.payments.specs.Causes.{ReadCause, WriteCause, SinkCause};
ghost use Rattle.payments.specs.Files.{draft_name, draft_with, longer_draft, told_bytes};
ghost use Rattle.payments.specs.World.{ShelfState, SinkState};

use std::alloc::Global;
use tuple_trace::{Bytes, Word};

/// Why a call on a file gave up.
#[derive(Clone, Copy, Debug, PartialEq, Eq)]
pub enum ShelfFault {
    /// The outside refused. The shelf has counted it, and keeps the name of the file.
    Failed,
    /// The file has more bytes than the limit of the read.
    Long,
    NoMemory,
}

/// Files by their names, read and replaced whole.
///
/// A file that is written is a draft first, which [`Shelf::keep`] puts in the file's place. So a
/// file is as it was or whole, whichever call fails. A shelf has one draft at most, and a write
/// that fails gives it up. Whether a shelf tells what its files hold is its own choice: one in
/// memory does, one over the host can't.
pub trait Shelf {
    /// The files, if they are told; how many reads and writes have failed, and the file of the
    /// latest failure; and the draft, if there is one. A count never falls, and stays at 2^64 - 1.
    ghost state: { Self → ShelfState };

    /// All bytes of a file, of which there are at most `limit`. A name without a file is read as no
    /// bytes, or refused.
    fn read_all(&mut self, alloc: Global, name: &Word, limit: u64) -> Result<Bytes, ShelfFault>
        ensures bytes { IfOk result (λ bytes.
            IfSome (told_bytes (state self.old).files name.now) (λ told. bytes ≡ told)) }
        ensures short { IfOk result (λ bytes. length bytes ≤ limit) }
        ensures long { IsErrOf result ShelfFault.Long →
            IfSome (told_bytes (state self.old).files name.now) (λ told. limit < length told) }
        ensures files { (state self.new).files ≡ (state self.old).files }
        ensures draft { (state self.new).draft ≡ (state self.old).draft }
        ensures cause { ReadCause result name.now (state self.old).faults (state self.new).faults };

    /// Begins an empty draft of a file, in place of any other draft. The file itself stays.
    fn create(&mut self, name: &Word) -> Result<(), ShelfFault>
        ensures begun { OnOk result ((state self.new).draft
            ≡ Some (draft_with (state self.old).files name.now [])) }
        ensures closed { OnErr result ((state self.new).draft ≡ None) }
        ensures files { (state self.new).files ≡ (state self.old).files }
        ensures cause { WriteCause result (Some name.now)
            (state self.old).faults (state self.new).faults };

    /// Appends the first bytes of a piece to the draft, at least one, and answers how many.
    fn append(&mut self, piece: &[u8]) -> Result<u64, ShelfFault>
        requires begun { IsSome (state self.old).draft }
        requires some { 0 < length piece.now }
        ensures count { IfOk result (λ n. (0 < n) × (n ≤ length piece.now)) }
        ensures more { IfOk result (λ n. IfSome (state self.old).draft (λ draft.
            (state self.new).draft ≡ Some (longer_draft draft (take n piece.now)))) }
        ensures closed { OnErr result ((state self.new).draft ≡ None) }
        ensures files { (state self.new).files ≡ (state self.old).files }
        ensures cause { WriteCause result (draft_name (state self.old).draft)
            (state self.old).faults (state self.new).faults };

    /// Puts the draft in its file's place. There is no draft then.
    fn keep(&mut self) -> Result<(), ShelfFault>
        requires begun { IsSome (state self.old).draft }
        ensures kept { OnOk result (IfSome (state self.old).draft (λ draft.
            (state self.new).files ≡ draft.files)) }
        ensures unkept { OnErr result ((state self.new).files ≡ (state self.old).files) }
        ensures closed { (state self.new).draft ≡ None }
        ensures cause { WriteCause result (draft_name (state self.old).draft)
            (state self.old).faults (state self.new).faults };
}

/// Why a write to a stream gave up.
#[derive(Clone, Copy, Debug, PartialEq, Eq)]
pub enum SinkFault {
    /// The outside refused. The sink has counted it.
    Failed,
    NoMemory,
}

/// A stream that only grows.
pub trait Sink {
    /// What was written, if it is told, and how many writes have failed. The count never falls,
    /// and stays at 2^64 - 1.
    ghost state: { Self → SinkState };

    /// Writes the first bytes of a piece, at least one, and answers how many.
    fn write(&mut self, piece: &[u8]) -> Result<u64, SinkFault>
        requires some { 0 < length piece.now }
        ensures count { IfOk result (λ n. (0 < n) × (n ≤ length piece.now)) }
        ensures more { IfOk result (λ n. (state self.new).written ≡
            option_map (λ w. w ++ take n piece.now) (state self.old).written) }
        ensures err { OnErr result ((state self.new).written ≡ (state self.old).written) }
        ensures cause { SinkCause result (state self.old).faults (state self.new).faults };
}
