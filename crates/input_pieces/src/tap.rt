ghost use Rattle.std.specs.Prelude.{◌≤◌, IfOk, length};
ghost use Rattle.std.specs.Io.KnownBytes.{ReadConsumes};
ghost use Rattle.input_pieces.specs.Taps.{TapCause, TapState};

/// The input refused. It has counted the failure.
#[derive(Clone, Copy, Debug, PartialEq, Eq)]
pub struct TapFailed;

/// An input of bytes that is read as they come.
pub trait Tap {
    /// The bytes that are left, if they are told, and how many reads have failed. The count never
    /// falls, and stays at 2^64 - 1.
    ghost state: { Self → TapState };

    /// Takes what is there, at least one byte and at most as many as there is room for, and returns
    /// how many. Waits if nothing is there. Returns 0 only at the end, or if there is no room.
    fn read(&mut self, room: &mut [u8]) -> Result<usize, TapFailed>
        ensures count { IfOk result (λ n. n ≤ length room.new) }
        ensures bytes { ReadConsumes (state self.old).left (state self.new).left result room.new }
        ensures cause { TapCause result (state self.old).faults (state self.new).faults };
}
