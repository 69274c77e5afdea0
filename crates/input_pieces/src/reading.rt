// One read of a tap, behind a text.

ghost use Rattle.std.specs.Prelude.{◌≡◌, ◌≢◌, ◌≤◌, ◌<◌, ◌+◌, [], Err, IfOk, OnErr};
ghost use Rattle.std.specs.Prelude.{drop, length, take};
ghost use Rattle.std.specs.Io.KnownBytes.{Consumes, IsAtEnd, Keeps};
ghost use Rattle.input_pieces.specs.Gathering.{Gathers, PieceCause};
ghost use Rattle.input_pieces.specs.Taps.{TapCause};

use crate::{MAX_RECORD, PieceFault, READ_SIZE, Tap, TapFailed};

// Room for a read. It is copied, since a list that is filled grows byte by byte.
const BLANK: [u8; READ_SIZE] = [0; READ_SIZE];

/// Reads once behind a text, at most `most` bytes, and returns how many. After an error the text is
/// as before.
pub(crate) fn read_behind<T: Tap>(
    tap: &mut T,
    text: &mut Vec<u8>,
    most: usize,
) -> Result<usize, PieceFault>
    requires some { 0 < most }
    requires few { most ≤ READ_SIZE }
    requires room { length text.old.items + most ≤ MAX_RECORD }
    ensures gathered { Gathers (T.state tap.old).left (T.state tap.new).left
        text.old.items [] text.new.items }
    ensures count { IfOk result (λ n. length text.new.items ≡ length text.old.items + n) }
    ensures most { IfOk result (λ n. n ≤ most) }
    ensures none { IfOk result (λ n. n ≡ 0 → text.new.items ≡ text.old.items) }
    ensures end { IfOk result (λ n. n ≡ 0 → IsAtEnd (T.state tap.new).left) }
    ensures err { OnErr result (text.new.items ≡ text.old.items) }
    ensures named { result ≢ Err PieceFault.Long }
    ensures cause { PieceCause result (T.state tap.old).faults (T.state tap.new).faults }
{
    let from = text.len();
    if text.extend_from_slice(blank(most)).is_err() {
        return Err(PieceFault::NoMemory);
    }
    match read_from(tap, text.as_mut_slice(), from) {
        Ok(count) => {
            text.truncate(from + count);
            Ok(count)
        }
        Err(_) => {
            text.truncate(from);
            Err(PieceFault::Failed)
        }
    }
}

// So many blank bytes.
fn blank(most: usize) -> &'static [u8]
    requires { most ≤ READ_SIZE }
    ensures { length result.now ≡ most }
{
    &BLANK[..most]
}

// Reads once into the room from a place on.
fn read_from<T: Tap>(tap: &mut T, room: &mut [u8], from: usize) -> Result<usize, TapFailed>
    requires { from < length room.old }
    ensures front { take from room.new ≡ take from room.old }
    ensures count { IfOk result (λ n. from + n ≤ length room.new) }
    ensures bytes { IfOk result (λ n. Consumes (T.state tap.old).left (T.state tap.new).left
        (take n (drop from room.new))) }
    ensures end { IfOk result (λ n. n ≡ 0 → IsAtEnd (T.state tap.new).left) }
    ensures err { OnErr result (Keeps (T.state tap.old).left (T.state tap.new).left) }
    ensures cause { TapCause result (T.state tap.old).faults (T.state tap.new).faults }
{
    tap.read(&mut room[from..])
}
