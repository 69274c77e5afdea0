ghost use Rattle.std.specs.Prelude.{◌≡◌, ◌≤◌, IfOk, length};
ghost use Rattle.std.specs.Io.KnownBytes.{ReadConsumes};
ghost use Rattle.input_pieces.specs.Taps.{host_faults_of};

use crate::{Tap, TapFailed};
use std::io::{ErrorKind, Read};

/// The standard input, or another reader in its place. It tells what its reader tells.
///
/// A read of it is one read of its reader, and one more for each that a signal interrupts.
#[derive(Drop)]
pub struct HostTap<I: Read + Drop> {
    input: I,
    faults: u64,
}

impl<I: Read + Drop> HostTap<I> {
    /// The bytes of this reader. Takes no memory.
    pub fn new(input: I) -> Self
        ensures { host_faults_of result ≡ 0 }
    {
        HostTap { input, faults: 0 }
    }
}

impl<I: Read + Drop> Tap for HostTap<I> {
    ghost use Rattle.input_pieces.specs.Taps.{host_state_of};

    ghost state = { host_state_of I.remaining };

    fn read(&mut self, room: &mut [u8]) -> Result<usize, TapFailed> {
        let count = read_once(&mut self.input, room);
        if count.is_err() {
            self.faults = self.faults.saturating_add(1);
        }
        count
    }
}

// One read. If a signal interrupts it, it is tried again.
fn read_once<I: Read>(input: &mut I, room: &mut [u8]) -> Result<usize, TapFailed>
    ensures count { IfOk result (λ n. n ≤ length room.new) }
    ensures bytes { ReadConsumes (I.remaining input.old) (I.remaining input.new) result room.new }
{
    for _ in 0..u64::MAX {
        match input.read(room) {
            Ok(count) => return Ok(count),
            Err(error) => {
                if error.kind() != ErrorKind::Interrupted {
                    return Err(TapFailed);
                }
            }
        }
    }
    Err(TapFailed)
}
