ghost use Rattle.std.specs.Prelude.{◌≡◌, [], ◌∷◌, IfOk, MatchOption, OnErr};
ghost use Rattle.std.specs.Io.KnownBytes.{Consumes, IsAtEnd, Keeps};
ghost use Rattle.live_control.specs.Asking.{in_faults_of};

use crate::{Asks, Failed};
use std::io::{ErrorKind, Read};

/// The standard input, or another reader in its place. It tells what its reader tells.
#[derive(Drop)]
pub struct StdIn<I: Read + Drop> {
    input: I,
    faults: u64,
}

impl<I: Read + Drop> StdIn<I> {
    /// The input of this reader. Takes no memory.
    pub fn new(input: I) -> Self
        ensures { in_faults_of result ≡ 0 }
    {
        StdIn { input, faults: 0 }
    }
}

impl<I: Read + Drop> Asks for StdIn<I> {
    ghost use Rattle.live_control.specs.Asking.{in_state_of};

    ghost state = { in_state_of I.remaining };

    fn next(&mut self) -> Result<Option<u8>, Failed> {
        let byte = read_byte(&mut self.input);
        if byte.is_err() {
            self.faults = self.faults.saturating_add(1);
        }
        byte
    }
}

// One byte, `None` at the end. A read that a signal interrupts is tried again.
fn read_byte<I: Read>(input: &mut I) -> Result<Option<u8>, Failed>
    ensures ok { IfOk result (λ byte. MatchOption byte
        (Keeps (I.remaining input.old) (I.remaining input.new) × IsAtEnd (I.remaining input.new))
        (λ b. Consumes (I.remaining input.old) (I.remaining input.new) (b ∷ []))) }
    ensures err { OnErr result (Keeps (I.remaining input.old) (I.remaining input.new)) }
{
    let mut byte = [0u8; 1];
    for _ in 0..u64::MAX {
        match input.read(&mut byte) {
            Ok(0) => return Ok(None),
            Ok(_) => return Ok(Some(byte[0])),
            Err(error) => {
                if error.kind() != ErrorKind::Interrupted {
                    return Err(Failed);
                }
            }
        }
    }
    Err(Failed)
}
