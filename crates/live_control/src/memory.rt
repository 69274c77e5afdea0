ghost use Rattle.std.specs.Prelude.{◌≡◌};
ghost use Rattle.payments.specs.Memory.{after_call};
ghost use Rattle.live_control.specs.Asking.{IsNext, outcome_view, asking_faults, asking_left};
ghost use Rattle.live_control.specs.Asking.{asking_plan};

use crate::{Asks, Failed};
use payments::Calls;
use tuple_trace::Bytes;

/// An input in memory. It tells its bytes, and fails at the calls that it was told to.
#[derive(Debug, Drop)]
pub struct MemoryAsks {
    bytes: Bytes,
    /// How many of the bytes are taken.
    taken: usize,
    failing: Calls,
    calls: u64,
    faults: u64,
}

impl MemoryAsks {
    /// An input of these bytes. The calls with these numbers, from 0, fail. Takes no memory.
    pub fn new(bytes: Bytes, failing: Calls) -> Self
        ensures left { asking_left result ≡ bytes }
        ensures plan { asking_plan result ≡ record { failing = failing; calls = 0 } }
        ensures faults { asking_faults result ≡ 0 }
    {
        MemoryAsks {
            bytes,
            taken: 0,
            failing,
            calls: 0,
            faults: 0,
        }
    }

    /// The bytes that are left.
    pub fn left(&self) -> &[u8]
        ensures { result.now ≡ asking_left self.now }
    {
        &self.bytes.as_slice()[self.taken.min(self.bytes.len())..]
    }

    /// How many calls have failed.
    pub fn faults(&self) -> u64
        ensures { result ≡ asking_faults self.now }
    {
        self.faults
    }
}

impl Asks for MemoryAsks {
    ghost use Rattle.live_control.specs.Asking.{asking_state};

    ghost state = { asking_state };

    fn next(&mut self) -> Result<Option<u8>, Failed>
        ensures next { IsNext result (asking_state self.old) (asking_state self.new) }
        ensures answer { result ≡ outcome_view self.old }
        ensures plan { asking_plan self.new ≡ after_call (asking_plan self.old) }
    {
        let number = self.calls;
        self.calls = number.saturating_add(1);
        if self.failing.as_slice().contains(&number) {
            self.faults = self.faults.saturating_add(1);
            return Err(Failed);
        }
        if self.taken >= self.bytes.len() {
            return Ok(None);
        }
        let byte = self.bytes.as_slice()[self.taken];
        self.taken += 1;
        Ok(Some(byte))
    }
}
