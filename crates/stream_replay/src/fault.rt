ghost use Rattle.std.specs.Prelude.{◌≡◌};
ghost use Rattle.stream_replay.specs.Faults.{part_fault};
ghost use Rattle.stream_replay.specs.declared.fault.PartFault.TheVariants.{NoMemory as OutOfMemory};

use fries_lines::Fault;
use tuple_trace::NoMemory;

/// Why the parts of a stream aren't runs one after another.
#[derive(Clone, Copy, Debug, PartialEq, Eq)]
pub enum PartFault {
    /// This part, counted from 1, is the first that is no run from where the one before has ended.
    Loose(u64),
    /// Out of memory.
    NoMemory,
}

impl From<NoMemory> for PartFault {
    ghost from_gives = { λ _ e. e ≡ OutOfMemory };

    fn from(_: NoMemory) -> Self {
        PartFault::NoMemory
    }
}

impl From<PartFault> for Fault {
    ghost from_gives = { λ p e. e ≡ part_fault p };

    fn from(fault: PartFault) -> Self {
        match fault {
            PartFault::Loose(part) => Fault::Part(part),
            PartFault::NoMemory => Fault::NoMemory,
        }
    }
}
