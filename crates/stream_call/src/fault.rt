ghost use Rattle.std.specs.Prelude.{◌≡◌};
ghost use Rattle.stream_call.specs.Faults.{save_fault_of, stream_status_of};
ghost use Rattle.stream_call.specs.declared.fault.StreamFault.TheVariants as Whole;
ghost use Rattle.fries_lines.specs.declared.fault.Fault.TheVariants.{NoMemory as OutOfMemory};

use fries_lines::Fault;
use std::fmt;
use stream_save::StreamSaveFault;
use tuple_trace::NoMemory;

/// Why a stream wasn't run to its end.
#[derive(Clone, Copy, Debug, PartialEq, Eq)]
pub enum StreamFault {
    /// A fault that other commands have too.
    Call(Fault),
    /// The savepoint was read and is refused.
    Save(StreamSaveFault),
    /// The input leaves out more rows than were run before the savepoint, which is after this row.
    Ahead(u64),
}

/// The status of a savepoint that is refused, and of an input that doesn't fit it.
const SAVE_STATUS: u8 = 10;

impl StreamFault {
    /// The status that the program ends with.
    pub fn status(self) -> u8
        ensures { result ≡ stream_status_of self }
    {
        match self {
            StreamFault::Call(fault) => fault.status(),
            StreamFault::Save(_) | StreamFault::Ahead(_) => SAVE_STATUS,
        }
    }
}

impl From<Fault> for StreamFault {
    ghost from_gives = { λ fault e. e ≡ Whole.Call fault };

    fn from(fault: Fault) -> Self {
        StreamFault::Call(fault)
    }
}

impl From<NoMemory> for StreamFault {
    ghost from_gives = { λ _ e. e ≡ Whole.Call OutOfMemory };

    fn from(_: NoMemory) -> Self {
        StreamFault::Call(Fault::NoMemory)
    }
}

impl From<StreamSaveFault> for StreamFault {
    ghost from_gives = { λ fault e. e ≡ save_fault_of fault };

    fn from(fault: StreamSaveFault) -> Self {
        match fault {
            StreamSaveFault::NoMemory => StreamFault::Call(Fault::NoMemory),
            refused => StreamFault::Save(refused),
        }
    }
}

impl fmt::Display for StreamFault {
    fn fmt<W: fmt::Write>(&self, f: &mut fmt::Formatter<W>) -> fmt::Result {
        match self {
            StreamFault::Call(fault) => write!(f, "{fault}"),
            StreamFault::Save(fault) => write!(f, "{fault}"),
            StreamFault::Ahead(row) => write!(f, "S6 rows {row}"),
        }
    }
}
