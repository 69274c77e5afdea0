ghost use Rattle.savepoint.specs.declared.fault.SaveFault.TheVariants.{NoMemory as OutOfMemory};
ghost use Rattle.savepoint.specs.FaultWords.{save_words};
ghost use Rattle.std.specs.Prelude.{◌≡◌, Some};

use std::error::Error;
use std::fmt;
use tuple_trace::NoMemory;

/// Why a savepoint isn't read. Records are counted from 0.
#[derive(Clone, Copy, Debug, PartialEq, Eq)]
pub enum SaveFault {
    /// The record isn't of its form, or there is no record.
    Shape(u64),
    /// The savepoint is after this row, and there are fewer rows.
    Past(u64),
    /// The savepoint has another number of requests than are issued up to its row, which is this.
    Count(u64),
    /// The record names no worker that counts, has a key that is too long or that the job leads to
    /// another worker, or comes too early.
    State(u64),
    /// Out of memory.
    NoMemory,
}

impl From<NoMemory> for SaveFault {
    ghost from_gives = { λ _ e. e ≡ OutOfMemory };

    fn from(_: NoMemory) -> Self {
        SaveFault::NoMemory
    }
}

impl fmt::Display for SaveFault {
    ghost output = { λ fault. Some (save_words fault) };

    fn fmt<W: fmt::Write>(&self, f: &mut fmt::Formatter<W>) -> fmt::Result {
        match self {
            SaveFault::Shape(number) => write!(f, "S1 record {number}"),
            SaveFault::Past(row) => write!(f, "S2 rows {row}"),
            SaveFault::Count(requests) => write!(f, "S3 requests {requests}"),
            SaveFault::State(number) => write!(f, "S4 record {number}"),
            SaveFault::NoMemory => write!(f, "memory"),
        }
    }
}

impl Error for SaveFault {}
