ghost use Rattle.std.specs.Prelude.{◌≡◌, Some};
ghost use Rattle.stream_save.specs.FaultWords.{stream_save_words};
ghost use Rattle.stream_save.specs.StreamReading.{fault_as_saved};
ghost use Rattle.stream_save.specs.declared.fault.StreamSaveFault.TheVariants.{
  NoMemory as OutOfMemory,
};

use savepoint::SaveFault;
use std::error::Error;
use std::fmt;
use tuple_trace::NoMemory;

/// Why a stream's savepoint isn't read, or can't be gone on from. Records are counted from 0.
#[derive(Clone, Copy, Debug, PartialEq, Eq)]
pub enum StreamSaveFault {
    /// The record isn't of its form, or there is no such record.
    Shape(u64),
    /// The savepoint is after this row, and the input has fewer rows.
    Past(u64),
    /// The wait of this record is before the one before it, above the savepoint's row, or of a
    /// request that isn't accepted.
    Count(u64),
    /// The record names no worker that counts, has a key that is too long or that the job leads to
    /// another worker, or comes too early.
    State(u64),
    /// The file of the alerts is shorter than this length in bytes.
    Alerts(u64),
    /// The file of the audit is shorter than this length in bytes.
    Audit(u64),
    /// Out of memory.
    NoMemory,
}

impl From<NoMemory> for StreamSaveFault {
    ghost from_gives = { λ _ e. e ≡ OutOfMemory };

    fn from(_: NoMemory) -> Self {
        StreamSaveFault::NoMemory
    }
}

impl From<SaveFault> for StreamSaveFault {
    ghost from_gives = { λ fault e. e ≡ fault_as_saved fault };

    fn from(fault: SaveFault) -> Self {
        match fault {
            SaveFault::Shape(record) => StreamSaveFault::Shape(record),
            SaveFault::Past(row) => StreamSaveFault::Past(row),
            SaveFault::Count(requests) => StreamSaveFault::Count(requests),
            SaveFault::State(record) => StreamSaveFault::State(record),
            SaveFault::NoMemory => StreamSaveFault::NoMemory,
        }
    }
}

impl fmt::Display for StreamSaveFault {
    ghost output = { λ fault. Some (stream_save_words fault) };

    fn fmt<W: fmt::Write>(&self, f: &mut fmt::Formatter<W>) -> fmt::Result {
        let (words, number) = match self {
            StreamSaveFault::Shape(number) => ("S1 record", number),
            StreamSaveFault::Past(row) => ("S2 rows", row),
            StreamSaveFault::Count(number) => ("S3 record", number),
            StreamSaveFault::State(number) => ("S4 record", number),
            StreamSaveFault::Alerts(length) => ("S5 alerts", length),
            StreamSaveFault::Audit(length) => ("S5 audit", length),
            StreamSaveFault::NoMemory => return f.write_str("memory"),
        };
        write!(f, "{words} {number}")
    }
}

impl Error for StreamSaveFault {}
