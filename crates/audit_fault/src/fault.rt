ghost use Rattle.std.specs.Prelude.{◌≡◌, Some};
ghost use Rattle.audit_fault.specs.FaultWords.{audit_words};
ghost use Rattle.audit_fault.specs.declared.fault.AuditFault.TheVariants.{NoMemory as OutOfMemory};

use std::error::Error;
use std::fmt;
use tuple_trace::NoMemory;

/// Why a text is the audit of no run. Records are counted from 0, and the header is record 0.
#[derive(Clone, Copy, Debug, PartialEq, Eq)]
pub enum AuditFault {
    /// This record has no form of an audit, or stands out of order.
    Shape(u64),
    /// The refused requests aren't those of the setup. This record is the first that differs.
    Refused(u64),
    /// The feeder's steps aren't those of these rows. This record is the first that differs.
    Feed(u64),
    /// The journal of this worker isn't finished.
    Law(u32),
    /// The entries of this lane aren't the items that it brings.
    Lane(u32),
    /// The counts of this worker aren't those of its replay.
    State(u32),
    /// Out of memory.
    NoMemory,
}

impl From<NoMemory> for AuditFault {
    ghost from_gives = { λ _ e. e ≡ OutOfMemory };

    fn from(_: NoMemory) -> Self {
        AuditFault::NoMemory
    }
}

impl fmt::Display for AuditFault {
    ghost output = { λ fault. Some (audit_words fault) };

    fn fmt<W: fmt::Write>(&self, f: &mut fmt::Formatter<W>) -> fmt::Result {
        match self {
            AuditFault::Shape(number) => write!(f, "V1 record {number}"),
            AuditFault::Refused(number) => write!(f, "V2 record {number}"),
            AuditFault::Feed(number) => write!(f, "V3 record {number}"),
            AuditFault::Law(worker) => write!(f, "V4 worker {worker}"),
            AuditFault::Lane(lane) => write!(f, "V5 lane {lane}"),
            AuditFault::State(worker) => write!(f, "V6 worker {worker}"),
            AuditFault::NoMemory => write!(f, "memory"),
        }
    }
}

impl Error for AuditFault {}
