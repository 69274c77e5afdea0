ghost use Rattle.std.specs.Prelude.{◌≡◌};
ghost use Rattle.fries_lines.specs.Faults.{audit_fault, job_fault, payments_fault, requests_fault};
ghost use Rattle.fries_lines.specs.Faults.{save_fault};
ghost use Rattle.fries_lines.specs.Faults.{status_of as status_of_fault};
ghost use Rattle.fries_lines.specs.Faults.{limit_of};
ghost use Rattle.fries_lines.specs.declared.fault.Fault.TheVariants.{NoMemory as OutOfMemory};

use audit_fault::AuditFault;
use job_file::{JobFault, ReqFileFault};
use payments::PFault;
use savepoint::SaveFault;
use std::alloc::AllocError;
use tuple_trace::NoMemory;

/// A file or stream that the program reads or writes.
#[derive(Clone, Copy, Debug, PartialEq, Eq)]
pub enum FileIs {
    Job,
    Requests,
    Payments,
    /// The alerts, which commands that run rows write and `verify` reads.
    Alerts,
    /// The audit, which `run` writes and `verify` reads.
    Audit,
    /// The savepoint, which `save` writes and `resume` reads.
    Save,
    /// The input from which `live` reads releases.
    Asks,
    /// The standard output.
    Out,
}

impl FileIs {
    /// How many bytes of the file are read at most: none of one that is only written.
    pub fn limit(self) -> u64
        ensures { result ≡ limit_of self }
    {
        match self {
            FileIs::Job | FileIs::Requests | FileIs::Asks => 1_048_576,
            FileIs::Payments => 67_108_864,
            FileIs::Save | FileIs::Audit => 536_870_912,
            FileIs::Alerts => 2_147_483_648,
            FileIs::Out => 0,
        }
    }
}

/// Why a command wasn't done to its end.
#[derive(Clone, Copy, Debug, PartialEq, Eq)]
pub enum Fault {
    /// The words have no form that the program knows.
    Usage,
    /// The job file was read and is refused.
    Job(JobFault),
    /// The request file was read and is refused.
    Requests(ReqFileFault),
    /// The payments were read and are refused.
    Payments(PFault),
    /// The savepoint was read and is refused.
    Save(SaveFault),
    /// The audit was read and is that of no run.
    Audit(AuditFault),
    /// The alerts were read and aren't those of the run whose audit was read. They differ first in
    /// this line, counted from 1.
    Alerts(u64),
    /// The audit of a stream was read. It is that of a run, and this part, counted from 1, is the
    /// first that is no run from where the part before it has ended.
    Part(u64),
    /// A file or the input couldn't be read.
    Read(FileIs),
    /// A file couldn't be made or written, or the standard output refused.
    Write(FileIs),
    NoMemory,
    /// A file is longer than the program reads.
    Long(FileIs),
}

impl Fault {
    /// The status that the program ends with.
    pub fn status(self) -> u8
        ensures { result ≡ status_of_fault self }
    {
        match self {
            Fault::Usage => 1,
            Fault::Job(_) => 2,
            Fault::Requests(_) => 3,
            Fault::Payments(_) => 4,
            Fault::Read(_) => 5,
            Fault::Write(_) => 6,
            Fault::NoMemory => 7,
            Fault::Long(_) => 9,
            Fault::Save(_) => 10,
            Fault::Audit(_) | Fault::Alerts(_) | Fault::Part(_) => 11,
        }
    }
}

impl From<NoMemory> for Fault {
    ghost from_gives = { λ _ e. e ≡ OutOfMemory };

    fn from(_: NoMemory) -> Self {
        Fault::NoMemory
    }
}

impl From<AllocError> for Fault {
    ghost from_gives = { λ _ e. e ≡ OutOfMemory };

    fn from(_: AllocError) -> Self {
        Fault::NoMemory
    }
}

impl From<JobFault> for Fault {
    ghost from_gives = { λ p e. e ≡ job_fault p };

    fn from(fault: JobFault) -> Self {
        match fault {
            JobFault::NoMemory => Fault::NoMemory,
            refused => Fault::Job(refused),
        }
    }
}

impl From<ReqFileFault> for Fault {
    ghost from_gives = { λ p e. e ≡ requests_fault p };

    fn from(fault: ReqFileFault) -> Self {
        match fault {
            ReqFileFault::NoMemory => Fault::NoMemory,
            refused => Fault::Requests(refused),
        }
    }
}

impl From<PFault> for Fault {
    ghost from_gives = { λ p e. e ≡ payments_fault p };

    fn from(fault: PFault) -> Self {
        match fault {
            PFault::NoMemory => Fault::NoMemory,
            refused => Fault::Payments(refused),
        }
    }
}

impl From<SaveFault> for Fault {
    ghost from_gives = { λ p e. e ≡ save_fault p };

    fn from(fault: SaveFault) -> Self {
        match fault {
            SaveFault::NoMemory => Fault::NoMemory,
            refused => Fault::Save(refused),
        }
    }
}

impl From<AuditFault> for Fault {
    ghost from_gives = { λ p e. e ≡ audit_fault p };

    fn from(fault: AuditFault) -> Self {
        match fault {
            AuditFault::NoMemory => Fault::NoMemory,
            refused => Fault::Audit(refused),
        }
    }
}
