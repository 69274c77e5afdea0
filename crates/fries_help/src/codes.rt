// Which row of the table tells of a fault.
ghost use Rattle.std.specs.Prelude.{◌≡◌, Some};
ghost use Rattle.fries_help.specs.Codes.{help_code_of, job_code, payments_code, refusal_code};
ghost use Rattle.fries_help.specs.Codes.{requests_code};
ghost use Rattle.fries_help.specs.Codes.{audit_code, save_code, stream_code, stream_save_code};
ghost use Rattle.fries_help.specs.Table.{help_view, help_with};

use crate::table::*;
use audit_fault::AuditFault;
use fries_lines::{Fault, FileIs};
use job_file::{JobFault, ReqFileFault};
use payments::PFault;
use savepoint::SaveFault;
use stream_call::StreamFault;
use stream_save::StreamSaveFault;
use versions::QFault;

/// What is said of a fault.
#[tactic(auto, unfolding(crate::specs::Table::help_with))]
pub fn help_of(fault: Fault) -> Help
    ensures { help_with (help_code_of fault) ≡ Some (help_view result) }
{
    match fault {
        Fault::Usage => USAGE,
        Fault::Job(fault) => help_of_job(fault),
        Fault::Requests(fault) => help_of_requests(fault),
        Fault::Payments(fault) => help_of_payments(fault),
        Fault::Save(fault) => help_of_save(fault),
        Fault::Audit(fault) => help_of_audit(fault),
        Fault::Alerts(_) => V7,
        Fault::Part(_) => V8,
        Fault::Read(FileIs::Asks) => READ_ASKS,
        Fault::Read(_) => READ,
        Fault::Write(FileIs::Out) => OUT,
        Fault::Write(_) => WRITE,
        Fault::NoMemory => MEMORY,
        Fault::Long(FileIs::Payments) => LONG_PAYMENTS,
        Fault::Long(FileIs::Save) => LONG_SAVE,
        Fault::Long(FileIs::Audit) => LONG_AUDIT,
        Fault::Long(FileIs::Alerts) => LONG_ALERTS,
        Fault::Long(_) => LONG,
    }
}

/// What is said of a fault of a stream.
#[tactic(auto, unfolding(crate::specs::Table::help_with))]
pub fn help_of_stream(fault: StreamFault) -> Help
    ensures { help_with (stream_code fault) ≡ Some (help_view result) }
{
    match fault {
        StreamFault::Call(fault) => help_of(fault),
        StreamFault::Save(fault) => help_of_stream_save(fault),
        StreamFault::Ahead(_) => S6,
    }
}

#[tactic(auto, unfolding(crate::specs::Table::help_with))]
fn help_of_stream_save(fault: StreamSaveFault) -> Help
    ensures { help_with (stream_save_code fault) ≡ Some (help_view result) }
{
    match fault {
        StreamSaveFault::Shape(_) => S1,
        StreamSaveFault::Past(_) => S2,
        StreamSaveFault::Count(_) => S3_STREAM,
        StreamSaveFault::State(_) => S4,
        StreamSaveFault::Alerts(_) | StreamSaveFault::Audit(_) => S5,
        StreamSaveFault::NoMemory => MEMORY,
    }
}

#[tactic(auto, unfolding(crate::specs::Table::help_with))]
fn help_of_save(fault: SaveFault) -> Help
    ensures { help_with (save_code fault) ≡ Some (help_view result) }
{
    match fault {
        SaveFault::Shape(_) => S1,
        SaveFault::Past(_) => S2,
        SaveFault::Count(_) => S3,
        SaveFault::State(_) => S4,
        SaveFault::NoMemory => MEMORY,
    }
}

#[tactic(auto, unfolding(crate::specs::Table::help_with))]
fn help_of_audit(fault: AuditFault) -> Help
    ensures { help_with (audit_code fault) ≡ Some (help_view result) }
{
    match fault {
        AuditFault::Shape(_) => V1,
        AuditFault::Refused(_) => V2,
        AuditFault::Feed(_) => V3,
        AuditFault::Law(_) => V4,
        AuditFault::Lane(_) => V5,
        AuditFault::State(_) => V6,
        AuditFault::NoMemory => MEMORY,
    }
}

#[tactic(auto, unfolding(crate::specs::Table::help_with))]
fn help_of_job(fault: JobFault) -> Help
    ensures { help_with (job_code fault) ≡ Some (help_view result) }
{
    match fault {
        JobFault::NotToml => J1,
        JobFault::Shape(_) => J2,
        JobFault::Limit(..) => J3,
        JobFault::NameTwice(..) => J4,
        JobFault::NoSuchEnd(_) => J5,
        JobFault::Ports(_) => J6,
        JobFault::Cycle(_) => J7,
        JobFault::Column(_) => J8,
        JobFault::NoTable(_) => J9,
        JobFault::Weight(_) => J10,
        JobFault::NoMemory => MEMORY,
    }
}

#[tactic(auto, unfolding(crate::specs::Table::help_with))]
fn help_of_requests(fault: ReqFileFault) -> Help
    ensures { help_with (requests_code fault) ≡ Some (help_view result) }
{
    match fault {
        ReqFileFault::NotToml => F1,
        ReqFileFault::Shape(_) => F2,
        ReqFileFault::Limit(..) => F3,
        ReqFileFault::NoMemory => MEMORY,
    }
}

#[tactic(auto, unfolding(crate::specs::Table::help_with))]
fn help_of_payments(fault: PFault) -> Help
    ensures { help_with (payments_code fault) ≡ Some (help_view result) }
{
    match fault {
        PFault::NoHeader => P1,
        PFault::Header => P2,
        PFault::Length(_) => P3,
        PFault::Source(_) => P4,
        PFault::Value(..) => P5,
        PFault::TextLong(..) => P6,
        PFault::TooMuch(_) => P7,
        PFault::NoMemory => MEMORY,
    }
}

/// What is said of a refused request.
#[tactic(auto, unfolding(crate::specs::Table::help_with))]
pub fn help_of_refusal(fault: QFault) -> Help
    ensures { help_with (refusal_code fault) ≡ Some (help_view result) }
{
    match fault {
        QFault::NoNode(_) => Q1,
        QFault::Fixed(_) => Q2,
        QFault::NodeTwice(_) => Q3,
        QFault::Stale(..) => Q4,
        QFault::IllTyped(_) => Q5,
        QFault::KindOrKey(_) => Q6,
        QFault::BadCarry(_) => Q7,
        QFault::Empty => Q8,
        QFault::Backwards(_) => Q9,
        QFault::LateSplit(_) => Q10,
    }
}
