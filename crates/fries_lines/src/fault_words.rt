// What is printed of a fault.
ghost use Rattle.std.specs.Prelude.{◌≡◌, Some};
ghost use Rattle.fries_lines.specs.FaultWords.{fault_words, file_words};

use crate::fault::{Fault, FileIs};
use std::error::Error;
use std::fmt;

impl fmt::Display for Fault {
    ghost output = { λ fault. Some (fault_words fault) };

    fn fmt<W: fmt::Write>(&self, f: &mut fmt::Formatter<W>) -> fmt::Result {
        match self {
            Fault::Usage => write!(f, "usage"),
            Fault::Job(fault) => fault.fmt(f),
            Fault::Requests(fault) => fault.fmt(f),
            Fault::Payments(fault) => fault.fmt(f),
            Fault::Save(fault) => fault.fmt(f),
            Fault::Audit(fault) => fault.fmt(f),
            Fault::Alerts(line) => write!(f, "V7 line {line}"),
            Fault::Part(part) => write!(f, "V8 part {part}"),
            Fault::Read(file) | Fault::Write(file) | Fault::Long(file) => file.fmt(f),
            Fault::NoMemory => write!(f, "memory"),
        }
    }
}

impl Error for Fault {}

impl fmt::Display for FileIs {
    ghost output = { λ file. Some (file_words file) };

    fn fmt<W: fmt::Write>(&self, f: &mut fmt::Formatter<W>) -> fmt::Result {
        let word = word_of(*self);
        write!(f, "{word}")
    }
}

// The word of a file.
fn word_of(file: FileIs) -> &'static str
    ensures { result.now ≡ file_words file }
{
    match file {
        FileIs::Job => "job",
        FileIs::Requests => "requests",
        FileIs::Payments => "payments",
        FileIs::Alerts => "alerts",
        FileIs::Audit => "audit",
        FileIs::Save => "save",
        FileIs::Asks => "asks",
        FileIs::Out => "out",
    }
}
