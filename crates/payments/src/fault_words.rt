// What is printed of a fault: its code, and its row and column where it has them.
ghost use Rattle.std.specs.Prelude.{Some};
ghost use Rattle.payments.specs.FaultWords.{payments_words};

use crate::PFault;
use std::error::Error;
use std::fmt;

impl fmt::Display for PFault {
    ghost output = { λ fault. Some (payments_words fault) };

    fn fmt<W: fmt::Write>(&self, f: &mut fmt::Formatter<W>) -> fmt::Result {
        match self {
            PFault::NoHeader => f.write_str("P1"),
            PFault::Header => f.write_str("P2"),
            PFault::Length(row) => write!(f, "P3 row {row}"),
            PFault::Source(row) => write!(f, "P4 row {row}"),
            PFault::Value(row, column) => write!(f, "P5 row {row} column {column}"),
            PFault::TextLong(row, column) => write!(f, "P6 row {row} column {column}"),
            PFault::TooMuch(row) => write!(f, "P7 row {row}"),
            PFault::NoMemory => f.write_str("memory"),
        }
    }
}

impl Error for PFault {}
