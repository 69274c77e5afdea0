// What is printed of a fault: its code, and what it names.
ghost use Rattle.std.specs.Prelude.{◌≡◌, Some};
ghost use Rattle.job_file.specs.FaultWords.{job_words, part_words, requests_words};

use crate::{JobFault, Part, ReqFileFault};
use jobs::Named;
use std::error::Error;
use std::fmt;

impl fmt::Display for Part {
    ghost output = { λ part. Some (part_words part) };

    fn fmt<W: fmt::Write>(&self, f: &mut fmt::Formatter<W>) -> fmt::Result {
        f.write_str(part_word(*self))
    }
}

// The word of a part.
fn part_word(part: Part) -> &'static str
    ensures { result.now ≡ part_words part }
{
    match part {
        Part::Columns => "columns",
        Part::Tables => "tables",
        Part::Node => "node",
        Part::Edge => "edge",
        Part::Name => "name",
        Part::Kind => "kind",
        Part::Workers => "workers",
        Part::When => "when",
        Part::Steps => "steps",
        Part::Key => "key",
        Part::Into => "into",
        Part::Table => "table",
        Part::Other => "other",
        Part::Add => "add",
        Part::On => "on",
        Part::By => "by",
        Part::Most => "most",
        Part::Low => "low",
        Part::High => "high",
        Part::Roof => "roof",
        Part::From => "from",
        Part::To => "to",
        Part::Port => "port",
        Part::Request => "request",
        Part::Change => "change",
        Part::After => "after",
        Part::Carry => "carry",
        Part::Unknown => "unknown",
    }
}

impl fmt::Display for JobFault {
    ghost output = { λ fault. Some (job_words fault) };

    fn fmt<W: fmt::Write>(&self, f: &mut fmt::Formatter<W>) -> fmt::Result {
        match self {
            JobFault::NotToml => f.write_str("J1"),
            JobFault::Shape(part) => write!(f, "J2 {part}"),
            JobFault::Limit(which, number) => write!(f, "J3 {which} {number}"),
            JobFault::NameTwice(Named::Node, place) => write!(f, "J4 node {place}"),
            JobFault::NameTwice(Named::Column, place) => write!(f, "J4 column {place}"),
            JobFault::NoSuchEnd(edge) => write!(f, "J5 edge {edge}"),
            JobFault::Ports(node) => write!(f, "J6 node {node}"),
            JobFault::Cycle(node) => write!(f, "J7 node {node}"),
            JobFault::Column(node) => write!(f, "J8 node {node}"),
            JobFault::NoTable(node) => write!(f, "J9 node {node}"),
            JobFault::Weight(weight) => write!(f, "J10 weight {weight}"),
            JobFault::NoMemory => f.write_str("memory"),
        }
    }
}

impl Error for JobFault {}

impl fmt::Display for ReqFileFault {
    ghost output = { λ fault. Some (requests_words fault) };

    fn fmt<W: fmt::Write>(&self, f: &mut fmt::Formatter<W>) -> fmt::Result {
        match self {
            ReqFileFault::NotToml => f.write_str("F1"),
            ReqFileFault::Shape(part) => write!(f, "F2 {part}"),
            ReqFileFault::Limit(which, number) => write!(f, "F3 {which} {number}"),
            ReqFileFault::NoMemory => f.write_str("memory"),
        }
    }
}

impl Error for ReqFileFault {}
