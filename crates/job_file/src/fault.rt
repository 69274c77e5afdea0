ghost use Rattle.std.specs.Prelude.{◌≡◌};
ghost use Rattle.job_file.specs.declared.fault.FormFault.TheVariants as form_fault;
ghost use Rattle.job_file.specs.Faults.{of_form, of_law, of_request_form};

use jobs::{LawFault, Named, Which};
use tuple_trace::NoMemory;

/// A part of the layout of a file, by the key at which it stands.
#[derive(Clone, Copy, Debug, PartialEq, Eq)]
pub enum Part {
    Columns,
    Tables,
    Node,
    Edge,
    Name,
    Kind,
    Workers,
    When,
    Steps,
    Key,
    Into,
    Table,
    Other,
    Add,
    On,
    By,
    Most,
    Low,
    High,
    Roof,
    From,
    To,
    Port,
    Request,
    Change,
    After,
    Carry,
    /// A key that isn't in the layout.
    Unknown,
}

/// Why a file is no job, in the order in which the faults are looked for.
///
/// Nodes, edges and columns are numbered by their places in the file, from 0.
#[derive(Clone, Copy, Debug, PartialEq, Eq)]
pub enum JobFault {
    /// The bytes are no TOML document.
    NotToml,
    /// A needed key is missing, a key isn't in the layout, or a value isn't of the form that its
    /// key asks for.
    Shape(Part),
    /// A count or a size is outside its limit; the number is the one that is.
    Limit(Which, i64),
    /// The column or node at this place has the name of an earlier one.
    NameTwice(Named, u32),
    /// An end of the edge at this place names no node.
    NoSuchEnd(u32),
    /// The edges of this node aren't those of its kind, or two of them lead to one node.
    Ports(u32),
    /// The node lies on a cycle.
    Cycle(u32),
    /// A column that this node names isn't there, or doesn't fit what the node does with it.
    Column(u32),
    /// The table that this node names isn't there.
    NoTable(u32),
    /// The weight of the job is too great.
    Weight(u64),
    NoMemory,
}

/// Why a file holds no requests, in the order in which the faults are looked for.
#[derive(Clone, Copy, Debug, PartialEq, Eq)]
pub enum ReqFileFault {
    /// The bytes are no TOML document.
    NotToml,
    /// A needed key is missing, a key isn't in the layout, or a value isn't of the form that its
    /// key asks for.
    Shape(Part),
    /// A count or a size is outside its limit; the number is the one that is.
    Limit(Which, i64),
    NoMemory,
}

/// Why a document isn't read, whatever it is the file of.
#[derive(Clone, Copy)]
pub(crate) enum FormFault {
    NotToml,
    Shape(Part),
    NoMemory,
}

impl From<NoMemory> for FormFault {
    ghost from_gives = { λ _ fault. fault ≡ form_fault.NoMemory };

    fn from(_: NoMemory) -> Self {
        FormFault::NoMemory
    }
}

impl From<FormFault> for JobFault {
    ghost from_gives = { λ form fault. fault ≡ of_form form };

    fn from(form: FormFault) -> Self {
        match form {
            FormFault::NotToml => JobFault::NotToml,
            FormFault::Shape(part) => JobFault::Shape(part),
            FormFault::NoMemory => JobFault::NoMemory,
        }
    }
}

impl From<LawFault> for JobFault {
    ghost from_gives = { λ law fault. fault ≡ of_law law };

    fn from(law: LawFault) -> Self {
        match law {
            LawFault::Limit(which, number) => JobFault::Limit(which, number),
            LawFault::NameTwice(named, place) => JobFault::NameTwice(named, place),
            LawFault::NoSuchEnd(edge) => JobFault::NoSuchEnd(edge),
            LawFault::Ports(node) => JobFault::Ports(node),
            LawFault::Cycle(node) => JobFault::Cycle(node),
            LawFault::Column(node) => JobFault::Column(node),
            LawFault::NoTable(node) => JobFault::NoTable(node),
            LawFault::Weight(weight) => JobFault::Weight(weight),
            LawFault::NoMemory => JobFault::NoMemory,
        }
    }
}

impl From<FormFault> for ReqFileFault {
    ghost from_gives = { λ form fault. fault ≡ of_request_form form };

    fn from(form: FormFault) -> Self {
        match form {
            FormFault::NotToml => ReqFileFault::NotToml,
            FormFault::Shape(part) => ReqFileFault::Shape(part),
            FormFault::NoMemory => ReqFileFault::NoMemory,
        }
    }
}
