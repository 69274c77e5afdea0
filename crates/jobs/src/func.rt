use crate::Columns;
use tuple_trace::{Items, Txt, Value};

/// The number of a column, a node or a table that the job doesn't have.
pub const NOWHERE: u32 = 4_294_967_295;

/// How a condition compares a column with its literal. A text is tested by `Eq` and `Ne` alone.
#[derive(Clone, Copy, Debug, PartialEq, Eq)]
pub enum Test {
    Eq,
    Ne,
    Lt,
    Le,
    Gt,
    Ge,
}

/// What a step of a map computes of two numbers. Results are exact and then cut to 64 bits.
#[derive(Clone, Copy, Debug, PartialEq, Eq)]
pub enum Op {
    Add,
    Sub,
    Mul,
    Min,
    Max,
}

/// A number, or the column of numbers that holds it.
#[derive(Clone, Copy, Debug, PartialEq, Eq)]
pub enum Operand {
    Number(i64),
    Column(u32),
}

/// One condition of a filter: the column with this number, compared with the literal.
#[derive(Clone, Debug, Drop)]
pub struct Cond {
    pub column: u32,
    pub test: Test,
    pub literal: Value,
}

/// One step of a map: the column becomes `a op b`.
#[derive(Clone, Copy, Debug, PartialEq, Eq)]
pub struct Step {
    pub column: u32,
    pub op: Op,
    pub a: Operand,
    pub b: Operand,
}

/// A look-up: the column `into` becomes what the table holds for the text in `key`, and `other`
/// where it holds nothing for it.
#[derive(Clone, Debug, Drop)]
pub struct Lookup {
    pub key: u32,
    pub into: u32,
    pub table: u32,
    pub other: Value,
}

/// A counter: the count of the text in `key` grows by `add`, and the column `into` becomes the
/// count.
#[derive(Clone, Copy, Debug, PartialEq, Eq)]
pub struct CountBy {
    pub key: u32,
    pub add: Operand,
    pub into: u32,
}

/// A split: the text in `on` is cut at every byte `by`, and each of the first `most` pieces makes a
/// tuple.
#[derive(Clone, Copy, Debug, PartialEq, Eq)]
pub struct SplitBy {
    pub on: u32,
    pub by: u8,
    pub most: u32,
}

/// A filter of repeats: only the first tuple of each text in `key` goes on.
#[derive(Clone, Copy, Debug, PartialEq, Eq)]
pub struct DedupeBy {
    pub key: u32,
}

/// A clamp: the column `on` becomes `low` where it holds less, and `high` where it holds more.
#[derive(Clone, Copy, Debug, PartialEq, Eq)]
pub struct ClampBy {
    pub on: u32,
    pub low: i64,
    pub high: i64,
}

/// The conditions of a filter, all of which are to hold.
pub type Conds = Items<Cond>;

/// The steps of a map, in order.
pub type Steps = Items<Step>;

/// What a node does to a tuple.
#[derive(Clone, Debug, Drop)]
pub enum Func {
    /// Rows enter here. The feeder plays it.
    Source,
    /// Sends a tuple that meets all conditions to port 0, and any other to port 1, where it ends if
    /// the node has no edge there.
    Filter(Conds),
    /// Computes columns of numbers.
    Map(Steps),
    /// Looks a column up in a table.
    Enrich(Lookup),
    /// Counts by a key.
    Count(CountBy),
    /// Passes the first tuple of a key, and ends the others.
    Dedupe(DedupeBy),
    /// Brings a column of numbers between two numbers.
    Clamp(ClampBy),
    /// Makes a tuple of each piece of a text.
    Split(SplitBy),
    /// Sends a copy along each of its edges.
    Replicate,
    /// Tuples leave here. The numbers are those of the columns that an alert shows.
    Sink(Columns),
}

/// A node of a job. Sources and sinks have one worker, other nodes 1 to 8.
#[derive(Debug, Drop)]
pub struct NodeDef {
    pub name: Txt,
    pub func: Func,
    pub workers: u32,
    /// The most tuples that the node may make of one, whatever function requests give it: at least
    /// the fan-out of its own function, and at most 16. Only a node whose kind requests may change
    /// has more than 1.
    pub roof: u32,
}

/// The nodes of a job, numbered from 0.
pub type NodeDefs = Items<NodeDef>;
