ghost use Rattle.std.specs.Prelude.{◌≡◌, ◌++◌, ◌∷◌, ◌+◌, [], OnOk, OnErr, length};
ghost use Rattle.tuple_trace.specs.Rows.{IsRow};

use crate::{NoMemory, Tuple};
use std::alloc::Global;
use std::marker::Model;

/// A payment as it enters the flow.
#[derive(Clone, Debug, Drop)]
pub struct Row {
    /// The number of the source node that it enters by.
    pub source: u32,
    pub tuple: Tuple,
}

/// The rows of a run in order, numbered from 1. Each is in one piece, fed under no request yet, and
/// has visited no node.
#[derive(Debug, Drop)]
pub struct Rows {
    rows: Vec<Row>,
}

impl Model for Rows {
    ghost use Rattle.std.specs.Prelude.{List};
    ghost use Rattle.tuple_trace.specs.declared.row.Row.{Row};

    ghost Value = { List Row };

    ghost use Rattle.tuple_trace.specs.Rows.{AreRows};

    ghost view = { λ a. a.rows.items };

    ghost invariant = { λ a. AreRows a.rows.items };
}

impl Rows {
    ghost use Rattle.tuple_trace.specs.Rows.{AreRows};

    /// No rows. Takes no memory.
    pub fn new(alloc: Global) -> Self
        ensures { result ≡ [] }
    {
        Rows {
            rows: Vec::new(alloc),
        }
    }

    /// All rows in order.
    pub fn as_slice(&self) -> &[Row]
        ensures value { result.now ≡ self.now }
        ensures rows { AreRows result.now }
    {
        self.rows.as_slice()
    }

    /// How many rows there are.
    pub fn len(&self) -> usize
        ensures { result ≡ length self.now }
    {
        self.rows.len()
    }

    /// The rows are numbered by their places. Does nothing.
    pub fn are_numbered(&self)
        ensures { AreRows self.now }
    {
        let _rows = self.rows.as_slice();
    }

    /// Appends the next row. After [`NoMemory`] the rows are as before, and the row is given up.
    pub fn push(&mut self, row: Row) -> Result<(), NoMemory>
        requires { IsRow (length self.old + 1) row }
        ensures ok { OnOk result (self.new ≡ self.old ++ row ∷ []) }
        ensures err { OnErr result (self.new ≡ self.old) }
    {
        self.rows.push(row)?;
        Ok(())
    }
}
