use tuple_trace::{Items, Txt};

/// What a column holds.
#[derive(Clone, Copy, Debug, PartialEq, Eq)]
pub enum ColumnKind {
    Text,
    Number,
    /// A number of cents. It is written with a point and two digits.
    Cents,
}

/// A column of every tuple of a job.
#[derive(Debug, Drop)]
pub struct Column {
    pub name: Txt,
    pub kind: ColumnKind,
    /// Whether the column is the job's own: not in the payments file, and 0 or empty at first.
    pub own: bool,
}

/// The columns of a job, numbered from 0.
pub type ColumnDefs = Items<Column>;

/// Numbers of columns.
pub type Columns = Items<u32>;
