//! Jobs as data, and which of them are lawful.
//!
//! A job is a graph of nodes, each with a function on tuples, over one list of columns. What the
//! functions do to a tuple is the business of the crate `operators`; workers, lanes and requests
//! are unknown here.
//!
//! ```
//! match Job::check(alloc, columns, nodes, &edges, tables) {
//!     Ok(job) => run(&job),
//!     Err(LawFault::Cycle(node)) => tell_cycle(node),
//!     Err(fault) => tell(fault),
//! }
//! ```
#![tactic(auto)]

mod check;
mod column;
mod fault;
mod fitting;
mod func;
mod job;
mod kind;
mod laws;
mod limits;
mod names;
mod node;
mod ports;
mod queries;
mod table;
mod tables;
mod test_row;
mod weights;

pub use column::{Column, ColumnDefs, ColumnKind, Columns};
pub use fault::{LawFault, Named, Which};
pub use fitting::{holds, kind_at};
pub use func::{
    ClampBy, Cond, Conds, CountBy, DedupeBy, Func, Lookup, NOWHERE, NodeDef, NodeDefs, Op, Operand,
    SplitBy, Step, Steps, Test,
};
pub use job::Job;
pub use kind::{Followers, Kind, KindRow, Role, Shape, key_of};
pub use laws::{
    functions_fit, jobs_have_one_fault, names_tell_kinds, refused_is_unlawful, roofs_hold,
    weights_settle,
};
pub use limits::{
    MAX_COLUMNS, MAX_CONDITIONS, MAX_ENTRIES, MAX_PIECES, MAX_STEPS, MAX_WEIGHT, MAX_WORKERS,
    TEXT_MAX, outside, size_fault,
};
pub use node::{fan_out, is_count, is_fixed, is_free, is_replicate, is_sink, is_source, is_split};
pub use ports::{has_port, out_count};
pub use queries::{fits, weight, worker_count};
pub use table::{Table, Tables};
pub use test_row::TestRow;
