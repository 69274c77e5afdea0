//! What an operator makes of one tuple, and which worker a tuple reaches.
//!
//! An operator is a plain function on a tuple and the counts of its node. Workers, lanes and
//! requests are unknown here. The jobs that it belongs to, and their parts, are handed on from the
//! crate `jobs`.
//!
//! ```
//! let visit = Visit { node: 1, worker: 0, last: 0 };
//! let mut outs = Outs::new(alloc);
//! let here = Visited { job: &job, ports: &[0], visit };
//! here.apply(alloc, &func, &mut counts, &tuple, &mut outs)?;
//! for output in outs.as_slice() {
//!     send(output.port, &output.tuple);
//! }
//! ```
#![tactic(auto)]

mod arithmetic;
mod clamp;
mod conditions;
mod count;
mod dedupe;
mod effect;
mod enrich;
mod fields;
mod filter;
mod lanes;
mod laws;
mod map;
mod output;
mod pieces;
mod ports;
mod replicate;
mod split;

pub use effect::Visited;
pub use jobs::{
    ClampBy, Column, ColumnDefs, ColumnKind, Columns, Cond, Conds, CountBy, DedupeBy, Func, Job,
    LawFault, Lookup, NOWHERE, Named, NodeDef, NodeDefs, Op, Operand, SplitBy, Step, Steps, Table,
    Tables, Test, Which, fits, holds, is_replicate, is_source, is_split, kind_at, size_fault,
    weight,
};
pub use lanes::lane_of;
pub use laws::{
    counts_serve_counts_alone, outputs_are_blind, outputs_are_few, outputs_are_made_of_their_tuple,
    outputs_are_told_apart, outputs_leave_by_edges,
};
pub use output::{Output, Outs};
pub use ports::{Ports, most_outputs, out_ports};
