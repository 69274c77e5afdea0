ghost use Rattle.std.specs.Prelude.{◌≡◌, ◌≢◌, Ok, Err, IfOk, IfErr, length};
ghost use Rattle.csv.specs.Records.{fields_of as cells_of};
ghost use Rattle.jobs.specs.Job.{job_view};
ghost use Rattle.jobs.specs.Weights.{weight as weight_of};
ghost use Rattle.payments.specs.Reading.{header_of, is_source_with as is_source_node_with};
ghost use Rattle.payments.specs.Reading.{row_from as row_from_record, record_row as row_of_record};
ghost use Rattle.payments.specs.Reading.{source_named as source_named_of};

use crate::PFault;
use crate::cells::{fields_of, number_of, take_cell};
use csv::ByteRecord;
use jobs::{Job, NodeDef, is_source};
use std::alloc::Global;
use tuple_trace::{Births, Row, Tuple, Visits};

/// How many tuples a run may bring to its nodes: the number of a row times the weight of its job is
/// at most this.
pub const WORK_MAX: u64 = 1 << 20;

/// What every row of a file is measured by: the weight of the job, and how many cells the header
/// has.
#[derive(Clone, Copy)]
pub(crate) struct Measure {
    pub(crate) weight: u64,
    pub(crate) width: usize,
}

/// The row of a record, or the first thing that is wrong with it.
pub(crate) fn row_of(
    alloc: Global,
    job: &Job,
    measure: Measure,
    row: u64,
    cells: &ByteRecord,
) -> Result<Row, PFault>
    requires weight { measure.weight ≡ weight_of (job_view job.now) }
    requires width { measure.width ≡ length (header_of (job_view job.now)) }
    ensures ok { IfOk result (λ made. row_of_record (job_view job.now) row (cells_of cells.now)
        ≡ Ok made) }
    ensures fault { IfErr result (λ fault. fault ≢ PFault.NoMemory
        → row_of_record (job_view job.now) row (cells_of cells.now) ≡ Err fault) }
{
    if row.saturating_mul(measure.weight) > WORK_MAX {
        return Err(PFault::TooMuch(row));
    }
    if cells.len() != measure.width {
        return Err(PFault::Length(row));
    }
    row_from(alloc, job, row, cells)
}

/// The row of a record that has as many cells as the header, whatever its number; or the first
/// thing that is wrong with it: its source, and then its columns from left to right.
///
/// # Errors
///
/// [`PFault::Source`], [`PFault::Value`] and [`PFault::TextLong`] of this row, or out of memory.
pub fn row_from(alloc: Global, job: &Job, row: u64, cells: &ByteRecord) -> Result<Row, PFault>
    ensures ok { IfOk result (λ made. row_from_record (job_view job.now) row (cells_of cells.now)
        ≡ Ok made) }
    ensures fault { IfErr result (λ fault. fault ≢ PFault.NoMemory
        → row_from_record (job_view job.now) row (cells_of cells.now) ≡ Err fault) }
{
    let Some(source) = source_named(job, take_cell(cells, &mut 0)) else {
        return Err(PFault::Source(row));
    };
    let fields = fields_of(alloc, row, job.columns.as_slice(), cells)?;
    Ok(Row {
        source: number_of(source)?,
        tuple: Tuple {
            row,
            birth: Births::new(alloc),
            issued: 0,
            fields,
            trace: Visits::new(alloc),
        },
    })
}

fn source_named(job: &Job, name: &[u8]) -> Option<usize>
    ensures { result ≡ source_named_of (job_view job.now) name.now }
{
    job.nodes
        .as_slice()
        .iter()
        .position(|node| is_source_with(name, node))
}

fn is_source_with(name: &[u8], node: &NodeDef) -> bool
    ensures { result ≡ is_source_node_with name.now node.now }
{
    is_source(&node.func) && node.name.as_slice() == name
}
