ghost use Rattle.std.specs.Prelude.{◌≡◌, Some, IfOk, string_bytes};
ghost use Rattle.jobs.specs.Job.{job_view};
ghost use Rattle.fries_lines.specs.FaultWords.{fault_line as fault_line_of};
ghost use Rattle.fries_lines.specs.Lines.{sizes_line as sizes_line_of, sizes_of as sizes_of_job};
ghost use Rattle.fries_lines.specs.Lines.{summary_line as summary_line_of};

use crate::fault::Fault;
use jobs::{Job, weight, worker_count};
use std::alloc::Global;
use std::fmt;
use tuple_trace::NoMemory;

/// What a run is counted by.
#[derive(Clone, Copy, PartialEq, Eq)]
pub struct Summary {
    /// The rows that were fed.
    pub rows: usize,
    /// The tuples that reached the sinks.
    pub alerts: usize,
    pub requests: usize,
    /// How many of the requests were refused.
    pub refused: usize,
}

impl fmt::Display for Summary {
    ghost use Rattle.fries_lines.specs.Lines.{summary_words};

    ghost output = { λ summary. Some (summary_words summary) };

    fn fmt<W: fmt::Write>(&self, f: &mut fmt::Formatter<W>) -> fmt::Result {
        let Summary {
            rows,
            alerts,
            requests,
            refused,
        } = *self;
        write!(
            f,
            "rows {rows} alerts {alerts} requests {requests} refused {refused}"
        )
    }
}

/// The line that ends a run.
pub fn summary_line(alloc: Global, summary: Summary) -> Result<String, NoMemory>
    ensures { IfOk result (λ line. string_bytes line ≡ summary_line_of summary) }
{
    Ok(format!(in alloc; "{summary}\n")?)
}

/// The line of a fault.
pub fn fault_line(alloc: Global, fault: Fault) -> Result<String, NoMemory>
    ensures { IfOk result (λ line. string_bytes line ≡ fault_line_of fault) }
{
    let status = fault.status();
    Ok(format!(in alloc; "fault {status} {fault}\n")?)
}

/// What a job is measured by.
#[derive(Clone, Copy, PartialEq, Eq)]
pub struct Sizes {
    pub nodes: usize,
    pub edges: u32,
    /// The workers of the nodes that aren't sources.
    pub workers: u64,
    /// How many tuples one row may bring to the nodes that aren't sources.
    pub weight: u64,
}

impl fmt::Display for Sizes {
    ghost use Rattle.fries_lines.specs.Lines.{sizes_words};

    ghost output = { λ sizes. Some (sizes_words sizes) };

    fn fmt<W: fmt::Write>(&self, f: &mut fmt::Formatter<W>) -> fmt::Result {
        let Sizes {
            nodes,
            edges,
            workers,
            weight,
        } = *self;
        write!(
            f,
            "nodes {nodes} edges {edges} workers {workers} weight {weight}"
        )
    }
}

/// The line that `check` prints of a job.
pub fn sizes_line(alloc: Global, job: &Job) -> Result<String, NoMemory>
    ensures { IfOk result (λ line. string_bytes line ≡ sizes_line_of (job_view job.now)) }
{
    let sizes = sizes_of(job);
    Ok(format!(in alloc; "{sizes}\n")?)
}

fn sizes_of(job: &Job) -> Sizes
    ensures { result ≡ sizes_of_job (job_view job.now) }
{
    Sizes {
        nodes: job.nodes.len(),
        edges: job.dag.edges(),
        workers: worker_count(job),
        weight: weight(job),
    }
}
