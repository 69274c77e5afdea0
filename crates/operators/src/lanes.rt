// Which worker a tuple reaches.
ghost use Rattle.std.specs.Prelude.{◌≡◌, ◌<◌, ◌≤◌, length};
ghost use Rattle.jobs.specs.Job.{job_view};
ghost use Rattle.operators.specs.Lanes.{worker_along, worker_among};

use crate::fields::text_at;
use jobs::{Column, Func, Job, key_of};
use tuple_trace::{MAX_NODE_WORKERS, Tuple, spread};

/// The worker that a tuple reaches along the edge with this number, counted from 0 among the
/// workers of the node where the edge ends.
///
/// A count is reached by key and every other node by row. Takes no memory.
pub fn lane_of(job: &Job, edge: u32, tuple: &Tuple) -> u32
    requires { edge < length (job_view job.now).edges }
    ensures { result ≡ worker_along (job_view job.now) edge tuple.now }
{
    let edge = job.dag.edge(edge);
    let node = &job.nodes.as_slice()[edge.to as usize];
    worker_among(job.columns.as_slice(), &node.func, node.workers, tuple)
}

fn worker_among(columns: &[Column], func: &Func, workers: u32, tuple: &Tuple) -> u32
    requires some { 1 ≤ workers }
    requires few { workers ≤ MAX_NODE_WORKERS }
    ensures { result ≡ worker_among columns.now func.now workers tuple.now }
{
    match key_of(func) {
        Some(key) => spread(text_at(columns, tuple.fields.as_slice(), key), workers),
        None => (tuple.row % u64::from(workers)) as u32,
    }
}
