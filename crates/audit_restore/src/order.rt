// The workers in the order of the graph.
ghost use Rattle.std.specs.Prelude.{◌≡◌, ◌++◌, IfOk, OnOk};
ghost use Rattle.std.specs.Prelude.{length};
ghost use Rattle.flow_model.specs.Setup.{setup_view};
ghost use Rattle.flow_model.specs.Workers.{workers_in};
ghost use Rattle.audit_restore.specs.Restored.{IsOrder, numbers_at};

use flow_model::Setup;
use std::alloc::Global;
use tuple_trace::{Items, NoMemory};

/// The workers in the order of their nodes, and those of a node by their numbers.
pub(crate) fn workers_in_order(alloc: Global, setup: &Setup) -> Result<Items<u32>, NoMemory>
    ensures { IfOk result (IsOrder (setup_view setup.now).job setup.now.job.dag.order) }
{
    let mut workers = Items::new(alloc);
    for place in 0..setup.job.dag.nodes() {
        push_workers(setup, setup.job.dag.order(place), &mut workers)?;
    }
    Ok(workers)
}

// Appends the workers of a node.
fn push_workers(setup: &Setup, node: u32, workers: &mut Items<u32>) -> Result<(), NoMemory>
    ensures { OnOk result (workers.new ≡ workers.old ++ numbers_at (setup_view setup.now).job node
        (length (workers_in (setup_view setup.now).job))) }
{
    for worker in 0..setup.workers() {
        if setup.node_of(worker) == node {
            workers.push(worker)?;
        }
    }
    Ok(())
}
