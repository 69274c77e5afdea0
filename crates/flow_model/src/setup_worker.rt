// A worker of a setup, as one value.
ghost use Rattle.std.specs.Prelude.{◌≡◌, ◌<◌, length};
ghost use Rattle.flow_model.specs.Covers.{is_head};
ghost use Rattle.flow_model.specs.Dues.{IsDueAfter, edges_in};
ghost use Rattle.flow_model.specs.Lanes.{lanes_in};
ghost use Rattle.flow_model.specs.Setup.{setup_view};
ghost use Rattle.flow_model.specs.Workers.{workers_in};

use crate::Setup;
use flow_dag::MAX_NODES;
use marker_align::Due;

/// A worker of a setup.
///
/// Its type keeps that the setup has a worker with this number, so nothing asks for that again.
#[derive(Clone, Copy)]
pub struct SetupWorker<'s> {
    pub setup: &'s Setup,
    /// Workers are numbered through the nodes in order.
    pub number: u32,
    ghost there: { number < length (workers_in (setup_view setup.now).job) },
}

impl<'s> SetupWorker<'s> {
    ghost use Rattle.flow_model.specs.SetupWorker.{setup_here, who_here};

    /// The node of the worker. Takes no memory.
    pub fn node(self) -> u32
        ensures at { result ≡ (who_here self.entry).node }
        ensures limit { result < MAX_NODES }
    {
        self.setup.node_of(self.number)
    }

    /// The numbers of the lanes into the worker, rising. Takes no memory.
    pub fn lanes_in(self) -> &'s [u32]
        ensures { result.now ≡ lanes_in (setup_here self.entry).job self.entry.number }
    {
        self.setup.lanes_in(self.number)
    }

    /// The first request after `last` that covers the worker. Takes no memory.
    pub fn due_after(self, last: u64) -> Option<Due>
        ensures { IsDueAfter (setup_here self.entry) (who_here self.entry).node
            (edges_in (setup_here self.entry).job self.entry.number) last result }
    {
        self.setup.due_after(self.number, last)
    }

    /// Whether the worker's node is a head of what a request covers. Takes no memory.
    pub fn is_head(self, request: u64) -> bool
        ensures { result ≡ is_head (setup_here self.entry) request (who_here self.entry).node }
    {
        match self.setup.plan_of(request) {
            Some(plan) => plan.is_head(self.node()),
            None => false,
        }
    }
}
