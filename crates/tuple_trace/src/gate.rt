/// Is told of moments of a run, and may wait there. What a gate does changes no answer of the
/// engine, so tests use one to force a schedule.
pub trait Gate {
    /// A worker is about to process a tuple. `worker` is its place at the node, and `place` counts
    /// the tuples that it has processed before.
    fn pass(&self, node: u32, worker: u32, place: u64);

    /// The feeder has posted this request to every worker that heads its cover.
    fn issued(&self, request: u64);
}

/// The gate of a plain run: it lets everything pass at once.
#[derive(Clone, Copy, Debug)]
pub struct OpenGate;

impl Gate for OpenGate {
    fn pass(&self, _node: u32, _worker: u32, _place: u64) {}

    fn issued(&self, _request: u64) {}
}
