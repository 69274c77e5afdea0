use keyed_state::Keyed;
use tuple_trace::{Items, Tuple};

/// One step of a worker. A lane is given by its number among all lanes of the job.
#[derive(Debug, Drop)]
pub enum Entry {
    /// The worker processed a tuple that it had taken from this lane.
    Met { lane: u32, tuple: Tuple },
    /// It took the marker of a request from this lane.
    Marked { lane: u32, request: u64 },
    /// It put the request's change of its node in force, or passed the request on where its node is
    /// not asked.
    Turned { request: u64 },
    /// It took the end of this lane.
    Ended { lane: u32 },
}

/// What one worker did, in order.
pub type Journal = Items<Entry>;

/// The journals of all workers: node by node in the order of the nodes, and the workers of a node
/// by their places. Sources have none.
pub type Journals = Items<Journal>;

/// The counts that the workers hold at the end, in the order of [`Journals`].
pub type States = Items<Keyed>;

/// One step of the feeder.
#[derive(Clone, Copy, Debug, PartialEq, Eq)]
pub enum Feed {
    /// It fed the row with this number.
    Fed(u64),
    /// It issued the request with this number.
    Issued(u64),
    /// It ended its lanes, and does nothing more.
    Stopped,
}

/// What the feeder did, in order.
pub type Feeds = Items<Feed>;
