/// Why a request is refused. Changes are counted from 1.
#[derive(Clone, Copy, Debug, PartialEq, Eq)]
pub enum QFault {
    /// The change names no node of the job.
    NoNode(u32),
    /// The change names a source, a sink or a replicate, which stay as they are.
    Fixed(u32),
    /// An earlier change of the request names the same node.
    NodeTwice(u32),
    /// The change was written for another version of its node than the current one, which is given.
    Stale(u32, u64),
    /// The function of the change doesn't fit the job.
    IllTyped(u32),
    /// The function is of another kind than the current one, counts by another key, or splits into
    /// more pieces than the job allows the node.
    KindOrKey(u32),
    /// Counts are to be carried where the node keeps none, or to be divided by less than 1.
    BadCarry(u32),
    /// There is no change.
    Empty,
    /// The request is for an earlier row than the latest accepted one, which is for this row.
    Backwards(u64),
    /// The change makes a split of a node that is left out of the nodes that may be splits. Only a
    /// list that is judged with such a mask has this fault.
    LateSplit(u32),
}
