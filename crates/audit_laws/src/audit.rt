use sink_journal::{Feed, Noted};
use tuple_trace::{Births, Bytes};

/// One step of a worker, as an audit keeps it: of a tuple only its row and its births.
#[derive(Debug, Drop)]
pub enum AuditEntry {
    /// The worker took a tuple with this row and these births from this lane, and processed it.
    Met { lane: u32, row: u64, birth: Births },
    /// It took the marker of a request from this lane.
    Marked { lane: u32, request: u64 },
    /// It turned the request.
    Turned { request: u64 },
    /// It took the end of this lane.
    Ended { lane: u32 },
}

/// One record of an audit, after the header.
#[derive(Debug, Drop)]
pub enum Line {
    /// A request that was refused.
    Refused(Noted),
    /// A step of the feeder.
    Feed(Feed),
    /// A step of the worker with this number.
    Step { worker: u32, entry: AuditEntry },
    /// A count of the worker with this number.
    State { worker: u32, key: Bytes, count: i64 },
}
