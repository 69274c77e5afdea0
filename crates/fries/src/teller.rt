// Who tells on the standard error how far a stream has come.
use fries_help::{Call, HostLook, advice};
use fries_lines::Fault;
use payments::GrowingShelf;
use std::alloc::Global;
use std::time::{Duration, Instant};
use stream_run::{PartEnd, Watch};
use tuple_trace::Word;

/// How many seconds pass at least from one telling to the next.
const TELL_EVERY: u64 = 1;

/// Tells on the standard error how far a stream has come, each second at most, and which readings
/// of its requests were skipped.
#[derive(Drop)]
pub(crate) struct Teller<'a> {
    pub(crate) rt: HostRuntime,
    pub(crate) alloc: Global,
    pub(crate) words: &'a [Word],
    /// Whether it tells how far the stream has come.
    pub(crate) tells: bool,
    /// Since when rows are counted: the last telling, or the end of the first part.
    pub(crate) told: Option<Told>,
}

/// A place of a stream, and when it was there.
#[derive(Clone, Copy)]
pub(crate) struct Told {
    row: u64,
    at: Instant,
}

impl Watch for Teller<'_> {
    fn part_ended<S: GrowingShelf>(&mut self, _shelf: &S, end: &PartEnd<'_>) {
        if !self.tells {
            return;
        }
        let Ok(at) = Instant::now(&self.rt) else {
            return;
        };
        let stream = end.stream;
        let row = stream.start.row;
        let now = Told { row, at };
        let Some(told) = self.told else {
            self.told = Some(now);
            return;
        };
        let passed = at.duration_since(told.at);
        if passed.as_secs() >= TELL_EVERY {
            self.told = Some(now);
            let alerts = end.shown;
            let requests = stream.start.turned;
            let rate = rate_of(row.saturating_sub(told.row), passed);
            let _ = eprint!(self.rt;
                "fries: rows {row} alerts {alerts} requests {requests}, {rate} rows a second\n"
            );
        }
    }

    fn saved<S: GrowingShelf>(&mut self, _shelf: &S, _end: &PartEnd<'_>) {}

    fn skipped(&mut self, fault: Fault) {
        let call = Call {
            words: self.words,
            not_utf8: None,
            fault: Some(fault),
            refused: &[],
        };
        if let Ok(text) = advice(self.alloc, call, &mut HostLook::new(self.rt)) {
            let _ = eprint!(self.rt; "{text}  The stream goes on with the requests that it has.\n");
        }
    }
}

// How many rows a second there were, if so many took this long.
fn rate_of(rows: u64, passed: Duration) -> u64 {
    let millis = u64::try_from(passed.as_millis()).unwrap_or(u64::MAX);
    rows.saturating_mul(1_000) / millis.max(1)
}
