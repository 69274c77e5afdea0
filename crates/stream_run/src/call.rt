ghost use Rattle.std.specs.Prelude.{◌≡◌};

use crate::books::Books;
use crate::host::StreamHost;
use crate::names::StreamNames;
use crate::watch::PartEnd;
use stream_step::Stream;

/// What a call that runs a stream is given, and hands down to each of its steps.
#[derive(Drop)]
pub struct StreamCall<'a, R, L, G> {
    pub host: StreamHost<'a, R, L, G>,
    pub names: StreamNames<'a>,
    /// After how many rows a savepoint is written again; `None` if none is to be written.
    pub every: Option<u64>,
    /// Behind which row the call began; `None` if it began anew.
    pub behind: Option<u64>,
    /// The number of a source of the job.
    pub source: u32,
}

impl<'a, R, L, G> StreamCall<'a, R, L, G> {
    /// Where a stream of this call is. Takes no memory.
    pub fn end<'b>(&'b self, stream: &'b Stream, books: &Books) -> PartEnd<'b>
        ensures names { result.names.now ≡ self.now.names }
        ensures behind { result.behind ≡ self.now.behind }
        ensures stream { result.stream.now ≡ stream.now }
        ensures read { result.read ≡ books.now.read }
        ensures alerts { result.alerts ≡ books.now.tally.alerts }
        ensures audit { result.audit ≡ books.now.tally.audit }
    {
        PartEnd {
            names: &self.names,
            behind: self.behind,
            stream,
            read: books.read,
            alerts: books.tally.alerts,
            audit: books.tally.audit,
            shown: books.tally.shown,
        }
    }
}
