ghost use Rattle.stream_run.specs.Standing.{Stands, FileHolds, saved_text};

use crate::names::StreamNames;
use fries_lines::Fault;
use payments::GrowingShelf;
use stream_step::Stream;

/// Where a stream is at the end of a part.
#[derive(Drop)]
pub struct PartEnd<'a> {
    pub names: &'a StreamNames<'a>,
    /// Behind which row this call began; `None` if it began anew.
    pub behind: Option<u64>,
    pub stream: &'a Stream,
    /// How many requests were read of their file.
    pub read: u64,
    /// How many bytes the file of the alerts has.
    pub alerts: u64,
    /// How many bytes the file of the audit has.
    pub audit: u64,
    /// How many tuples reached the sinks in this call.
    pub shown: u64,
}

/// Who is told of a stream while it goes on, as a stream may never end.
///
/// What each call requires holds whenever it is made, also in a call of the program that never
/// returns. So nothing else may be told.
pub trait Watch {
    /// A part has ended, and its texts were written. All parts since the call began, after what the
    /// stream had run before, are one run; and the files hold the texts of each in turn.
    fn part_ended<S: GrowingShelf>(&mut self, shelf: &S, end: &PartEnd<'_>)
        requires { Stands end.now.behind end.now.names.now end.now.stream.now
            (S.state shelf.now).files };

    /// The savepoint was written. It tells just where the stream is.
    fn saved<S: GrowingShelf>(&mut self, shelf: &S, end: &PartEnd<'_>)
        requires stands { Stands end.now.behind end.now.names.now end.now.stream.now
            (S.state shelf.now).files }
        requires saved { FileHolds (S.state shelf.now).files end.now.names.now.save
            (saved_text end.now.stream.now end.now.read end.now.alerts end.now.audit) };

    /// A later reading of the requests has this fault. It is skipped, and nothing else comes of it.
    fn skipped(&mut self, fault: Fault);
}
