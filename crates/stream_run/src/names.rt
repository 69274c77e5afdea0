use std::marker::Model;
use tuple_trace::Word;

/// The names of the files that a stream reads and writes.
#[derive(Drop)]
pub struct StreamNames<'a> {
    pub requests: &'a Word,
    pub alerts: &'a Word,
    pub audit: &'a Word,
    /// That of the savepoint. It isn't used if none is to be written.
    pub save: &'a Word,
}

impl<'a> Model for StreamNames<'a> {
    ghost use Rattle.stream_run.specs.Growing.{Names};

    ghost Value = { Names };

    ghost view = { λ n. record {
      requests = n.requests.now;
      alerts = n.alerts.now;
      audit = n.audit.now;
      save = n.save.now;
    } };
}
