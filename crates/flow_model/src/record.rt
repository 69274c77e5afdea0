ghost use Rattle.std.specs.Prelude.{◌≡◌, ◌<◌, Some, length, slice_get};

use crate::Setup;
use sink_journal::{Feeds, Journal, Journals, States};

/// What a run leaves: what the feeder did, what each worker did, and the counts of each worker at
/// the end.
#[derive(Drop)]
pub struct RunRecord {
    pub setup: Setup,
    pub feeds: Feeds,
    pub journals: Journals,
    pub states: States,
}

impl RunRecord {
    ghost use Rattle.flow_model.specs.Record.{record_view};

    /// The journal of a worker. Takes no memory.
    pub fn journal(&self, worker: u32) -> &Journal
        requires { worker < length (record_view self.now).journals }
        ensures { slice_get (record_view self.now).journals worker ≡ Some result.now }
    {
        &self.journals.as_slice()[worker as usize]
    }
}
