ghost use Rattle.std.specs.Prelude.{◌≡◌, None, Some};
ghost use Rattle.fries_steps.specs.Outcomes.{stopped as stopped_for};

use crate::running::Done;
use flow_model::{RunRecord, Start};
use fries_lines::Fault;
use std::alloc::Global;
use versions::Refusals;

/// What a command came to.
#[derive(Drop)]
pub struct Answer {
    /// What ended it early, if anything did.
    pub fault: Option<Fault>,
    /// The requests that judging refused; none where it came to no judging.
    pub refused: Refusals,
    /// What the run did, where one was completed.
    pub ran: Option<RunRecord>,
    /// Where the run began, if it began with a savepoint that was read.
    pub start: Option<Start>,
}

impl Answer {
    /// That of a command which stopped before it had judged or run anything. Takes no memory.
    pub fn stopped(alloc: Global, fault: Fault) -> Answer
        ensures { result ≡ stopped_for fault }
    {
        Answer {
            fault: Some(fault),
            refused: Refusals::new(alloc),
            ran: None,
            start: None,
        }
    }

    /// That of a command which completed a run. Takes no memory.
    pub fn of_run(done: Done, fault: Option<Fault>) -> Answer
        ensures fault { result.fault ≡ fault }
        ensures refused { result.refused ≡ done.refused }
        ensures ran { result.ran ≡ Some done.ran }
        ensures start { result.start ≡ None }
    {
        let Done { ran, refused, .. } = done;
        Answer {
            fault,
            refused,
            ran: Some(ran),
            start: None,
        }
    }
}
