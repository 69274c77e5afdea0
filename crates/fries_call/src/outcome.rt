use flow_model::{RunRecord, Start};
use fries_lines::Fault;
use versions::Refusals;

/// What a call of the program came to.
#[derive(Drop)]
pub struct Outcome {
    /// The status that the program ends with: that of the fault; without one 0, and 8 where a
    /// request was refused.
    pub status: u8,
    /// What ended the call early, if anything did.
    pub fault: Option<Fault>,
    /// The requests that judging refused, in the order of their file; none where the call came to
    /// no judging.
    pub refused: Refusals,
    /// What the run did, if one was completed.
    pub ran: Option<RunRecord>,
    /// Where the run began, if the call read a savepoint and completed a run from there.
    pub start: Option<Start>,
}
