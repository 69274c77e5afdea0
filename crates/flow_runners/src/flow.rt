ghost use Rattle.jobs.specs.Nodes.{AreFromSources};
ghost use Rattle.flow_model.specs.Setup.{setup_view};

use flow_model::Setup;
use tuple_trace::FeedRows;

/// What is run: a setup, and rows from sources of its job.
#[derive(Clone, Copy)]
pub struct Flow<'a> {
    pub setup: &'a Setup,
    pub rows: &'a FeedRows<'a>,
    ghost sources: { AreFromSources (setup_view setup.now).job rows.now },
}
