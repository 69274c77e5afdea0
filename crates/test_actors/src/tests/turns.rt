ghost use Rattle.std.specs.Prelude.{◌<◌, length};
ghost use Rattle.flow_model.specs.Setup.{setup_view};
ghost use Rattle.test_actors.specs.Crews.{AreLawfulWorkers};

use flow_model::Setup;
use flow_worker::{Turn, Worker};
use lane_core::Lanes;
use tuple_trace::Gate;

/// Lets the worker with this number take a turn.
pub fn turn_at<L: Lanes, G: Gate>(
    workers: &mut [Worker<L>],
    need: &mut L::Need,
    setup: &Setup,
    gate: &G,
    number: usize,
) -> Turn
    requires law { AreLawfulWorkers (setup_view setup.now) workers.old }
    requires within { number < length workers.old }
    ensures { AreLawfulWorkers (setup_view setup.now) workers.new }
{
    workers[number].turn(need, setup, gate)
}
