// What a worker sends stands on its lanes out.
ghost use Rattle.std.specs.Prelude.{◌≡◌, List, length, map};
ghost use Rattle.tuple_trace.specs.declared.tuple.Item.{Item as ItemIs};
ghost use Rattle.flow_model.specs.declared.topology.Lane.{Lane as LaneIs};
ghost use Rattle.flow_model.specs.Lanes.{lanes, lanes_out};
ghost use Rattle.flow_model.specs.SetupWorker.{setup_here};
ghost use Rattle.audit_restore.specs.Standing.{HasSent};

use crate::standing::Standing;
use flow_model::SetupWorker;
use flow_replay::LaneLists;
use std::collections::VecDeque;

/// Puts what a worker sends on its lanes out, in the order of their numbers.
pub(crate) fn send(who: SetupWorker<'_>, standing: &mut Standing, sent: LaneLists)
    requires { length standing.old ≡ length (lanes (setup_here who).job) }
    ensures { (on : LaneIs → List ItemIs)
        → sent ≡ map on (lanes_out (setup_here who.entry).job who.entry.number)
        → HasSent (setup_here who.entry).job who.entry.number on standing.old standing.new }
{
    let mut lists = VecDeque::from_vec(sent.into_vec());
    for number in who.setup.lanes_out(who.number) {
        if let Some(list) = lists.pop_front() {
            standing.set(*number as usize, list);
        }
    }
}
