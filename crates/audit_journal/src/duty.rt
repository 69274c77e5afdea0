// What the law of journals asks of a worker.
ghost use Rattle.std.specs.Prelude.{◌≡◌, ◌<◌, ◌↔◌, All, Contains, IfNone, IfSome, IsTrue};
ghost use Rattle.flow_model.specs.Duties.{dues_after};
ghost use Rattle.flow_model.specs.Lanes.{lanes_in, marked_lanes};
ghost use Rattle.flow_model.specs.Law.{later_dues};
ghost use Rattle.flow_model.specs.SetupWorker.{setup_here, who_here};
ghost use Rattle.flow_model.specs.declared.topology.Lane.{Lane as LaneIs};
ghost use Rattle.audit_journal.specs.Course.{IsLaneInto, dues_from};

use crate::marks::Marks;
use flow_dag::MAX_EDGES;
use flow_model::{Lane, SetupWorker};

/// The first request after this one that covers the worker.
pub(crate) fn due_after(who: SetupWorker<'_>, last: u64) -> Option<u64>
    ensures { dues_from (setup_here who.entry) (who_here who.entry).node result
        ≡ dues_after (setup_here who.entry) last (who_here who.entry).node }
{
    match who.due_after(last) {
        Some(due) => Some(due.request),
        None => None,
    }
}

/// The request that the worker turns after this one.
pub(crate) fn later_due(who: SetupWorker<'_>, due: Option<u64>) -> Option<u64>
    ensures { dues_from (setup_here who.entry) (who_here who.entry).node result
        ≡ later_dues (dues_from (setup_here who.entry) (who_here who.entry).node due) }
{
    match due {
        Some(request) => due_after(who, request),
        None => None,
    }
}

/// Whether the lane is one into the worker.
pub(crate) fn is_lane_in(who: SetupWorker<'_>, lane: u32) -> bool
    ensures { IsTrue result ↔ Contains (lanes_in (setup_here who.entry).job who.entry.number) lane }
{
    match lane_into(who, lane) {
        Some(_) => true,
        None => false,
    }
}

/// Whether the lane is one that brings the worker the marker of the request.
pub(crate) fn brings_marker(who: SetupWorker<'_>, lane: u32, request: u64) -> bool
    ensures { IsTrue result
        ↔ Contains (marked_lanes (setup_here who.entry) who.entry.number request) lane }
{
    match lane_into(who, lane) {
        Some(found) => who.setup.covers_edge(request, found.edge),
        None => false,
    }
}

// The lane with this number, if it is one into the worker.
fn lane_into(who: SetupWorker<'_>, lane: u32) -> Option<Lane>
    ensures some { IfSome result
        (λ found. IsLaneInto (setup_here who.entry).job who.entry.number lane found) }
    ensures edge { IfSome result (λ found. found.edge < MAX_EDGES) }
    ensures none { IfNone result ((found : LaneIs) →
        ¬ IsLaneInto (setup_here who.entry).job who.entry.number lane found) }
{
    if lane as usize >= who.setup.topology.lanes.len() {
        return None;
    }
    let found = who.setup.lane(lane);
    if found.receiver != who.number {
        return None;
    }
    Some(found)
}

/// Whether each lane that brings the worker the marker of the request is among these.
pub(crate) fn has_markers(who: SetupWorker<'_>, request: u64, marks: &Marks) -> bool
    ensures { IsTrue result ↔ All (Contains marks.now)
        (marked_lanes (setup_here who.entry) who.entry.number request) }
{
    for lane in who.lanes_in() {
        if brings_marker(who, *lane, request) && !marks.has(*lane) {
            return false;
        }
    }
    true
}

/// Whether each of these lanes is marked.
pub(crate) fn has_all(lanes: &[u32], marks: &Marks) -> bool
    ensures { IsTrue result ↔ All (Contains marks.now) lanes.now }
{
    for lane in lanes {
        if !marks.has(*lane) {
            return false;
        }
    }
    true
}
