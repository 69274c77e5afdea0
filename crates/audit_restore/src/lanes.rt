// Whether the entries of lanes are the items that stand on them.
ghost use Rattle.std.specs.Prelude.{◌≡◌, IfErr, OnOk, length};
ghost use Rattle.flow_model.specs.Lanes.{lanes};
ghost use Rattle.flow_model.specs.SetupWorker.{setup_here};
ghost use Rattle.audit_restore.specs.Restored.{AgreeBelow, IsLaneFault};

use crate::by_lane::{ByLane, are_items};
use crate::standing::Standing;
use audit_fault::AuditFault;
use audit_laws::AuditEntry;
use flow_model::SetupWorker;
use std::alloc::Global;

/// Whether the entries of each lane into a worker are the items that stand on it.
///
/// # Errors
///
/// The least lane of which they aren't, or out of memory.
pub(crate) fn check_lanes(
    alloc: Global,
    who: SetupWorker<'_>,
    standing: &Standing,
    journal: &[AuditEntry],
) -> Result<(), AuditFault>
    requires { length standing.now ≡ length (lanes (setup_here who).job) }
    ensures ok { OnOk result (AgreeBelow (setup_here who.entry) standing.now who.entry.number
        journal.now (length (lanes (setup_here who.entry).job))) }
    ensures fault { IfErr result (IsLaneFault (setup_here who.entry) standing.now who.entry.number
        journal.now) }
{
    let entries = ByLane::of(alloc, standing.len(), journal)?;
    for lane in who.lanes_in() {
        let place = *lane as usize;
        if !are_items(*lane, standing.on(place), entries.on(place)) {
            return Err(AuditFault::Lane(*lane));
        }
    }
    Ok(())
}
