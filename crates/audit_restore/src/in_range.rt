// The counts at a start, in the range of their type.
ghost use Rattle.std.specs.FinMap.{entries};
ghost use Rattle.audit_laws.specs.Range.{AreInRange, BeginsInRange};

use flow_model::Start;
use keyed_state::Keyed;

/// Every count of each worker at a start is in the range of its type. The laws of `audit_laws` on
/// texts ask for it.
pub fn counts_are_in_range(start: &Start)
    ensures { BeginsInRange start.now }
{
    for state in start.states.as_slice() {
        are_in_range(state);
    }
}

fn are_in_range(state: &Keyed)
    ensures { AreInRange (entries state.now) }
{
    for (_key, count) in state.iter() {
        let _count = *count;
    }
}
