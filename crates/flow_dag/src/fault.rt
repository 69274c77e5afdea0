ghost use Rattle.std.specs.Prelude.{◌≡◌};
ghost use Rattle.flow_dag.specs.declared.fault.DagFault.TheVariants.{NoMemory};

use std::alloc::AllocError;

/// Why a list of edges makes no [`Dag`](crate::Dag), in the order in which the faults are looked
/// for.
#[derive(Clone, Copy, Debug, PartialEq, Eq)]
pub enum DagFault {
    /// The first edge, by its place in the list, that names a node which isn't there.
    NodeRange(u32),
    /// The first edge, by its place in the list, that has the ends of an earlier one.
    Repeated(u32),
    /// The least node from which a path leads back to it.
    Cycle(u32),
    /// Nothing is wrong with the edges, but there was no memory to keep them.
    NoMemory,
}

impl From<AllocError> for DagFault {
    ghost from_gives = { λ _ fault. fault ≡ NoMemory };

    fn from(_error: AllocError) -> DagFault {
        DagFault::NoMemory
    }
}
