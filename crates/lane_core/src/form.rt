ghost use Rattle.std.specs.Prelude.{◌≡◌, ◌≤◌, [], ◌++◌, IfOk};

use crate::{Rx, Tx};
use flow_dag::Graph;
use std::alloc::Global;
use tuple_trace::{Item, Items, MAX_CAPACITY, NoMemory};

/// Where a lane begins: the graph of the job, and the number of the sending node.
#[derive(Clone, Copy, Debug, PartialEq, Eq)]
pub struct Origin {
    pub graph: Graph,
    pub from: u32,
}

/// The items that lie on a lane when it is settled, in order.
pub type Left = Items<Item>;

/// A form of lane.
pub trait Lanes: Send {
    /// What the calls of the ends take from the toolchain.
    type Need: Send + Drop;

    type Tx: Tx<Self::Need> + Send + Drop;

    type Rx: Rx<Self::Need> + Send + Drop;

    fn need(&self) -> Self::Need;

    /// The two ends of a new, empty lane with this number and origin, which holds at most `cap`
    /// items, 1 to 64.
    fn make(
        &self,
        alloc: Global,
        number: u32,
        cap: u32,
        origin: Origin,
    ) -> Result<(Self::Tx, Self::Rx), NoMemory>
        requires some { 1 ≤ cap }
        requires few { cap ≤ MAX_CAPACITY }
        ensures tx { IfOk result (λ (tx, rx). Self.Tx.state tx ≡ record {
          lane = (Self.Tx.state tx).lane;
          number = number;
          origin = origin;
          items = [];
          stalls = 0;
        }) }
        ensures rx { IfOk result (λ (tx, rx). Self.Rx.state rx ≡ Self.Tx.state tx) }
        ensures holds { IfOk result (λ (tx, rx). (Self.Tx.state tx).lane.capacity ≡ cap) };

    /// Ends a lane, and answers what was put on it and not taken. A refusal gives both ends up.
    fn settle(
        &self,
        alloc: Global,
        need: &mut Self::Need,
        tx: Self::Tx,
        rx: Self::Rx,
    ) -> Result<Left, NoMemory>
        requires { (Self.Tx.state tx).lane ≡ (Self.Rx.state rx).lane }
        ensures { IfOk result (λ left. (Self.Tx.state tx).items
            ≡ (Self.Rx.state rx).items ++ left) };
}
