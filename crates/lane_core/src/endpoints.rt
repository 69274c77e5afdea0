ghost use Rattle.std.specs.Prelude.{◌≡◌, IfErr, IfNone, IfSome, OnErr, OnOk};
ghost use Rattle.lane_core.specs.Lane.{EndpointIs, HasStalled, WasFull, after_item};
ghost use Rattle.lane_core.specs.Steady.{IsSteady, MayFollow};

use tuple_trace::Item;

/// The sending end of a lane. `N` is what its calls take from the toolchain.
pub trait Tx<N> {
    // The lane, the items that were put on it, and how many puts found it full.
    ghost state: { Self → EndpointIs };

    /// Puts an item behind those that were sent. A full lane hands it back; the contract says that
    /// as many were sent as it holds.
    fn put(&mut self, need: &mut N, item: Item) -> Result<(), Item>
        requires { MayFollow (state self.old).origin (state self.old).items item }
        ensures put { OnOk result (state self.new ≡ after_item item (state self.old)) }
        ensures refused { IfErr result (λ back. (back ≡ item)
            × HasStalled (state self.old) (state self.new)) }
        ensures was_full { OnErr result (WasFull (state self.old).lane.capacity
            (state self.old).items) };
}

/// The receiving end of a lane. `N` is what its calls take from the toolchain.
pub trait Rx<N> {
    // The lane, the items that were taken from it, and how many takes found it empty.
    ghost state: { Self → EndpointIs };

    /// Takes the next item. An empty lane gives none, which the number of stalls counts.
    fn take(&mut self, need: &mut N) -> Option<Item>
        ensures taken { IfSome result (λ item. state self.new ≡ after_item item (state self.old)) }
        ensures steady { IfSome result (λ item.
            IsSteady (state self.new).origin (state self.new).items) }
        ensures none { IfNone result (HasStalled (state self.old) (state self.new)) };
}
