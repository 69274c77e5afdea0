ghost use Rattle.std.specs.Prelude.{◌≡◌, ◌<◌, ℕ, IfErr, List, OnOk, [], ◌∷◌, ◌++◌, Some, length};
ghost use Rattle.std.specs.Prelude.{slice_get, slice_set, map};
ghost use Rattle.tuple_trace.specs.Counts.{Rose};
ghost use Rattle.tuple_trace.specs.declared.tuple.Item.TheVariants.{Carry};
ghost use Rattle.lane_core.specs.Steady.{MayFollow};
ghost use Rattle.lane_core.specs.Lane.{EndpointIs, after_item};

use lane_core::Tx;
use std::marker::{Model, PhantomData};
use tuple_trace::{Item, Tuple};

/// The sending endpoints of the lanes of all sources.
#[derive(Drop)]
pub struct Outs<N, T: Tx<N>> {
    endpoints: Vec<T>,
    need: PhantomData<N>,
}

impl<N, T: Tx<N>> Model for Outs<N, T> {
    ghost use Rattle.std.specs.Prelude.{List, map};
    ghost use Rattle.lane_core.specs.Lane.{EndpointIs};

    ghost Value = { List EndpointIs };

    ghost view = { λ o. map T.state o.endpoints.items };
}

impl<N, T: Tx<N>> Outs<N, T> {
    pub fn of(endpoints: Vec<T>) -> Outs<N, T>
        ensures { result ≡ map T.state endpoints.items }
    {
        Outs {
            endpoints,
            need: PhantomData,
        }
    }

    pub fn open(self) -> Vec<T>
        ensures { self ≡ map T.state result.items }
    {
        let Outs { endpoints, .. } = self;
        endpoints
    }

    pub fn len(&self) -> usize
        ensures { result ≡ length self.now }
    {
        self.endpoints.len()
    }

    /// Puts an item on the lane at this place. A full lane hands it back.
    pub fn put(&mut self, need: &mut N, place: usize, item: Item) -> Result<(), Item>
        requires place { place < length self.old }
        requires steady { (o : EndpointIs) → slice_get self.old place ≡ Some o
            → MayFollow o.origin o.items item }
        ensures put { OnOk result ((o : EndpointIs) × (slice_get self.old place ≡ Some o)
            × (self.new ≡ slice_set self.old place (after_item item o))) }
        ensures full { IfErr result (λ back. (back ≡ item) × ((o : EndpointIs) × (n : ℕ)
            × (slice_get self.old place ≡ Some o)
            × (self.new ≡ slice_set self.old place (record o { stalls = n })) × Rose o.stalls n)) }
    {
        self.endpoints[place].put(need, item)
    }

    /// Puts a tuple on the lane at this place. A full lane hands it back.
    pub fn feed(&mut self, need: &mut N, place: usize, tuple: Tuple) -> Result<(), Tuple>
        requires place { place < length self.old }
        requires steady { (o : EndpointIs) → slice_get self.old place ≡ Some o
            → MayFollow o.origin o.items (Carry tuple) }
        ensures put { OnOk result ((o : EndpointIs) × (slice_get self.old place ≡ Some o)
            × (self.new ≡ slice_set self.old place (after_item (Carry tuple) o))) }
        ensures full { IfErr result (λ back. (back ≡ tuple) × ((o : EndpointIs) × (n : ℕ)
            × (slice_get self.old place ≡ Some o)
            × (self.new ≡ slice_set self.old place (record o { stalls = n })) × Rose o.stalls n)) }
    {
        match self.put(need, place, Item::Carry(tuple)) {
            Ok(()) => Ok(()),
            Err(Item::Carry(back)) => Err(back),
            Err(Item::Mark { .. } | Item::Last) => unreachable!(),
        }
    }
}
