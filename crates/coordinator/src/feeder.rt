ghost use Rattle.std.specs.Prelude.{◌≡◌, ◌≤◌, IfOk, List, false, length, ⊤, map};
ghost use Rattle.tuple_trace.specs.declared.row.Row.{Row as RowIs};
ghost use Rattle.flow_model.specs.Begin.{Begin, at_first};
ghost use Rattle.flow_model.specs.Setup.{setup_view};
ghost use Rattle.coordinator.specs.Feeding.{IsFeeder};
ghost use Rattle.coordinator.specs.Starts.{AreNewOuts, AreUnused};
ghost use Rattle.coordinator.specs.Views.{FeederIs};

use crate::state::FeederState;
use crate::{FeedParts, FeedTurn, Feeding};
use control_box::Poster;
use flow_model::Setup;
use lane_core::Lanes;
use std::alloc::Global;
use std::marker::Model;
use tuple_trace::{FeedRows, Gate, NoMemory};

/// The feeder that issues each request directly after the row that the request names.
#[derive(Drop)]
pub struct Feeder<L: Lanes> {
    state: FeederState<L::Need, L::Tx>,
}

impl<L: Lanes> Model for Feeder<L> {
    ghost use Rattle.coordinator.specs.Views.{FeederIs};

    ghost Value = { FeederIs };

    ghost view = { λ f. f.state };
}

impl<L: Lanes> Feeder<L> {
    /// A feeder from a beginning on: it feeds the rows after the first `row`, and issues the requests
    /// after the first `turned`, which are those of the setup at most.
    ///
    /// `outs` are the endpoints of the lanes of all sources, in the order of the lanes' numbers.
    /// `posters` are those of all workers, in their order. The one error is out of memory; it gives
    /// all of them up.
    pub fn make_from(
        alloc: Global,
        setup: &Setup,
        outs: Vec<L::Tx>,
        posters: Vec<Poster>,
        row: u64,
        turned: u64,
    ) -> Result<Feeder<L>, NoMemory>
        requires turned { turned ≤ length (setup_view setup.now).requests }
        requires outs { AreNewOuts (setup_view setup.now).job (map L.Tx.state outs.items) }
        requires boxes { AreUnused (setup_view setup.now) posters.items }
        ensures law { IfOk result (λ (f : FeederIs). (begin : Begin) (rows : List RowIs)
            → begin.row ≡ row → begin.turned ≡ turned
            → IsFeeder false (setup_view setup.now) begin rows f) }
        ensures outs { IfOk result (λ (f : FeederIs). f.outs ≡ map L.Tx.state outs.items) }
        ensures boxes { IfOk result (λ (f : FeederIs). f.boxes.posters ≡ posters.items) }
    {
        let (row, turned) = (row as usize, turned as usize);
        let state = FeederState::make(alloc, setup, outs, posters, row, turned)?;
        Ok(Feeder { state })
    }
}

impl<L: Lanes> Feeding<L> for Feeder<L> {
    type Seed = ();

    type Rest = ();

    ghost LIVE = { false };

    const LIVE: bool = false;

    ghost feeder = { λ f. f };

    ghost rest = { λ f. tt };

    ghost kept = { λ seed feed rest. ⊤ };

    fn make(
        alloc: Global,
        setup: &Setup,
        outs: Vec<L::Tx>,
        posters: Vec<Poster>,
        _seed: (),
    ) -> Result<Feeder<L>, NoMemory>
        requires outs { AreNewOuts (setup_view setup.now).job (map L.Tx.state outs.items) }
        requires boxes { AreUnused (setup_view setup.now) posters.items }
        ensures law { IfOk result (λ (f : FeederIs). (rows : List RowIs)
            → IsFeeder false (setup_view setup.now) (at_first (setup_view setup.now)) rows f) }
        ensures kept { IfOk result (λ f. ⊤) }
        ensures outs { IfOk result (λ (f : FeederIs). f.outs ≡ map L.Tx.state outs.items) }
        ensures boxes { IfOk result (λ (f : FeederIs). f.boxes.posters ≡ posters.items) }
    {
        let state = FeederState::make(alloc, setup, outs, posters, 0, 0)?;
        Ok(Feeder { state })
    }

    fn turn<G: Gate>(
        &mut self,
        need: &mut L::Need,
        setup: &Setup,
        rows: &FeedRows<'_>,
        gate: &G,
    ) -> FeedTurn {
        self.state.turn(need, setup, rows, gate)
    }

    fn finish(self) -> (FeedParts<L>, ()) {
        let Feeder { state } = self;
        let (feeds, outs) = state.open();
        (FeedParts { feeds, outs }, ())
    }
}
