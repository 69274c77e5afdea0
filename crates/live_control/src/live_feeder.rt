ghost use Rattle.std.specs.Prelude.{◌≡◌, IfOk, List, true, map};
ghost use Rattle.tuple_trace.specs.declared.row.Row.{Row as RowIs};
ghost use Rattle.flow_model.specs.Begin.{at_first};
ghost use Rattle.flow_model.specs.Setup.{setup_view};
ghost use Rattle.coordinator.specs.Feeding.{IsFeeder};
ghost use Rattle.coordinator.specs.Live.{Hears};
ghost use Rattle.coordinator.specs.Starts.{AreNewOuts, AreUnused};
ghost use Rattle.live_control.specs.Kept.{IsKept, LiveIs};

use crate::Inbox;
use control_box::Poster;
use coordinator::{FeedParts, FeedTurn, FeederState, Feeding};
use flow_model::Setup;
use lane_core::Lanes;
use std::alloc::Global;
use std::marker::Model;
use tuple_trace::{FeedRows, Gate, NoMemory};

/// The feeder that issues a request once its release was received and its row is fed, or after the
/// last row.
#[derive(Drop)]
pub struct LiveFeeder<L: Lanes> {
    state: FeederState<L::Need, L::Tx>,
    inbox: Inbox,
}

impl<L: Lanes> Model for LiveFeeder<L> {
    ghost use Rattle.coordinator.specs.Live.{IsFromFirst};
    ghost use Rattle.coordinator.specs.Views.{FeederIs};
    ghost use Rattle.live_control.specs.Kept.{LiveIs};

    ghost Value = { LiveIs };

    ghost view = { λ f. record {
      feeder = record f.state { loads = f.inbox.loads };
      inbox = f.inbox;
    } };

    ghost invariant = { λ f. IsFromFirst f.state };
}

impl<L: Lanes> Feeding<L> for LiveFeeder<L> {
    type Seed = Inbox;

    type Rest = Inbox;

    ghost LIVE = { true };

    const LIVE: bool = true;

    ghost feeder = { λ f. f.feeder };

    ghost rest = { λ f. f.inbox };

    ghost kept = { λ seed feeds rest. IsKept seed feeds rest };

    fn make(
        alloc: Global,
        setup: &Setup,
        outs: Vec<L::Tx>,
        posters: Vec<Poster>,
        seed: Inbox,
    ) -> Result<LiveFeeder<L>, NoMemory>
        requires outs { AreNewOuts (setup_view setup.now).job (map L.Tx.state outs.items) }
        requires boxes { AreUnused (setup_view setup.now) posters.items }
        ensures law { IfOk result (λ (f : LiveIs). (rows : List RowIs)
            → IsFeeder true (setup_view setup.now) (at_first (setup_view setup.now)) rows
            f.feeder) }
        ensures kept { IfOk result (λ (f : LiveIs). IsKept seed f.feeder.feeds f.inbox) }
        ensures outs { IfOk result (λ (f : LiveIs). f.feeder.outs ≡ map L.Tx.state outs.items) }
        ensures boxes { IfOk result (λ (f : LiveIs). f.feeder.boxes.posters ≡ posters.items) }
    {
        let state = FeederState::make(alloc, setup, outs, posters, 0, 0)?;
        Ok(LiveFeeder { state, inbox: seed })
    }

    fn turn<G: Gate>(
        &mut self,
        need: &mut L::Need,
        setup: &Setup,
        rows: &FeedRows<'_>,
        gate: &G,
    ) -> FeedTurn {
        let released = released(&mut self.inbox, setup.request_count() as u64);
        self.state.live_turn(need, setup, rows, gate, released)
    }

    fn finish(self) -> (FeedParts<L>, Inbox) {
        let LiveFeeder { state, inbox } = self;
        let (feeds, outs) = state.open();
        (FeedParts { feeds, outs }, inbox)
    }
}

// How many of `requests` requests are released. It loads the number, unless earlier loads show that
// all are released.
fn released(inbox: &mut Inbox, requests: u64) -> u64
    ensures line { inbox.new.line ≡ inbox.old.line }
    ensures hears { Hears requests result inbox.old.loads inbox.new.loads }
{
    let last = inbox.last_heard();
    if last >= requests {
        return last;
    }
    inbox.heard()
}
