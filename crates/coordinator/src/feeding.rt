ghost use Rattle.std.specs.Prelude.{◌≡◌, Bool, IfOk, IsTrue, List, map};
ghost use Rattle.jobs.specs.Nodes.{AreFromSources};
ghost use Rattle.sink_journal.specs.declared.journal.Feed.{Feed as FeedIs};
ghost use Rattle.tuple_trace.specs.declared.row.Row.{Row as RowIs};
ghost use Rattle.flow_model.specs.Begin.{Begin, at_first};
ghost use Rattle.flow_model.specs.Setup.{setup_view};
ghost use Rattle.coordinator.specs.Feeding.{IsFeeder};
ghost use Rattle.coordinator.specs.Starts.{AreNewOuts, AreUnused};
ghost use Rattle.coordinator.specs.Turning.{IsFeederTurn};
ghost use Rattle.coordinator.specs.Views.{FeederIs};

use control_box::Poster;
use flow_model::Setup;
use lane_core::Lanes;
use sink_journal::Feeds;
use std::alloc::Global;
use tuple_trace::{FeedRows, Gate, NoMemory};

/// The outcome of a turn of a feeder.
#[derive(Clone, Copy, Debug, PartialEq, Eq)]
pub enum FeedTurn {
    /// An item was put, or a request was issued.
    Moved,
    /// A lane was full, or a worker hasn't turned all earlier requests that cover it.
    Idle,
    /// The feed has stopped.
    Done,
    /// Out of memory. The feeder is as before, and the turn may be called again.
    NoMemory,
}

/// What a finished feeder leaves: its feed, and the endpoints in the order of `make`.
#[derive(Drop)]
pub struct FeedParts<L: Lanes> {
    pub feeds: Feeds,
    pub outs: Vec<L::Tx>,
}

/// What a run asks of its feeder.
///
/// A live feeder issues a request only once its release was received and its row is fed, or after
/// the last row. Any other feeder issues a request directly after its row.
pub trait Feeding<L: Lanes>: Sized {
    /// What the feeder is made of besides endpoints and boxes.
    type Seed;

    /// What it leaves besides its feed and its endpoints.
    type Rest;

    ghost LIVE: { Bool };

    /// Whether requests wait for their release.
    const LIVE: bool;

    // The feeder: its feed, endpoints and boxes, and the releases that it loaded.
    ghost feeder: { Self → FeederIs };
    // What `finish` would leave now.
    ghost rest: { Self → Self.Rest };
    // How a seed, a feed and what is left go together.
    ghost kept: { Self.Seed → List FeedIs → Self.Rest → Type 0 };

    /// A feeder at the beginning of a run. `outs` are the endpoints of the lanes of all sources, in
    /// the order of the lanes' numbers. `posters` are those of all workers, in their order. A
    /// refusal gives all of them up.
    fn make(
        alloc: Global,
        setup: &Setup,
        outs: Vec<L::Tx>,
        posters: Vec<Poster>,
        seed: Self::Seed,
    ) -> Result<Self, NoMemory>
        requires outs { AreNewOuts (setup_view setup.now).job (map L.Tx.state outs.items) }
        requires boxes { AreUnused (setup_view setup.now) posters.items }
        ensures law { IfOk result (λ f. (rows : List RowIs)
            → IsFeeder LIVE (setup_view setup.now) (at_first (setup_view setup.now)) rows
            (feeder f)) }
        ensures kept { IfOk result (λ f. kept seed (feeder f).feeds (rest f)) }
        ensures outs { IfOk result (λ f. (feeder f).outs ≡ map L.Tx.state outs.items) }
        ensures boxes { IfOk result (λ f. (feeder f).boxes.posters ≡ posters.items) };

    /// One turn. It issues the request that is due, once each worker has turned all earlier ones
    /// that cover it. If none is due, it feeds the next row. If no row is left, it ends the next
    /// lane. If all lanes are ended, it stops. The setup is that of `make`, and the rows are the
    /// same at every turn.
    fn turn<G: Gate>(
        &mut self,
        need: &mut L::Need,
        setup: &Setup,
        rows: &FeedRows<'_>,
        gate: &G,
    ) -> FeedTurn
        requires law { (begin : Begin)
            × IsFeeder LIVE (setup_view setup.now) begin rows.now (feeder self.old) }
        requires rows { AreFromSources (setup_view setup.now).job rows.now }
        ensures turn { IsFeederTurn LIVE (setup_view setup.now) rows.now result (feeder self.old)
            (feeder self.new) }
        ensures kept { (seed : Self.Seed) → kept seed (feeder self.old).feeds (rest self.old)
            → kept seed (feeder self.new).feeds (rest self.new) };

    /// What a feeder leaves that has stopped. Takes no memory.
    fn finish(self) -> (FeedParts<L>, Self::Rest)
        requires { IsTrue (feeder self).stopped }
        ensures feeds { result.0.feeds ≡ (feeder self).feeds }
        ensures outs { (feeder self).outs ≡ map L.Tx.state result.0.outs.items }
        ensures rest { result.1 ≡ rest self };
}
