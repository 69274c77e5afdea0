// What the law of a feeder says. The function proves its clauses, and does nothing.
ghost use Rattle.std.specs.Prelude.{◌≡◌, ◌↔◌, ℕ, suc, Contains, List, [], ◌∷◌, ◌++◌, Some, false};
ghost use Rattle.std.specs.Prelude.{length, slice_get, true};
ghost use Rattle.sink_journal.specs.declared.journal.Feed.{Feed as FeedIs};
ghost use Rattle.sink_journal.specs.declared.journal.Feed.TheVariants.{Issued, Stopped};
ghost use Rattle.tuple_trace.specs.declared.row.Row.{Row as RowIs};
ghost use Rattle.flow_model.specs.Begin.{Begin};
ghost use Rattle.flow_model.specs.Feeding.{feed_from};
ghost use Rattle.flow_model.specs.Lanes.{lanes};
ghost use Rattle.flow_model.specs.SetupView.{SetupView};
ghost use Rattle.flow_model.specs.declared.topology.Lane.{Lane};
ghost use Rattle.flow_model.specs.Requests.{afters};
ghost use Rattle.flow_model.specs.Run.{Ran, put_by};
ghost use Rattle.coordinator.specs.Due.{IsDue};
ghost use Rattle.coordinator.specs.Feeding.{IsFeeder, IsFeeding};
ghost use Rattle.coordinator.specs.Meaning.{HasSentAll, IsFront, SendsTheFeed};
ghost use Rattle.coordinator.specs.Views.{FeederIs};
ghost use Rattle.lane_core.specs.Lane.{EndpointIs};

/// The feed so far is the front of the feed of the rows that the requests wait for. Each lane has
/// sent what the feed so far puts there, followed by at most one end of the stream. A request that
/// is due comes next in the feed. A feeder that has stopped has recorded it, its feed is the whole
/// feed, and each lane has sent what a run's feeder puts there.
pub fn feeders_follow_the_feed()
    ensures front { (setup : SetupView) (begin : Begin) (waits : List ℕ) (rows : List RowIs)
        (f : FeederIs) → IsFeeding setup begin waits rows f → IsFront begin waits rows f }
    ensures next { (setup : SetupView) (begin : Begin) (rows : List RowIs) (f : FeederIs)
        → IsFeeder false setup begin rows f → f.stopped ≡ false
        → IsDue false setup rows f.loads f → (more : List FeedIs)
        × (feed_from begin.row begin.turned (afters setup.requests) (length rows)
        ≡ f.feeds ++ Issued (suc f.issued) ∷ more) }
    ensures sends { (setup : SetupView) (begin : Begin) (waits : List ℕ) (rows : List RowIs)
        (f : FeederIs) → IsFeeding setup begin waits rows f → SendsTheFeed setup begin rows f }
    ensures all { (setup : SetupView) (begin : Begin) (waits : List ℕ) (rows : List RowIs)
        (f : FeederIs) → IsFeeding setup begin waits rows f → f.stopped ≡ true
        → HasSentAll setup begin rows f }
    ensures whole { (setup : SetupView) (begin : Begin) (waits : List ℕ) (rows : List RowIs)
        (f : FeederIs) → IsFeeding setup begin waits rows f → f.stopped ≡ true
        → f.feeds ≡ feed_from begin.row begin.turned waits (length rows) }
    ensures recorded { (setup : SetupView) (begin : Begin) (waits : List ℕ) (rows : List RowIs)
        (f : FeederIs) → IsFeeding setup begin waits rows f
        → (f.stopped ≡ true) ↔ Contains f.feeds Stopped }
    ensures puts { (setup : SetupView) (begin : Begin) (waits : List ℕ) (rows : List RowIs)
        (f : FeederIs) (ran : Ran) → IsFeeding setup begin waits rows f → f.stopped ≡ true
        → ran.setup ≡ setup → ran.feeds ≡ f.feeds
        → (k : ℕ) (out : EndpointIs) → slice_get f.outs k ≡ Some out → (lane : Lane)
        × (slice_get (lanes setup.job) out.number ≡ Some lane)
        × (put_by begin rows ran lane lane.sender ≡ Some out.items) }
{}
