// What turns that follow each other come to. The function proves its clause, and does nothing.
ghost use Rattle.std.specs.Prelude.{◌≡◌, ◌<◌, ℕ, List, ◌∷◌, Some, true};
ghost use Rattle.marker_align.specs.declared.decision.Due.{Due as DueIs};
ghost use Rattle.flow_model.specs.Begin.{Begin};
ghost use Rattle.flow_model.specs.Setup.{setup_view};
ghost use Rattle.flow_worker.specs.Pairs.{EachOne};
ghost use Rattle.flow_worker.specs.Turning.{AreTurns, Polled, TurnsNext};
ghost use Rattle.flow_worker.specs.Worker.{IsWorker, WorkerIs};

use flow_model::Setup;

/// Control overtakes tuples, over any number of turns. Once a poll has shown the due of a head, the
/// next entry of the worker's journal is the turn of that due. So no tuple is processed between the
/// two, also if turns between them ran out of memory.
pub fn control_overtakes_tuples(setup: &Setup)
    ensures { (begin : Begin) (w v : WorkerIs) (later : List WorkerIs) (n : ℕ) (due : DueIs) →
        IsWorker (setup_view setup.now) begin w →
        AreTurns (setup_view setup.now) w (v ∷ later) →
        Polled w v n → w.due ≡ Some due → due.head ≡ true → w.owner.turned < n →
        EachOne (TurnsNext due.request w) (v ∷ later) }
{}
