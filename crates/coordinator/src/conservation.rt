// What finished workers and settled lanes leave. The function proves its clause, and does nothing.
ghost use Rattle.std.specs.Prelude.{◌≡◌, ◌++◌, ℕ, List, Some, slice_get};
ghost use Rattle.sink_journal.specs.declared.journal.Entry.{Entry as EntryIs};
ghost use Rattle.tuple_trace.specs.declared.row.Row.{Row as RowIs};
ghost use Rattle.tuple_trace.specs.declared.tuple.Item.{Item as ItemIs};
ghost use Rattle.flow_model.specs.Begin.{Begin};
ghost use Rattle.flow_model.specs.Lanes.{lanes};
ghost use Rattle.flow_model.specs.declared.topology.Lane.{Lane};
ghost use Rattle.flow_model.specs.Replay.{shown};
ghost use Rattle.flow_model.specs.Run.{Ran, put_by};
ghost use Rattle.coordinator.specs.Conservation.{AreFinished, IsConservedLane};

/// Where each worker is finished, a lane whose receiver took what its journal shows, and whose
/// sender put what a run's sender puts there, is settled
/// with nothing left, and shows what was put on it.
pub fn finished_lanes_are_conserved()
    ensures { (begin : Begin) (rows : List RowIs) (ran : Ran) (n : ℕ) (lane : Lane) (journal : List
        EntryIs) (sent taken left : List ItemIs) → AreFinished begin ran
        → slice_get (lanes ran.setup.job) n ≡ Some lane
        → slice_get ran.journals lane.receiver ≡ Some journal
        → put_by begin rows ran lane lane.sender ≡ Some sent
        → taken ≡ shown ran.setup n journal → sent ≡ taken ++ left
        → IsConservedLane begin rows ran n lane journal left }
{}
