// Laws of every run. Each function proves its clauses from the definitions alone, and does nothing.
// They speak of any rows that are numbered and were nowhere yet, in memory or not.
ghost use Rattle.std.specs.Prelude.{◌≡◌, ℕ, All, List, Some, length, slice_get};
ghost use Rattle.flow_dag.specs.declared.graph.Graph.{Graph};
ghost use Rattle.jobs.specs.Nodes.{AreFromSources};
ghost use Rattle.keyed_state.specs.Counts.{Counts};
ghost use Rattle.sink_journal.specs.declared.journal.Entry.{Entry as EntryIs};
ghost use Rattle.tuple_trace.specs.Rows.{AreRows};
ghost use Rattle.tuple_trace.specs.declared.row.Row.{Row};
ghost use Rattle.flow_model.specs.Agreement.{Agreement, IsGraphOf, SendsSteadily, WorksSteadily};
ghost use Rattle.flow_model.specs.Begin.{Begin, at_first};
ghost use Rattle.flow_model.specs.Fresh.{IsFresh, IsFreshBefore};
ghost use Rattle.flow_model.specs.OneTable.{HasNoCounts, IsOneTable};
ghost use Rattle.flow_model.specs.SetupView.{Worker};
ghost use Rattle.flow_model.specs.Run.{IsRun, Ran};
ghost use Rattle.flow_model.specs.Setup.{setup_view};
ghost use Rattle.flow_model.specs.Whole.{IsMetOnce, IsOneSided, IsWhole, asked_workers};
ghost use Rattle.flow_model.specs.Workers.{workers_in};

use crate::Setup;

/// The law of one worker, whatever the others do. Where its journal is lawful so far, and what its
/// lanes have delivered is steady on each, the tuples that it met agree with its turns, and what
/// it sends is steady on every lane.
pub fn workers_keep_steady(setup: &Setup)
    ensures agreement { (graph : Graph) (begin : Begin) (who : Worker) (journal : List EntryIs)
        → IsGraphOf (setup_view setup.now).job graph
        → WorksSteadily (setup_view setup.now) graph begin who journal
        → Agreement (setup_view setup.now) journal }
    ensures steady { (graph : Graph) (begin : Begin) (who : Worker) (counts : Counts)
        (journal : List EntryIs) → IsGraphOf (setup_view setup.now).job graph
        → WorksSteadily (setup_view setup.now) graph begin who journal
        → SendsSteadily (setup_view setup.now) graph begin who counts journal }
{}

/// In every run each row is whole at each request: the workers of the nodes that the request
/// changes meet it before their turns alone, or after them alone, and so do those of all nodes that
/// its plan asks. Each identity is met once at the workers of a node. And each worker's tuples
/// agree with its turns.
pub fn runs_are_whole(setup: &Setup)
    ensures whole { (rows : List Row) (ran : Ran) → AreRows rows
        → IsRun (setup_view setup.now) rows ran → (request row : ℕ) → IsWhole ran request row }
    ensures asked { (rows : List Row) (ran : Ran) → AreRows rows
        → IsRun (setup_view setup.now) rows ran → (request row : ℕ)
        → IsOneSided ran request row (asked_workers ran.setup request) }
    ensures once { (rows : List Row) (ran : Ran) → AreRows rows
        → IsRun (setup_view setup.now) rows ran → (node : ℕ) → IsMetOnce ran node }
    ensures agreement { (rows : List Row) (ran : Ran) → AreRows rows
        → IsRun (setup_view setup.now) rows ran → All (Agreement ran.setup) ran.journals }
{}

/// In every run the law of one worker applies to each: its journal is lawful, and its lanes have
/// delivered steady lists.
pub fn runs_keep_steady(setup: &Setup)
    ensures { (rows : List Row) (ran : Ran) (graph : Graph) (w : ℕ) (who : Worker)
        (journal : List EntryIs) → AreRows rows → IsRun (setup_view setup.now) rows ran
        → IsGraphOf ran.setup.job graph → slice_get (workers_in ran.setup.job) w ≡ Some who
        → slice_get ran.journals w ≡ Some journal → WorksSteadily ran.setup graph
        (at_first ran.setup) who journal }
{}

/// In every run a request is in force at the heads of its cover in time. Where it is a head's next
/// due, a tuple that the head meets is of a row up to the one after which the request was issued.
/// If a head was only a head to every earlier request that covers it, this holds of every tuple
/// that it meets before the turn.
pub fn runs_are_fresh(setup: &Setup)
    ensures due { (rows : List Row) (ran : Ran) → AreRows rows
        → IsRun (setup_view setup.now) rows ran → IsFresh (length rows) ran }
    ensures before { (rows : List Row) (ran : Ran) → AreRows rows
        → IsRun (setup_view setup.now) rows ran → IsFreshBefore (length rows) ran }
{}

/// In every run of a job without counts, whose rows enter by its sources, what comes to the sinks
/// is what each row makes by itself where each node has one function for the row: that of the
/// latest request that changes the node and at which the row is new, and else the job's.
pub fn runs_are_one_table(setup: &Setup)
    ensures { (rows : List Row) (ran : Ran) → AreRows rows → IsRun (setup_view setup.now) rows ran
        → HasNoCounts (setup_view setup.now).job → AreFromSources (setup_view setup.now).job rows
        → IsOneTable rows ran }
{}
