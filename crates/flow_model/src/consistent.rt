ghost use Rattle.std.specs.Prelude.{List};
ghost use Rattle.jobs.specs.Nodes.{AreFromSources};
ghost use Rattle.tuple_trace.specs.Rows.{AreRows};
ghost use Rattle.tuple_trace.specs.declared.row.Row.{Row};
ghost use Rattle.flow_model.specs.Consistent.{IsConsistent};
ghost use Rattle.flow_model.specs.Run.{IsRun, Ran};
ghost use Rattle.flow_model.specs.Setup.{setup_view};

use crate::{Setup, runs_are_fresh, runs_are_one_table, runs_are_whole};

/// Every run over rows that enter by the job's sources is consistent: the laws of runs in one word,
/// for contracts to cite.
pub fn runs_are_consistent(setup: &Setup)
    ensures { (rows : List Row) (ran : Ran) → AreRows rows → IsRun (setup_view setup.now) rows ran
        → AreFromSources (setup_view setup.now).job rows → IsConsistent rows ran }
{
    runs_are_whole(setup);
    runs_are_fresh(setup);
    runs_are_one_table(setup);
}
