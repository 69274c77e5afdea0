ghost use Rattle.std.specs.Prelude.{ℕ};
ghost use Rattle.flow_model.specs.Run.{IsRun, Ran};
ghost use Rattle.flow_model.specs.Setup.{setup_view};
ghost use Rattle.savepoint.specs.Parts.{AreParts, joined};

use flow_model::Setup;
use tuple_trace::Rows;

/// Two parts of a run, joined, are a run of the whole setup and all rows.
///
/// So a joined record keeps every law of runs. The function only reads the rows.
pub fn parts_are_a_run(setup: &Setup, rows: &Rows)
    ensures { (row : ℕ) (first second : Ran) →
        AreParts (setup_view setup.now) rows.now row first second →
        IsRun (setup_view setup.now) rows.now (joined (setup_view setup.now) first second) }
{
    let _numbered = rows.as_slice();
}
