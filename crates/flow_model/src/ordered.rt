// Laws of the runs of setups under which rows and requests have one order.
ghost use Rattle.std.specs.Prelude.{◌≡◌, ℕ, IsTrue};
ghost use Rattle.jobs.specs.Nodes.{AreFromSources};
ghost use Rattle.flow_model.specs.OneTable.{HasNoCounts};
ghost use Rattle.flow_model.specs.Run.{IsRun, Ran};
ghost use Rattle.flow_model.specs.Serial.{IsSerial, SeesPrefix, serial};
ghost use Rattle.flow_model.specs.Setup.{setup_view};

use crate::Setup;
use tuple_trace::Rows;

/// In every run of a setup that is ordered, each row comes behind some of the first requests and
/// before all others: it isn't old at a request up to the last one at which it is new, and not new
/// at any later one. So rows and requests have one order. And where no node counts, what comes to
/// the sinks is what each row makes by itself with the functions after the requests that it comes
/// behind.
pub fn ordered_runs_are_serial(setup: &Setup, rows: &Rows)
    ensures prefix { (ran : Ran) → IsRun (setup_view setup.now) rows.now ran
        → IsTrue (setup_view setup.now).ordered → (row : ℕ) → SeesPrefix ran row (serial ran row) }
    ensures landings { (ran : Ran) → IsRun (setup_view setup.now) rows.now ran
        → IsTrue (setup_view setup.now).ordered → HasNoCounts (setup_view setup.now).job
        → AreFromSources (setup_view setup.now).job rows.now → IsSerial rows.now ran }
{
    let _numbered = rows.as_slice();
}
