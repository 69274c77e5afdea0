// Laws of runs over rows that no code holds. Each function proves its clauses, and does nothing.
ghost use Rattle.std.specs.Prelude.{◌≡◌, ℕ, IsTrue, List, drop, length};
ghost use Rattle.jobs.specs.Nodes.{AreFromSources};
ghost use Rattle.tuple_trace.specs.Rows.{AreRows};
ghost use Rattle.tuple_trace.specs.declared.row.Row.{Row};
ghost use Rattle.flow_model.specs.Begin.{Begin};
ghost use Rattle.flow_model.specs.Consistent.{IsConsistent};
ghost use Rattle.flow_model.specs.OneTable.{HasNoCounts};
ghost use Rattle.flow_model.specs.Run.{IsRun, IsRunSince, Ran};
ghost use Rattle.flow_model.specs.Serial.{IsSerial, SeesPrefix, serial};
ghost use Rattle.flow_model.specs.Setup.{setup_view};
ghost use Rattle.flow_model.specs.SetupView.{SetupView};
ghost use Rattle.flow_model.specs.declared.setup.Setup.{Setup};

/// A run from a beginning on is also a run of any other rows, if they are as many and the same
/// after the beginning's row.
pub fn rows_before_a_beginning_do_not_matter()
    ensures { (begin : Begin) (setup : SetupView) (rows others : List Row) (ran : Ran)
        → length others ≡ length rows → drop begin.row others ≡ drop begin.row rows
        → IsRunSince begin setup rows ran → IsRunSince begin setup others ran }
{}

/// A run of any numbered rows keeps the laws of runs, also if no code holds all of them.
///
/// Each row is consistent in it if the rows enter by sources of the job (`consistent`). In ordered
/// mode rows and requests have one order (`prefix`). If moreover no node counts, the sinks got what
/// each row makes by itself in that order (`landings`).
pub fn runs_of_any_rows_keep_the_laws()
    ensures consistent { (setup : Setup) (rows : List Row) (ran : Ran) → AreRows rows
        → AreFromSources (setup_view setup).job rows → IsRun (setup_view setup) rows ran
        → IsConsistent rows ran }
    ensures prefix { (setup : Setup) (rows : List Row) (ran : Ran) → AreRows rows
        → IsTrue (setup_view setup).ordered → IsRun (setup_view setup) rows ran
        → (row : ℕ) → SeesPrefix ran row (serial ran row) }
    ensures landings { (setup : Setup) (rows : List Row) (ran : Ran) → AreRows rows
        → IsTrue (setup_view setup).ordered → HasNoCounts (setup_view setup).job
        → AreFromSources (setup_view setup).job rows → IsRun (setup_view setup) rows ran
        → IsSerial rows ran }
{}
