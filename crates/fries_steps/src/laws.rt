// Laws of two calls, and one of each. Each function proves its clauses, and does nothing but look
// at the rows.
ghost use Rattle.std.specs.Prelude.{◌≡◌, ℕ, Bool, List, Ok, false, length};
ghost use Rattle.jobs.specs.JobView.{JobView};
ghost use Rattle.jobs.specs.Nodes.{AreFromSources};
ghost use Rattle.versions.specs.declared.request.Request.{Request};
ghost use Rattle.flow_model.specs.Begin.{Begin};
ghost use Rattle.flow_model.specs.Record.{record_view};
ghost use Rattle.flow_model.specs.Setup.{setup_view};
ghost use Rattle.flow_model.specs.declared.setup.Setup.{Setup as SetupIs};
ghost use Rattle.savepoint.specs.Parts.{start_of};
ghost use Rattle.savepoint.specs.SaveReading.{save_of};
ghost use Rattle.fries_steps.specs.OneRun.{AreOneRun, GoesOn};
ghost use Rattle.fries_steps.specs.Outcomes.{FilesEndWhole};
ghost use Rattle.fries_steps.specs.Parts.{IsFirstPart};
ghost use Rattle.fries_steps.specs.Running.{saved_of};
ghost use Rattle.fries_steps.specs.SetupFor.{AreSame, IsSetupFor};
ghost use Rattle.fries_steps.specs.declared.running.Done.{Done};

use flow_model::{Setup, runs_are_consistent};
use tuple_trace::Rows;

/// Two calls that judge the same requests of one job in one mode have the same setup.
pub fn same_requests_have_one_setup()
    ensures { (ordered : Bool) (job : JobView) (requests : List Request) (first second : SetupIs) →
        IsSetupFor AreSame ordered job requests first →
        IsSetupFor AreSame ordered job requests second → setup_view first ≡ setup_view second }
{}

/// `resume` reads what `save` wrote as where its run ended, if both have the same job and requests
/// and as many rows.
///
/// So if the rows are the same too, what both leave are parts of one run. Joined they are a run of
/// all rows, and it is consistent. `setup` is that of the later call.
pub fn saved_runs_go_on(setup: &Setup, rows: &Rows)
    ensures reads { (row : ℕ) (job : JobView) (requests : List Request) (first : Done) →
        IsFirstPart row job requests rows.now first →
        IsSetupFor AreSame false job requests setup.now →
        save_of (setup_view setup.now) (length rows.now) (saved_of first)
        ≡ Ok (start_of row (record_view first.ran)) }
    ensures one_run { (row : ℕ) (job : JobView) (requests : List Request) (start : Begin)
        (first second : Done) → AreFromSources job rows.now →
        IsFirstPart row job requests rows.now first →
        GoesOn job requests rows.now setup.now start first second →
        AreOneRun (setup_view setup.now) rows.now row (record_view first.ran)
        (record_view second.ran) }
{
    rows.are_numbered();
    runs_are_consistent(setup);
}

/// However a call ends whose run was completed, each file is as before or whole.
pub fn files_end_whole()
    ensures { FilesEndWhole }
{}
