// Laws of savepoints. Each function proves its clause and does nothing but read the rows.
ghost use Rattle.std.specs.Prelude.{◌≡◌, ◌<◌, ◌≤◌, ◌^◌, ℕ, All, Ok, length, take};
ghost use Rattle.tuple_trace.specs.declared.row.Row.{Row};
ghost use Rattle.flow_model.specs.Begin.{Begin};
ghost use Rattle.flow_model.specs.Requests.{afters};
ghost use Rattle.flow_model.specs.Run.{IsRun, Ran};
ghost use Rattle.flow_model.specs.Setup.{setup_view};
ghost use Rattle.savepoint.specs.Parts.{first_of, issued_up_to, start_of};
ghost use Rattle.savepoint.specs.SaveReading.{CanSave, save_of};
ghost use Rattle.savepoint.specs.SaveText.{save_text};
ghost use Rattle.jobs.specs.Limits.{HasShortTexts};
ghost use Rattle.versions.specs.Kept.{HaveLimits};

use flow_model::Setup;
use tuple_trace::Rows;

/// The text of a beginning that can be saved is read as that beginning.
pub fn savepoints_are_read_again(setup: &Setup)
    ensures { (rows : ℕ) (begin : Begin) → CanSave (setup_view setup.now) rows begin →
        save_of (setup_view setup.now) rows (save_text (setup_view setup.now).job begin)
        ≡ Ok begin }
{}

/// The end of a first part can be saved.
///
/// The rows' texts and the requests' functions have to be within their limits, and there have to
/// be fewer than 2^63 rows and requests.
pub fn first_parts_can_be_saved(setup: &Setup, rows: &Rows)
    ensures { (row : ℕ) (ran : Ran) → row ≤ length rows.now → length rows.now < 2 ^ 63 →
        length (setup_view setup.now).requests < 2 ^ 63 →
        All (λ (row : Row). HasShortTexts row.tuple) rows.now →
        HaveLimits (setup_view setup.now).requests →
        IsRun (first_of (setup_view setup.now)
        (issued_up_to row (length rows.now) (afters (setup_view setup.now).requests)))
        (take row rows.now) ran → CanSave (setup_view setup.now) (length rows.now)
        (start_of row ran) }
{
    let _numbered = rows.as_slice();
}
