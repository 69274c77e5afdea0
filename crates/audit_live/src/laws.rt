// Laws of the waits that a text shows. Each function proves its clauses from the definitions, and
// does nothing.
ghost use Rattle.std.specs.Prelude.{◌≡◌, ◌≤◌, ◌∷◌, ℕ, All, List, length};
ghost use Rattle.csv.specs.Reading.{default_config, records, strip_bom};
ghost use Rattle.sink_journal.specs.Audit.{audit_header, audit_records};
ghost use Rattle.sink_journal.specs.declared.audit.Noted.{Noted as NotedIs};
ghost use Rattle.tuple_trace.specs.declared.row.Row.{Row as RowIs};
ghost use Rattle.versions.specs.Kept.{AreInOrder};
ghost use Rattle.versions.specs.declared.request.Request.{Request as RequestIs};
ghost use Rattle.flow_model.specs.Run.{IsRun, Ran};
ghost use Rattle.flow_model.specs.SetupView.{SetupView};
ghost use Rattle.flow_model.specs.Waiting.{waiting_for, with_afters};
ghost use Rattle.coordinator.specs.Feeding.{issue_rows};
ghost use Rattle.flow_engine.specs.Recorded.{NoneIsEarly};
ghost use Rattle.audit_live.specs.Live.{IsRunLive};
ghost use Rattle.audit_live.specs.Shown.{shown_waits};

/// The waits that records show fit the requests, whatever the records are. There is one for each
/// request, in order, none is above the number of rows, and none is early.
pub fn shown_waits_fit()
    ensures one_each { (rows : ℕ) (accepted : List RequestIs) (told : List (List (List ℕ))) →
        length (shown_waits rows accepted told) ≡ length accepted }
    ensures in_order { (rows : ℕ) (accepted : List RequestIs) (told : List (List (List ℕ))) →
        AreInOrder 0 (with_afters (shown_waits rows accepted told) accepted) }
    ensures within { (rows : ℕ) (accepted : List RequestIs) (told : List (List (List ℕ))) →
        All (λ wait. wait ≤ rows) (shown_waits rows accepted told) }
    ensures not_early { (rows : ℕ) (accepted : List RequestIs) (told : List (List (List ℕ))) →
        NoneIsEarly rows accepted (with_afters (shown_waits rows accepted told) accepted) }
{}

/// If a text is the audit of a live run, the waits that it shows are the run's. So the run is one
/// of the setup whose requests wait for them.
pub fn live_runs_show_their_waits()
    ensures waits { (setup : SetupView) (rows : List RowIs) (refused : List NotedIs)
        (text : List ℕ) (ran : Ran) → IsRunLive setup rows ran →
        records default_config (strip_bom text) ≡ audit_header
        ∷ audit_records ran.setup.job refused ran.feeds ran.journals ran.states →
        shown_waits (length rows) setup.requests (records default_config (strip_bom text))
        ≡ issue_rows 0 ran.feeds }
    ensures run { (setup : SetupView) (rows : List RowIs) (refused : List NotedIs)
        (text : List ℕ) (ran : Ran) → IsRunLive setup rows ran →
        records default_config (strip_bom text) ≡ audit_header
        ∷ audit_records ran.setup.job refused ran.feeds ran.journals ran.states →
        IsRun (waiting_for (shown_waits (length rows) setup.requests
        (records default_config (strip_bom text))) setup) rows ran }
{}

/// A run of the setup whose requests wait as records show it is live: it issues each request after
/// these rows. Nothing is asked of the records.
pub fn runs_that_wait_as_shown_are_live()
    ensures waits { (setup : SetupView) (rows : List RowIs) (told : List (List (List ℕ)))
        (ran : Ran) → IsRun (waiting_for (shown_waits (length rows) setup.requests told) setup)
        rows ran → issue_rows 0 ran.feeds ≡ shown_waits (length rows) setup.requests told }
    ensures live { (setup : SetupView) (rows : List RowIs) (told : List (List (List ℕ)))
        (ran : Ran) → IsRun (waiting_for (shown_waits (length rows) setup.requests told) setup)
        rows ran → IsRunLive setup rows ran }
{}
