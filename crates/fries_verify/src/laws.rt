// Laws of what an audit is of. Each function proves its clause, and does nothing.
ghost use Rattle.std.specs.Prelude.{ℕ, List, Option};
ghost use Rattle.stream_replay.specs.InParts.{Records};
ghost use Rattle.fries_verify.specs.Audits.{AreShown, AreStreamsShown, HaveOneVerdict};
ghost use Rattle.fries_verify.specs.Audits.{later_subject, live_subject, shown_subject};
ghost use Rattle.fries_verify.specs.Audits.{stream_subject, subject_of};

use audit_laws::{texts_have_one_fault, texts_of_runs_have_no_fault, written_audits_fit};
use audit_live::{live_runs_show_their_waits, shown_waits_fit};
use audit_parts::written_parts_are_found;
use audit_restore::counts_are_in_range;
use audit_stream::parts_are_put_together;
use flow_model::{Setup, Start};
use fries_lines::refused_are_noted;
use stream_replay::runs_are_told_in_parts;
use tuple_trace::Rows;

/// No text is the audit of a run and refused, and none is refused for two faults.
pub(crate) fn texts_have_one_verdict(setup: &Setup, rows: &Rows)
    ensures { HaveOneVerdict (subject_of setup.now rows.now) }
{
    texts_of_runs_have_no_fault(setup, rows);
    texts_have_one_fault(setup);
    refused_are_noted(setup.judged.refused.as_slice());
}

/// The same of runs that begin from a start.
pub(crate) fn later_texts_have_one_verdict(setup: &Setup, start: &Start, rows: &Rows)
    ensures { HaveOneVerdict (later_subject start.now setup.now rows.now) }
{
    counts_are_in_range(start);
    texts_of_runs_have_no_fault(setup, rows);
    texts_have_one_fault(setup);
    refused_are_noted(setup.judged.refused.as_slice());
}

/// The same of runs whose requests wait for the rows that records show. These and the parts of the
/// audit are read of a text in any way.
fn shown_texts_have_one_verdict(setup: &Setup, rows: &Rows)
    ensures { (read : List ℕ → Records) (parts : List ℕ → Option (List Records)) →
        HaveOneVerdict (λ bytes. record (shown_subject setup.now rows.now (read bytes)) {
          parts = parts bytes;
        }) }
{
    let _numbered = rows.as_slice();
    let _request_count = setup.request_count();
    let _plan_count = setup.plans.len();
    shown_waits_fit();
    written_audits_fit();
    refused_are_noted(setup.judged.refused.as_slice());
}

/// The same of the audits of `live`.
pub(crate) fn live_texts_have_one_verdict(setup: &Setup, rows: &Rows)
    ensures { HaveOneVerdict (live_subject setup.now rows.now) }
{
    shown_texts_have_one_verdict(setup, rows);
}

/// The same of the audits of `stream`, whose parts are put together.
pub(crate) fn stream_texts_have_one_verdict(setup: &Setup, rows: &Rows)
    ensures { HaveOneVerdict (stream_subject setup.now rows.now) }
{
    shown_texts_have_one_verdict(setup, rows);
}

/// Whatever rows the requests of a live run wait for, its audit shows them.
pub(crate) fn live_runs_are_shown(setup: &Setup, rows: &Rows)
    ensures { AreShown setup.now rows.now }
{
    live_runs_show_their_waits();
}

/// The same of parts of a stream that were run in turn, and are together a live run.
pub fn streams_are_shown(setup: &Setup, rows: &Rows)
    ensures { AreStreamsShown setup.now rows.now }
{
    parts_are_put_together(&setup.job);
    written_parts_are_found();
    runs_are_told_in_parts();
    live_runs_show_their_waits();
    written_audits_fit();
}
