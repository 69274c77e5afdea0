// The first three passes: what a text tells of the requests, of the feeder and of the workers.
ghost use Rattle.std.specs.Prelude.{◌≡◌, IfErr, IfOk, List, OnOk, length};
ghost use Rattle.flow_model.specs.Setup.{setup_view};
ghost use Rattle.flow_model.specs.Workers.{workers_in};
ghost use Rattle.audit_laws.specs.Delivered.{feed_of};
ghost use Rattle.audit_laws.specs.declared.audit.Line.{Line as LineIs};
ghost use Rattle.audit_laws.specs.Fits.{csv_records};
ghost use Rattle.audit_laws.specs.Lines.{feeds_in, refusals_in};
ghost use Rattle.audit_laws.specs.Verdict.{AreInShape, IsFirstFault};
ghost use Rattle.audit_check.specs.Telling.{Tells};

use crate::{Told, check_feed, check_refused, feed_of_rows, read_audit};
use audit_fault::AuditFault;
use flow_model::{Setup, Start};
use sink_journal::{Feeds, Noted};
use std::alloc::Global;
use tuple_trace::Rows;

/// What a text tells of the workers, and the feed of these rows from this beginning on. The text is
/// in shape, and tells these refused requests and this feed.
///
/// # Errors
///
/// The first fault of the text, as far as it is one of the first three codes, or out of memory.
pub fn check_text(
    alloc: Global,
    setup: &Setup,
    start: &Start,
    refused: &[Noted],
    rows: &Rows,
    bytes: &[u8],
) -> Result<(Told, Feeds), AuditFault>
    ensures feeds { IfOk result (λ both.
        both.1 ≡ feed_of start.now (setup_view setup.now) rows.now) }
    ensures lines { IfOk result (λ both. (lines : List LineIs) ×
        AreInShape (setup_view setup.now).job (csv_records bytes.now) lines
        × (refusals_in lines ≡ refused.now)
        × (feeds_in lines ≡ feed_of start.now (setup_view setup.now) rows.now)
        × Tells (length (workers_in (setup_view setup.now).job)) lines both.0) }
    ensures fault { IfErr result
        (IsFirstFault start.now (setup_view setup.now) setup.now.job.dag.order refused.now
        rows.now (csv_records bytes.now)) }
{
    let told = read_audit(alloc, setup, bytes)?;
    let feeds = checked_feed(alloc, setup, start, refused, rows, bytes)?;
    Ok((told, feeds))
}

// The feed of these rows from this beginning on, if the text tells these refused requests and this
// feed. The records are in shape.
fn checked_feed(
    alloc: Global,
    setup: &Setup,
    start: &Start,
    refused: &[Noted],
    rows: &Rows,
    bytes: &[u8],
) -> Result<Feeds, AuditFault>
    requires { (lines : List LineIs) ×
        AreInShape (setup_view setup.now).job (csv_records bytes.now) lines }
    ensures feeds { IfOk result (λ feeds.
        feeds ≡ feed_of start.now (setup_view setup.now) rows.now) }
    ensures lines { OnOk result ((lines : List LineIs) →
        AreInShape (setup_view setup.now).job (csv_records bytes.now) lines →
        (refusals_in lines ≡ refused.now)
        × (feeds_in lines ≡ feed_of start.now (setup_view setup.now) rows.now)) }
    ensures fault { IfErr result
        (IsFirstFault start.now (setup_view setup.now) setup.now.job.dag.order refused.now
        rows.now (csv_records bytes.now)) }
{
    check_refused(alloc, setup, refused, bytes)?;
    let feeds = feed_of_rows(alloc, setup, start, rows)?;
    check_feed(alloc, setup, refused, feeds.as_slice(), bytes)?;
    Ok(feeds)
}
