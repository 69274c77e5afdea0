// The lines of an audit, as its records tell them.
ghost use Rattle.std.specs.Prelude.{◌≡◌, ◌≢◌, IfNone, IfOk, IfSome};
ghost use Rattle.csv.specs.Records.{fields_of};
ghost use Rattle.flow_model.specs.Setup.{setup_view};
ghost use Rattle.audit_laws.specs.declared.audit.Line.{Line as LineIs};
ghost use Rattle.audit_laws.specs.Lines.{IsLawfulLine, line_fields};
ghost use Rattle.audit_laws.specs.Names.{named_workers};
ghost use Rattle.audit_check.specs.Cells.{cells_of};

use crate::entries::{count_in, entry_in};
use crate::feeds::{refused_in, step_in};
use crate::names::worker_named;
use crate::records::{Six, six_of};
use audit_laws::Line;
use csv::ByteRecord;
use flow_model::Setup;
use std::alloc::Global;
use tuple_trace::{Bytes, NoMemory};

/// The line that a record tells, if it has the form of one. The worker `near` is tried first.
pub(crate) fn line_of(
    alloc: Global,
    setup: &Setup,
    cells: &ByteRecord,
    near: u32,
) -> Result<Option<Line>, NoMemory>
    ensures some { IfOk result (λ found. IfSome found (λ line.
        IsLawfulLine (setup_view setup.now).job line × (fields_of cells.now
        ≡ line_fields (named_workers (setup_view setup.now).job.nodes) line))) }
    ensures none { IfOk result (λ found. IfNone found ((line : LineIs) →
        IsLawfulLine (setup_view setup.now).job line → fields_of cells.now
        ≢ line_fields (named_workers (setup_view setup.now).job.nodes) line)) }
{
    match six_of(cells) {
        Some(six) => line_in(alloc, setup, six, near),
        None => Ok(None),
    }
}

fn line_in(alloc: Global, setup: &Setup, six: Six<'_>, near: u32) -> Result<Option<Line>, NoMemory>
    ensures some { IfOk result (λ found. IfSome found (λ line.
        IsLawfulLine (setup_view setup.now).job line × (cells_of six.entry
        ≡ line_fields (named_workers (setup_view setup.now).job.nodes) line))) }
    ensures none { IfOk result (λ found. IfNone found ((line : LineIs) →
        IsLawfulLine (setup_view setup.now).job line → cells_of six.entry
        ≢ line_fields (named_workers (setup_view setup.now).job.nodes) line)) }
{
    if let Some(noted) = refused_in(six) {
        return Ok(Some(Line::Refused(noted)));
    }
    if let Some(step) = step_in(six) {
        return Ok(Some(Line::Feed(step)));
    }
    let Some(worker) = worker_named(setup, six.node, six.worker, near) else {
        return Ok(None);
    };
    if let Some(entry) = entry_in(alloc, setup, worker, six)? {
        return Ok(Some(Line::Step { worker, entry }));
    }
    let Some(count) = count_in(six) else {
        return Ok(None);
    };
    let key = Bytes::from_slice(alloc, six.extra)?;
    Ok(Some(Line::State { worker, key, count }))
}
