// The first pass: whether the records of an audit are in shape.
ghost use Rattle.std.specs.Prelude.{◌≡◌, ◌∷◌, ◌↔◌, [], IfErr, IfOk, IsTrue, List, OnOk, length};
ghost use Rattle.csv.specs.Records.{fields_of};
ghost use Rattle.sink_journal.specs.Audit.{audit_header};
ghost use Rattle.sink_journal.specs.declared.audit.Noted.{Noted as NotedIs};
ghost use Rattle.tuple_trace.specs.declared.row.Row.{Row as RowIs};
ghost use Rattle.flow_model.specs.Begin.{Begin};
ghost use Rattle.flow_model.specs.Setup.{setup_view};
ghost use Rattle.flow_model.specs.Workers.{workers_in};
ghost use Rattle.audit_laws.specs.declared.audit.Line.{Line as LineIs};
ghost use Rattle.audit_laws.specs.Fits.{csv_records};
ghost use Rattle.audit_laws.specs.Lines.{group_of as group_of_line};
ghost use Rattle.audit_laws.specs.Verdict.{AreInShape, IsFirstFault};
ghost use Rattle.audit_check.specs.Cells.{cells_of};
ghost use Rattle.audit_check.specs.Telling.{Tells};

use crate::lines::line_of;
use crate::records::{Six, six_of};
use crate::told::Told;
use audit_fault::AuditFault;
use audit_laws::Line;
use csv::ByteRecord;
use flow_model::Setup;
use payments::TextRecords;
use std::alloc::Global;

/// What a text tells of the workers, if its records are in shape.
///
/// The first is the header. Each later one has the form of a line of this job, with its numbers as
/// they are printed and in range, and its group doesn't come before that of a record above.
///
/// # Errors
///
/// The first record that breaks a rule, or out of memory.
pub fn read_audit(alloc: Global, setup: &Setup, bytes: &[u8]) -> Result<Told, AuditFault>
    ensures ok { IfOk result (λ told. (lines : List LineIs) ×
        AreInShape (setup_view setup.now).job (csv_records bytes.now) lines
        × Tells (length (workers_in (setup_view setup.now).job)) lines told) }
    ensures fault { (begin : Begin) (refused : List NotedIs) (rows : List RowIs) → IfErr result
        (IsFirstFault begin (setup_view setup.now) setup.now.job.dag.order refused rows
        (csv_records bytes.now)) }
{
    let mut records = TextRecords::of(alloc, bytes);
    let mut cells = ByteRecord::new(alloc);
    read_records(alloc, setup, &mut records, &mut cells)
}

// What the records tell of the workers, if they are in shape. `cells` holds each record in turn.
fn read_records(
    alloc: Global,
    setup: &Setup,
    records: &mut TextRecords<'_>,
    cells: &mut ByteRecord,
) -> Result<Told, AuditFault>
    ensures ok { IfOk result (λ told. (lines : List LineIs) ×
        AreInShape (setup_view setup.now).job records.old lines
        × Tells (length (workers_in (setup_view setup.now).job)) lines told) }
    ensures fault { (begin : Begin) (refused : List NotedIs) (rows : List RowIs) → IfErr result
        (IsFirstFault begin (setup_view setup.now) setup.now.job.dag.order refused rows
        records.old) }
{
    if !records.next(cells)? {
        return Err(AuditFault::Shape(0));
    }
    if !is_header(cells) {
        return Err(AuditFault::Shape(0));
    }
    let mut told = Told::empty(alloc, setup.workers())?;
    read_lines(alloc, setup, records, cells, &mut told)?;
    Ok(told)
}

// Adds what the records after the header tell.
fn read_lines(
    alloc: Global,
    setup: &Setup,
    records: &mut TextRecords<'_>,
    cells: &mut ByteRecord,
    told: &mut Told,
) -> Result<(), AuditFault>
    requires { Tells (length (workers_in (setup_view setup.now).job)) [] told.old }
    ensures ok { OnOk result ((lines : List LineIs) ×
        AreInShape (setup_view setup.now).job (audit_header ∷ records.old) lines
        × Tells (length (workers_in (setup_view setup.now).job)) lines told.new) }
    ensures fault { (begin : Begin) (refused : List NotedIs) (rows : List RowIs) → IfErr result
        (IsFirstFault begin (setup_view setup.now) setup.now.job.dag.order refused rows
        (audit_header ∷ records.old)) }
{
    let mut group = 0;
    let mut near = 0;
    for number in 1..u64::MAX {
        if !records.next(cells)? {
            return Ok(());
        }
        let Some(line) = line_of(alloc, setup, cells, near)? else {
            return Err(AuditFault::Shape(number));
        };
        let next = group_of(&line);
        if next < group {
            return Err(AuditFault::Shape(number));
        }
        group = next;
        near = worker_of(&line);
        told.add(line)?;
    }
    Err(AuditFault::NoMemory)
}

fn is_header(cells: &ByteRecord) -> bool
    ensures { IsTrue result ↔ (fields_of cells.now ≡ audit_header) }
{
    match six_of(cells) {
        Some(six) => are_header(six),
        None => false,
    }
}

fn are_header(six: Six<'_>) -> bool
    ensures { IsTrue result ↔ (cells_of six.entry ≡ audit_header) }
{
    are_three(
        six.entry, six.node, six.worker, b"entry", b"node", b"worker",
    ) && are_three(
        six.lane, six.number, six.extra, b"lane", b"number", b"extra",
    )
}

fn are_three(a: &[u8], b: &[u8], c: &[u8], x: &[u8], y: &[u8], z: &[u8]) -> bool
    ensures { IsTrue result ↔ ((a.now ≡ x.now) × (b.now ≡ y.now) × (c.now ≡ z.now)) }
{
    a == x && b == y && c == z
}

fn group_of(line: &Line) -> u64
    ensures { result ≡ group_of_line line.now }
{
    match line {
        Line::Refused(_) => 0,
        Line::Feed(_) => 1,
        Line::Step { worker, .. } => 2 + 2 * *worker as u64,
        Line::State { worker, .. } => 3 + 2 * *worker as u64,
    }
}

// The worker of a line, or the first worker.
fn worker_of(line: &Line) -> u32 {
    match line {
        Line::Refused(_) | Line::Feed(_) => 0,
        Line::Step { worker, .. } | Line::State { worker, .. } => *worker,
    }
}
