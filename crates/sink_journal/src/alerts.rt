ghost use Rattle.std.specs.Prelude.{◌≡◌, ◌++◌, ◌∷◌, [], IfOk, OnOk, length, nat_eq, slice_get};
ghost use Rattle.std.specs.List.{list_any};
ghost use Rattle.csv.specs.Writing.{default_writer, field_text, fields_text};
ghost use Rattle.jobs.specs.Job.{job_view};
ghost use Rattle.jobs.specs.Nodes.{worker_count};
ghost use Rattle.sink_journal.specs.Alerts.{alert, alerts, all_alerts, cells, header};
ghost use Rattle.sink_journal.specs.Alerts.{layout as layout_of, node_alerts, sink_alerts};
ghost use Rattle.sink_journal.specs.Printed.{cell};
ghost use Rattle.sink_journal.specs.Records.{record_text, records_text};

use crate::lines::Lines;
use crate::{Entry, Journal, Journals};
use jobs::{Column, ColumnKind, Func, Job, NodeDef};
use std::alloc::Global;
use tuple_trace::{Bytes, NoMemory, Tuple, Value, number_in, text_in};

/// The text of what reached the sinks: a header, and one record for each tuple that a sink met.
///
/// The header is `sink`, `row` and the names of the job's columns. The records stand sink by sink
/// in the order of the nodes, and those of a sink in the order of its journal. A record has the
/// sink's name, the number of the row, and the tuple's columns; a column that the sink doesn't list
/// is empty. Fields are quoted where they need it, and a line feed ends each record.
pub fn alerts_text(alloc: Global, job: &Job, journals: &Journals) -> Result<Bytes, NoMemory>
    requires { length journals.now ≡ worker_count job.now.nodes }
    ensures { IfOk result (λ text. text ≡ alerts (job_view job.now) journals.now) }
{
    let mut lines = Lines::with_room(alloc, 0);
    write_header(&mut lines, job.columns.as_slice())?;
    write_alerts(alloc, &mut lines, job, journals)?;
    Ok(lines.into_text())
}

/// The text of the alerts' header, as [`alerts_text`] begins with it.
pub fn alerts_header_text(alloc: Global, job: &Job) -> Result<Bytes, NoMemory>
    ensures { IfOk result (λ text. text ≡ record_text (header job.now.columns)) }
{
    let mut lines = Lines::with_room(alloc, 0);
    write_header(&mut lines, job.columns.as_slice())?;
    Ok(lines.into_text())
}

/// The text of what reached the sinks in one part of a stream: the records of [`alerts_text`]
/// without its header.
///
/// The texts of all parts, one after another, follow the header of [`alerts_header_text`]. The
/// records then stand part by part, and sink by sink in each part.
pub fn alerts_part_text(alloc: Global, job: &Job, journals: &Journals) -> Result<Bytes, NoMemory>
    requires { length journals.now ≡ worker_count job.now.nodes }
    ensures { IfOk result (λ text. text ≡
        records_text (all_alerts job.now.columns job.now.nodes journals.now)) }
{
    let mut part = Lines::with_room(alloc, 0);
    write_alerts(alloc, &mut part, job, journals)?;
    Ok(part.into_text())
}

/// The text of what a sink shows for some steps of one of its workers, given its name and the
/// numbers of the columns that it lists.
///
/// The texts of all sinks, worker by worker and each in the order of its steps, are those of
/// [`alerts_part_text`]. They may be made in any order, and at once.
pub fn sink_text(
    alloc: Global,
    columns: &[Column],
    name: &[u8],
    listed: &[u32],
    steps: &[Entry],
) -> Result<Bytes, NoMemory>
    ensures { IfOk result (λ text. text ≡ records_text
        (sink_alerts name.now (layout_of columns.now listed.now) steps.now)) }
{
    let layout = layout(alloc, columns, listed)?;
    let front = front_of(alloc, name)?;
    let mut part = Lines::with_room(alloc, 0);
    write_sink(&mut part, name, front.as_slice(), layout.as_slice(), steps)?;
    Ok(part.into_text())
}

// Appends the records after the header.
fn write_alerts(
    alloc: Global,
    lines: &mut Lines,
    job: &Job,
    journals: &Journals,
) -> Result<(), NoMemory>
    requires { length journals.now ≡ worker_count job.now.nodes }
    ensures { OnOk result (lines.new ≡
        lines.old ++ records_text (all_alerts job.now.columns job.now.nodes journals.now)) }
{
    let columns = job.columns.as_slice();
    let mut rest = journals.as_slice();
    for node in job.nodes.as_slice() {
        let (own, later) = rest.split_at(node.journal_count() as usize);
        write_node(alloc, lines, columns, node, own)?;
        rest = later;
    }
    Ok(())
}

fn write_header(lines: &mut Lines, columns: &[Column]) -> Result<(), NoMemory>
    ensures { OnOk result (lines.new ≡ lines.old ++ record_text (header columns.now)) }
{
    lines.add(b"sink,row")?;
    for column in columns {
        lines.add_text(column.name.as_slice())?;
    }
    lines.end()
}

fn write_node(
    alloc: Global,
    lines: &mut Lines,
    columns: &[Column],
    node: &NodeDef,
    journals: &[Journal],
) -> Result<(), NoMemory>
    ensures { OnOk result (lines.new ≡
        lines.old ++ records_text (node_alerts columns.now node.now journals.now)) }
{
    if let Func::Sink(listed) = &node.func {
        let layout = layout(alloc, columns, listed.as_slice())?;
        let name = node.name.as_slice();
        let front = front_of(alloc, name)?;
        for journal in journals {
            let steps = journal.as_slice();
            write_sink(lines, name, front.as_slice(), layout.as_slice(), steps)?;
        }
    }
    Ok(())
}

// The name of a sink as a field.
fn front_of(alloc: Global, name: &[u8]) -> Result<Bytes, NoMemory>
    ensures { IfOk result (λ front. front ≡ field_text default_writer name.now) }
{
    let mut front = Lines::with_room(alloc, 0);
    front.add_first(name)?;
    Ok(front.into_text())
}

fn layout(
    alloc: Global,
    columns: &[Column],
    listed: &[u32],
) -> Result<Vec<Option<ColumnKind>>, NoMemory>
    ensures { IfOk result (λ layout. layout.items ≡ layout_of columns.now listed.now) }
{
    let layout = columns
        .iter()
        .enumerate()
        .map(|(number, column)| lists(listed, number).then_some(column.kind))
        .collect(alloc)?;
    Ok(layout)
}

fn lists(listed: &[u32], number: usize) -> bool
    ensures { result ≡ list_any (λ n. nat_eq n number) listed.now }
{
    listed.iter().any(|n| *n as usize == number)
}

// `front` is the sink's name as a field.
fn write_sink(
    lines: &mut Lines,
    name: &[u8],
    front: &[u8],
    layout: &[Option<ColumnKind>],
    steps: &[Entry],
) -> Result<(), NoMemory>
    requires { front.now ≡ field_text default_writer name.now }
    ensures { OnOk result (lines.new ≡
        lines.old ++ records_text (sink_alerts name.now layout.now steps.now)) }
{
    for entry in steps {
        if let Entry::Met { tuple, .. } = entry {
            write_alert(lines, name, front, layout, tuple)?;
        }
    }
    Ok(())
}

// `front` is the sink's name as a field.
fn write_alert(
    lines: &mut Lines,
    name: &[u8],
    front: &[u8],
    layout: &[Option<ColumnKind>],
    tuple: &Tuple,
) -> Result<(), NoMemory>
    requires { front.now ≡ field_text default_writer name.now }
    ensures { OnOk result (lines.new ≡
        lines.old ++ record_text (alert name.now layout.now tuple.now)) }
{
    lines.begin_numbered(front, tuple.row)?;
    add_cells(lines, layout, tuple.fields.as_slice())?;
    lines.end()
}

fn add_cells(
    lines: &mut Lines,
    layout: &[Option<ColumnKind>],
    fields: &[Value],
) -> Result<(), NoMemory>
    ensures { OnOk result (lines.new ≡
        lines.old ++ fields_text default_writer (cells layout.now fields.now)) }
{
    for (number, kind) in layout.iter().enumerate() {
        add_cell(lines, *kind, fields, number)?;
    }
    Ok(())
}

// Appends the field at a place as a column of this kind shows it, or an empty one if the column
// isn't shown.
fn add_cell(
    lines: &mut Lines,
    kind: Option<ColumnKind>,
    fields: &[Value],
    place: usize,
) -> Result<(), NoMemory>
    ensures { OnOk result (lines.new ≡
        lines.old ++ fields_text default_writer (cell kind (slice_get fields.now place) ∷ [])) }
{
    let field = fields.get(place);
    match kind {
        Some(ColumnKind::Text) => lines.add_text(text_in(field)),
        Some(ColumnKind::Number) => lines.add_signed(number_in(field)),
        Some(ColumnKind::Cents) => lines.add_cents(number_in(field)),
        None => lines.add(b","),
    }
}
