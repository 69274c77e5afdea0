// What a payments file or a savepoint tells of the place of a fault.
use crate::shown::push_bytes;
use csv::{ByteRecord, Reader, ReaderBuilder};
use fries_help_places::{Place, line_at};
use jobs::{ColumnKind, Job, is_source, weight};
use payments::{PFault, WORK_MAX};
use savepoint::SaveFault;
use std::alloc::{AllocError, Global};
use std::fmt::Write;

/// What the bytes of a payments file, and their job if it is known, tell of the place of a fault.
pub(crate) fn row_place(
    alloc: Global,
    job: Option<&Job>,
    bytes: &[u8],
    fault: PFault,
) -> Result<Place, AllocError> {
    let mut place = Place::new(alloc);
    tell_row(alloc, job, bytes, fault, &mut place)?;
    if let PFault::Source(_) = fault {
        push_sources(job, &mut place.detail)?;
    }
    Ok(place)
}

fn tell_row(
    alloc: Global,
    job: Option<&Job>,
    bytes: &[u8],
    fault: PFault,
    place: &mut Place,
) -> Result<(), AllocError> {
    match fault {
        PFault::NoHeader | PFault::Header => push_header(job, &mut place.detail),
        PFault::Length(row)
        | PFault::Source(row)
        | PFault::Value(row, _)
        | PFault::TextLong(row, _) => match record_at(alloc, bytes, row) {
            Some(found) => found.tell(job, fault, place),
            None => Ok(()),
        },
        PFault::TooMuch(_) => push_most_rows(job, &mut place.detail),
        PFault::NoMemory => Ok(()),
    }
}

/// What the bytes of a savepoint tell of the place of a fault.
pub(crate) fn save_place(
    alloc: Global,
    bytes: &[u8],
    fault: SaveFault,
) -> Result<Place, AllocError> {
    let mut place = Place::new(alloc);
    match fault {
        SaveFault::Shape(number) | SaveFault::State(number) => {
            if let Some(found) = record_at(alloc, bytes, number) {
                found.push_line(&mut place.note)?;
            }
        }
        SaveFault::Past(_) | SaveFault::Count(_) | SaveFault::NoMemory => {}
    }
    Ok(place)
}

/// The line of a record, if there is one with this number. The first record has number 0.
pub(crate) fn record_line(alloc: Global, bytes: &[u8], number: u64) -> Option<u64> {
    let found = record_at(alloc, bytes, number)?;
    Some(found.line)
}

// A record, with the line that it begins at and the number of fields of the header.
#[derive(Drop)]
struct Found {
    cells: ByteRecord,
    line: u64,
    width: usize,
}

impl Found {
    // The line of the record, and what is wrong with it.
    fn tell(&self, job: Option<&Job>, fault: PFault, place: &mut Place) -> Result<(), AllocError> {
        self.push_line(&mut place.note)?;
        match fault {
            PFault::Length(_) => {
                let (count, width) = (self.cells.len(), self.width);
                write!(
                    place.detail,
                    "It has {count} fields, and the header has {width}."
                )?;
                self.push_breaks(&mut place.detail)
            }
            PFault::Source(_) => self.push_field(0, &mut place.detail),
            PFault::Value(_, column) | PFault::TextLong(_, column) => match job {
                Some(job) => {
                    push_column(job, column, &mut place.note)?;
                    self.push_field(cell_of(job, column), &mut place.detail)
                }
                None => Ok(()),
            },
            PFault::NoHeader | PFault::Header | PFault::TooMuch(_) | PFault::NoMemory => Ok(()),
        }
    }

    fn push_line(&self, out: &mut String) -> Result<(), AllocError> {
        let line = self.line;
        write!(out, "line {line}")
    }

    // Asks for a quote that is left open, if the fields have line breaks in them.
    fn push_breaks(&self, out: &mut String) -> Result<(), AllocError> {
        let mut lines = 1u64;
        for place in 0..self.cells.len() {
            if let Some(field) = self.cells.get(place) {
                lines = lines.saturating_add(break_count(field));
            }
        }
        if lines == 1 {
            return Ok(());
        }
        write!(
            out,
            " The record goes over {lines} lines: is a quote left open?"
        )
    }

    fn push_field(&self, place: usize, out: &mut String) -> Result<(), AllocError> {
        match self.cells.get(place) {
            Some(field) => {
                out.push_str("It is ")?;
                push_bytes(field, out)?;
                out.push_str(". ")
            }
            None => Ok(()),
        }
    }
}

// How many line breaks a field has before its last byte.
fn break_count(field: &[u8]) -> u64 {
    line_at(field, field.len().saturating_sub(1)).saturating_sub(1)
}

// The record of a row: the header is that of row 0.
fn record_at(alloc: Global, bytes: &[u8], row: u64) -> Option<Found> {
    let mut reader = ReaderBuilder::new()
        .has_headers(false)
        .flexible(true)
        .from_reader(alloc, bytes);
    let mut cells = ByteRecord::new(alloc);
    let (width, from) = read_to(&mut reader, &mut cells, row)?;
    Some(Found {
        line: line_at(bytes, first_byte(bytes, from)),
        cells,
        width,
    })
}

// Reads on to the record of a row. Returns how many fields the header has, and where the record is
// looked for.
fn read_to(reader: &mut Reader<&[u8]>, cells: &mut ByteRecord, row: u64) -> Option<(usize, u64)> {
    if !reader.read_byte_record(cells).ok()? {
        return None;
    }
    let width = cells.len();
    for _ in 0..row {
        if !reader.read_byte_record(cells).ok()? {
            return None;
        }
    }
    Some((width, cells.position()?.byte()))
}

// Where a record begins that is looked for from this place on: after the ends of lines.
fn first_byte(bytes: &[u8], from: u64) -> usize {
    let mut start = 0usize;
    for (place, byte) in bytes.iter().enumerate() {
        if place as u64 >= from && *byte != b'\n' && *byte != b'\r' {
            return place;
        }
        start = place;
    }
    start
}

fn push_header(job: Option<&Job>, out: &mut String) -> Result<(), AllocError> {
    let Some(job) = job else {
        return Ok(());
    };
    out.push_str("The header of this job is `source")?;
    for column in &job.columns {
        if !column.own {
            out.push(',')?;
            push_name(column.name.as_slice(), out)?;
        }
    }
    out.push_str("`.")
}

fn push_sources(job: Option<&Job>, out: &mut String) -> Result<(), AllocError> {
    let Some(job) = job else {
        return Ok(());
    };
    out.push_str("The sources are ")?;
    let mut between = "";
    for node in job.nodes.as_slice() {
        if is_source(&node.func) {
            out.push_str(between)?;
            push_bytes(node.name.as_slice(), out)?;
            between = ", ";
        }
    }
    out.push('.')
}

fn push_column(job: &Job, number: u32, out: &mut String) -> Result<(), AllocError> {
    if let Some(column) = job.columns.as_slice().get(number as usize) {
        out.push_str(", ")?;
        push_bytes(column.name.as_slice(), out)?;
        out.push_str(match column.kind {
            ColumnKind::Text => ", a text",
            ColumnKind::Number => ", a number",
            ColumnKind::Cents => ", an amount",
        })?;
    }
    Ok(())
}

// Which field of a record holds a column. The source's name is the first; own columns have no
// field.
fn cell_of(job: &Job, column: u32) -> usize {
    let mut cell = 1usize;
    for before in job.columns.iter().take(column as usize) {
        if !before.own {
            cell = cell.saturating_add(1);
        }
    }
    cell
}

fn push_most_rows(job: Option<&Job>, out: &mut String) -> Result<(), AllocError> {
    let Some(job) = job else {
        return Ok(());
    };
    let weight = weight(job);
    match WORK_MAX.checked_div(weight) {
        Some(most) => write!(out, "The weight is {weight}, so {most} rows are the most."),
        None => Ok(()),
    }
}

fn push_name(name: &[u8], out: &mut String) -> Result<(), AllocError> {
    match std::str::from_utf8(name) {
        Ok(name) => out.push_str(name),
        Err(_) => Ok(()),
    }
}
