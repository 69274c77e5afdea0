// What a request file tells of the place of a fault in it, and of a refused request.
use crate::columns::push_misfit;
use crate::job_places::push_toml_error;
use crate::members::{TomlFile, job_tables, text_at};
use crate::owners::{Owner, change_of as change_at, push_changed_node, request_of};
use crate::place::Place;
use crate::shapes::push_request_shape;
use crate::sizes::{limit_of, push_request_size};
use fries_help_words::push_shown;
use job_file::ReqFileFault;
use std::alloc::{AllocError, Global};
use std::fmt::Write;
use toml::Table;
use versions::{QFault, Refused};

/// What the bytes of a request file tell of the place of a fault in them.
///
/// # Errors
///
/// Out of memory.
pub fn request_place(
    alloc: Global,
    bytes: &[u8],
    fault: ReqFileFault,
) -> Result<Place, AllocError> {
    let mut place = Place::new(alloc);
    push_request_place(alloc, bytes, fault, &mut place)?;
    Ok(place)
}

fn push_request_place(
    alloc: Global,
    bytes: &[u8],
    fault: ReqFileFault,
    place: &mut Place,
) -> Result<(), AllocError> {
    match toml::table_from_slice(alloc, bytes) {
        Ok(table) => {
            let file = TomlFile {
                table: &table,
                bytes,
            };
            tell(alloc, file, fault, place)
        }
        Err(error) => push_toml_error(bytes, &error, place),
    }
}

fn tell(
    alloc: Global,
    file: TomlFile<'_>,
    fault: ReqFileFault,
    place: &mut Place,
) -> Result<(), AllocError> {
    match fault {
        ReqFileFault::Shape(part) => push_request_shape(alloc, file, part, place),
        ReqFileFault::Limit(which, size) => {
            push_request_size(file, which, size, place)?;
            place.detail.push_str(limit_of(which))
        }
        ReqFileFault::NotToml | ReqFileFault::NoMemory => Ok(()),
    }
}

/// Appends which request is refused, and at which change: with the node's name and the line, if the
/// request file is known.
///
/// # Errors
///
/// Out of memory.
pub fn push_refused(
    file: Option<TomlFile<'_>>,
    refused: Refused,
    out: &mut String,
) -> Result<(), AllocError> {
    let place = refused.place;
    write!(out, "request {place}")?;
    let request = match file {
        Some(file) => request_of(file, place as usize),
        None => None,
    };
    if let Some(request) = request {
        request.push_line(out)?;
    }
    if let Some(change) = change_of(refused.fault) {
        write!(out, ", change {change}")?;
    }
    match refused_change(file, refused) {
        Some(change) => push_changed_node(change.members, out),
        None => Ok(()),
    }
}

/// Appends why a request is refused, as far as its fault, its file and the job file tell.
///
/// # Errors
///
/// Out of memory.
pub fn push_reason<'a>(
    job: Option<TomlFile<'a>>,
    file: Option<TomlFile<'a>>,
    refused: Refused,
    out: &mut String,
) -> Result<(), AllocError> {
    match refused.fault {
        QFault::Stale(_, current) => write!(
            out,
            "The node has version {current}; `from = {current}` is right for it now."
        ),
        QFault::Backwards(last) => write!(out, "The accepted one is for row {last}."),
        QFault::IllTyped(_) => match (job, refused_change(file, refused)) {
            (Some(job), Some(change)) => push_ill_typed(job, change, out),
            (Some(_), None) | (None, _) => Ok(()),
        },
        QFault::NoNode(_)
        | QFault::Fixed(_)
        | QFault::NodeTwice(_)
        | QFault::KindOrKey(_)
        | QFault::BadCarry(_)
        | QFault::Empty
        | QFault::LateSplit(_) => Ok(()),
    }
}

// The change at which a request is refused.
fn refused_change(file: Option<TomlFile<'_>>, refused: Refused) -> Option<Owner<'_>> {
    let change = change_of(refused.fault)?;
    change_at(file?, refused.place as usize, change as usize)
}

// The place of the change at which a request is refused, from 1.
fn change_of(fault: QFault) -> Option<u32> {
    match fault {
        QFault::NoNode(change)
        | QFault::Fixed(change)
        | QFault::NodeTwice(change)
        | QFault::Stale(change, _)
        | QFault::IllTyped(change)
        | QFault::KindOrKey(change)
        | QFault::BadCarry(change)
        | QFault::LateSplit(change) => Some(change),
        QFault::Empty | QFault::Backwards(_) => None,
    }
}

// The table that the job hasn't, or the column that doesn't fit.
fn push_ill_typed<'a>(
    job: TomlFile<'a>,
    change: Owner<'a>,
    out: &mut String,
) -> Result<(), AllocError> {
    match lost_table(job.table, change.members) {
        Some(name) => {
            out.push_str("It names the table ")?;
            push_shown(name, out)?;
            push_tables(job.table, out)
        }
        None => push_misfit(job, change, out),
    }
}

// The table that a change names, if the job doesn't have it.
fn lost_table<'a>(job: &Table, change: &'a Table) -> Option<&'a str> {
    let name = text_at(change, "table")?;
    match job_tables(job) {
        Some(tables) if tables.get(name).is_some() => None,
        Some(_) | None => Some(name),
    }
}

fn push_tables(job: &Table, out: &mut String) -> Result<(), AllocError> {
    let mut has_some = false;
    if let Some(tables) = job_tables(job) {
        for (name, _) in tables.iter() {
            out.push_str(if has_some { ", " } else { ", and the job has " })?;
            push_shown(name.as_str(), out)?;
            has_some = true;
        }
    }
    out.push_str(if has_some {
        "."
    } else {
        ", and the job has none."
    })?;
    out.push_str(" A request brings no table of its own.")
}
