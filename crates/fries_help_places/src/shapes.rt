// What is told of the first place of a fault of form: a key that is missing, unknown or of another
// form.
use crate::forms::{is_column, is_literal, is_name_text, wanted};
use crate::lines::{Line, document_line};
use crate::members::{TomlFile, items_of};
use crate::owners::{Owner, OwnerIs};
use crate::place::Place;
use crate::search::{Found, Sought, first_in_job, first_in_requests};
use crate::unknown_keys::{push_unknown_in_job, push_unknown_in_requests};
use fries_help_words::push_shown;
use job_file::Part;
use std::alloc::{AllocError, Global};
use std::fmt::Write;
use toml::Value as Toml;

/// Tells where a job file has its first fault of form at a part.
pub(crate) fn push_job_shape(
    alloc: Global,
    file: TomlFile<'_>,
    part: Part,
    place: &mut Place,
) -> Result<(), AllocError> {
    let key = format!(in alloc; "{part}")?;
    push_shape_in_job(file, part, key.as_str(), place)
}

/// Tells where a request file has its first fault of form at a part.
pub(crate) fn push_request_shape(
    alloc: Global,
    file: TomlFile<'_>,
    part: Part,
    place: &mut Place,
) -> Result<(), AllocError> {
    let key = format!(in alloc; "{part}")?;
    push_shape_in_requests(file, part, key.as_str(), place)
}

fn push_shape_in_job<'a>(
    file: TomlFile<'a>,
    part: Part,
    key: &'a str,
    place: &mut Place,
) -> Result<(), AllocError> {
    match part {
        Part::Unknown => push_unknown_in_job(file, place),
        Part::Node | Part::Edge => push_document_key(file, part, key, place),
        Part::Tables => push_tables(file, place),
        Part::Columns => push_columns(file, key, place),
        _ => push_key_fault(first_in_job(file, Sought::Fault(part, key)), part, place),
    }
}

fn push_shape_in_requests<'a>(
    file: TomlFile<'a>,
    part: Part,
    key: &'a str,
    place: &mut Place,
) -> Result<(), AllocError> {
    match part {
        Part::Unknown => push_unknown_in_requests(file, place),
        Part::Request => push_document_key(file, part, key, place),
        _ => push_key_fault(
            first_in_requests(file, Sought::Fault(part, key)),
            part,
            place,
        ),
    }
}

// ---- keys

// What stands at a key, and what is to stand there.
fn push_key_fault(
    found: Option<Found<'_>>,
    part: Part,
    place: &mut Place,
) -> Result<(), AllocError> {
    let Some(found) = found else {
        return Ok(());
    };
    push_place(found, place)?;
    let key = found.key;
    let wanted = wanted(part, matches!(found.owner.is, OwnerIs::Change(..)));
    write!(place.detail, "; `{key}` is to be {wanted}.")
}

/// Tells of a key: its table beside the code, and what stands there.
pub(crate) fn push_place(found: Found<'_>, place: &mut Place) -> Result<(), AllocError> {
    found.owner.push(&mut place.note)?;
    push_found(found.owner, found.key, &mut place.detail)
}

/// Appends what stands at a key: its line if that is known.
pub(crate) fn push_found(owner: Owner<'_>, key: &str, out: &mut String) -> Result<(), AllocError> {
    if owner.members.get(key).is_none() {
        return write!(out, "It has no `{key}`");
    }
    match owner.key_line(key) {
        Some(line) => push_line(line, out),
        None => write!(out, "It has the key `{key}`"),
    }
}

/// Appends which line has which text.
pub(crate) fn push_line(line: Line<'_>, out: &mut String) -> Result<(), AllocError> {
    let number = line.number;
    write!(out, "Line {number} has ")?;
    push_shown(line.text, out)
}

// ---- the whole file

fn push_document_key(
    file: TomlFile<'_>,
    part: Part,
    key: &str,
    place: &mut Place,
) -> Result<(), AllocError> {
    match document_line(file.bytes, key) {
        Some(line) => push_line(line, &mut place.detail)?,
        None => write!(place.detail, "The file has no `{key}`")?,
    }
    let wanted = if part == Part::Node {
        "tables that begin with `[[node]]`"
    } else {
        wanted(part, false)
    };
    write!(place.detail, "; `{key}` is to be {wanted}.")
}

// Columns of the file, or those of a sink.
fn push_columns<'a>(file: TomlFile<'a>, key: &'a str, place: &mut Place) -> Result<(), AllocError> {
    let wrong = match file.table.get(key) {
        Some(value) if value.as_array().is_some() => wrong_column(items_of(value)),
        Some(_) | None => Some(""),
    };
    match wrong {
        Some(wrong) => push_document_columns(file, key, wrong, &mut place.detail),
        None => {
            let sought = Sought::Fault(Part::Columns, key);
            push_key_fault(first_in_job(file, sought), Part::Columns, place)
        }
    }
}

fn push_document_columns(
    file: TomlFile<'_>,
    key: &str,
    wrong: &str,
    out: &mut String,
) -> Result<(), AllocError> {
    match document_line(file.bytes, key) {
        Some(line) => push_line(line, out)?,
        None => write!(out, "The file has no `{key}`")?,
    }
    if !wrong.is_empty() {
        out.push_str(", and ")?;
        push_shown(wrong, out)?;
        out.push_str(" is no column")?;
    }
    out.push_str(COLUMNS)
}

const COLUMNS: &str = "\
; each column is to be a string `NAME:KIND` or `NAME:KIND:own`, with a NAME of a-z, 0-9 and _, and \
text, number or cents as KIND.";

// The first item that is no column; an empty text if the item is no text.
fn wrong_column(items: &[Toml]) -> Option<&str> {
    for item in items {
        match item.as_str() {
            Some(text) if is_column(text) => {}
            Some(text) => return Some(text),
            None => return Some(""),
        }
    }
    None
}

// The first table of values that is wrong, and its entry.
fn push_tables(file: TomlFile<'_>, place: &mut Place) -> Result<(), AllocError> {
    let Some(tables) = file.table.get("tables") else {
        return Ok(());
    };
    let Some(tables) = tables.as_table() else {
        return place
            .detail
            .push_str("`tables` is to be tables, as `[tables.NAME]`.");
    };
    for (name, value) in tables.iter() {
        if let Some(wrong) = wrong_entry(name.as_str(), value) {
            return push_entry(name.as_str(), wrong, place);
        }
    }
    Ok(())
}

// The first entry of a table that is neither a whole number nor a text; an empty text if the name
// of the table is wrong, or it is no table.
fn wrong_entry<'a>(name: &str, value: &'a Toml) -> Option<&'a str> {
    let Some(entries) = value.as_table() else {
        return Some("");
    };
    if !is_name_text(name) {
        return Some("");
    }
    for (key, value) in entries.iter() {
        if !is_literal(value) {
            return Some(key.as_str());
        }
    }
    None
}

fn push_entry(name: &str, wrong: &str, place: &mut Place) -> Result<(), AllocError> {
    place.note.push_str("table ")?;
    push_shown(name, &mut place.note)?;
    if wrong.is_empty() {
        return place
            .detail
            .push_str("It is to be a table with a name of a-z, 0-9 and _.");
    }
    place.detail.push_str("Its entry ")?;
    push_shown(wrong, &mut place.detail)?;
    place
        .detail
        .push_str(" is to be a whole number or a string.")
}
