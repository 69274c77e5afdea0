// What a job file tells of the place of a fault in it.
use crate::columns::push_misfit;
use crate::lines::line_at;
use crate::members::{TomlFile, table_at, tables_at, text_at};
use crate::owners::{edge_of, node_of, push_edge_names, push_node_names};
use crate::place::Place;
use crate::shapes::push_job_shape;
use crate::sizes::{limit_of, push_job_size};
use fries_help_words::push_shown;
use job_file::{JobFault, Named};
use std::alloc::{AllocError, Global};
use std::fmt::Write;
use toml::Value as Toml;

/// What the bytes of a job file tell of the place of a fault in them.
///
/// # Errors
///
/// Out of memory.
pub fn job_place(alloc: Global, bytes: &[u8], fault: JobFault) -> Result<Place, AllocError> {
    let mut place = Place::new(alloc);
    push_job_place(alloc, bytes, fault, &mut place)?;
    Ok(place)
}

fn push_job_place(
    alloc: Global,
    bytes: &[u8],
    fault: JobFault,
    place: &mut Place,
) -> Result<(), AllocError> {
    match toml::table_from_slice(alloc, bytes) {
        Ok(table) => {
            let file = TomlFile {
                table: &table,
                bytes,
            };
            tell(alloc, file, fault, place)
        }
        Err(error) => push_toml_error(bytes, &error, place),
    }
}

/// Tells where a text stops to be a TOML document, and what is wrong there.
pub(crate) fn push_toml_error(
    bytes: &[u8],
    error: &toml::de::Error,
    place: &mut Place,
) -> Result<(), AllocError> {
    if let Some(span) = error.span() {
        let line = line_at(bytes, span.start);
        write!(place.note, "line {line}")?;
        let message = error.message();
        write!(place.detail, "There the reader found: {message}.")?;
    }
    Ok(())
}

fn tell(
    alloc: Global,
    file: TomlFile<'_>,
    fault: JobFault,
    place: &mut Place,
) -> Result<(), AllocError> {
    match fault {
        JobFault::Shape(part) => push_job_shape(alloc, file, part, place),
        JobFault::Limit(which, size) => {
            push_job_size(file, which, size, place)?;
            place.detail.push_str(limit_of(which))
        }
        JobFault::NameTwice(Named::Node, node) | JobFault::Cycle(node) => {
            push_node(file, node, &mut place.note)
        }
        JobFault::NameTwice(Named::Column, column) => push_column(file, column, &mut place.note),
        JobFault::NoSuchEnd(edge) => {
            push_edge(file, edge, &mut place.note)?;
            push_lost_ends(file, edge, &mut place.detail)
        }
        JobFault::Ports(node) => {
            push_node(file, node, &mut place.note)?;
            push_ports(file, node, &mut place.detail)
        }
        JobFault::Column(node) => {
            push_node(file, node, &mut place.note)?;
            push_columns(file, node, &mut place.detail)
        }
        JobFault::NoTable(node) => {
            push_node(file, node, &mut place.note)?;
            push_table(file, node, &mut place.detail)
        }
        JobFault::NotToml | JobFault::Weight(_) | JobFault::NoMemory => Ok(()),
    }
}

fn push_node(file: TomlFile<'_>, number: u32, out: &mut String) -> Result<(), AllocError> {
    match node_of(file, number as usize) {
        Some(node) => {
            push_node_names(node.members, "", out)?;
            node.push_line(out)
        }
        None => Ok(()),
    }
}

fn push_edge(file: TomlFile<'_>, number: u32, out: &mut String) -> Result<(), AllocError> {
    match edge_of(file, number as usize) {
        Some(edge) => {
            push_edge_names(edge.members, "", out)?;
            edge.push_line(out)
        }
        None => Ok(()),
    }
}

fn push_column(file: TomlFile<'_>, number: u32, out: &mut String) -> Result<(), AllocError> {
    match tables_at(file.table, "columns").get(number as usize) {
        Some(column) => push_text(column, out),
        None => Ok(()),
    }
}

fn push_columns(file: TomlFile<'_>, number: u32, out: &mut String) -> Result<(), AllocError> {
    match node_of(file, number as usize) {
        Some(node) => push_misfit(file, node, out),
        None => Ok(()),
    }
}

fn push_lost_ends(file: TomlFile<'_>, number: u32, out: &mut String) -> Result<(), AllocError> {
    let Some(edge) = table_at(file.table, "edge", number as usize) else {
        return Ok(());
    };
    for key in ["from", "to"] {
        if let Some(name) = text_at(edge, key) {
            if !has_node(file, name) {
                write!(out, "Its `{key}` is ")?;
                push_shown(name, out)?;
                out.push_str(", and no node has this name. ")?;
            }
        }
    }
    Ok(())
}

fn has_node(file: TomlFile<'_>, name: &str) -> bool {
    for node in tables_at(file.table, "node") {
        if is_named(node, "name", name) {
            return true;
        }
    }
    false
}

fn push_ports(file: TomlFile<'_>, number: u32, out: &mut String) -> Result<(), AllocError> {
    let Some(node) = table_at(file.table, "node", number as usize) else {
        return Ok(());
    };
    let (Some(name), Some(kind)) = (text_at(node, "name"), text_at(node, "kind")) else {
        return Ok(());
    };
    let ins = edge_count(file, "to", name);
    let outs = edge_count(file, "from", name);
    out.push_str(edges_of(kind))?;
    write!(out, " This one has {ins} in and {outs} out.")
}

// How many edges have this node at an end.
fn edge_count(file: TomlFile<'_>, key: &str, node: &str) -> usize {
    let mut count = 0usize;
    for edge in tables_at(file.table, "edge") {
        if is_named(edge, key, node) {
            count = count.saturating_add(1);
        }
    }
    count
}

fn push_table(file: TomlFile<'_>, number: u32, out: &mut String) -> Result<(), AllocError> {
    let Some(node) = table_at(file.table, "node", number as usize) else {
        return Ok(());
    };
    if let Some(table) = text_at(node, "table") {
        out.push_str("It names the table ")?;
        push_shown(table, out)?;
        out.push('.')?;
    }
    Ok(())
}

fn push_text(value: &Toml, out: &mut String) -> Result<(), AllocError> {
    match value.as_str() {
        Some(text) => push_shown(text, out),
        None => Ok(()),
    }
}

// Whether a value is a table that has this text at a key.
fn is_named(value: &Toml, key: &str, name: &str) -> bool {
    match value.as_table() {
        Some(table) => text_at(table, key) == Some(name),
        None => false,
    }
}

// Which edges a node of a kind has.
fn edges_of(kind: &str) -> &'static str {
    match kind {
        "source" => "A source has no edge in, and one out on port 0.",
        "filter" => "A filter has edges in, one out on port 0, and at most one more on port 1.",
        "replicate" => "A replicate has edges in, and 2 to 8 out on the ports from 0 on.",
        "sink" => "A sink has edges in, and none out.",
        _ => "A node of this kind has edges in, and one out on port 0.",
    }
}
