// The tables of a file in which a key may be wrong: nodes, edges, requests and changes.
use crate::lines::{Line, head_line, key_line};
use crate::members::{TomlFile, table_at, tables_at, text_at};
use fries_help_words::push_shown;
use std::alloc::AllocError;
use std::fmt::Write;
use toml::Table;

/// What a table of a file is.
#[derive(Clone, Copy)]
pub(crate) enum OwnerIs {
    /// The node with this number, from 0.
    Node(usize),
    /// The edge with this number, from 0.
    Edge(usize),
    /// The request with this place, from 1.
    Request(usize),
    /// The request with this place, and its change with this place, from 1.
    Change(usize, usize),
}

/// A table of a file.
#[derive(Clone, Copy)]
pub(crate) struct Owner<'a> {
    pub(crate) file: TomlFile<'a>,
    pub(crate) is: OwnerIs,
    pub(crate) members: &'a Table,
}

impl<'a> Owner<'a> {
    /// Appends which table it is, with its names and its line.
    pub(crate) fn push(self, out: &mut String) -> Result<(), AllocError> {
        match self.is {
            OwnerIs::Node(number) => {
                write!(out, "node {number}")?;
                push_node_names(self.members, ", ", out)?;
            }
            OwnerIs::Edge(number) => {
                write!(out, "edge {number}")?;
                push_edge_names(self.members, ", ", out)?;
            }
            OwnerIs::Request(place) => write!(out, "request {place}")?,
            OwnerIs::Change(request, place) => {
                write!(out, "request {request}, change {place}")?;
                push_changed_node(self.members, out)?;
            }
        }
        self.push_line(out)
    }

    /// Appends the line of its head, if that is known.
    pub(crate) fn push_line(self, out: &mut String) -> Result<(), AllocError> {
        match self.line() {
            Some(line) => write!(out, ", line {line}"),
            None => Ok(()),
        }
    }

    /// The line of a key, if it is known.
    pub(crate) fn key_line(self, key: &str) -> Option<Line<'a>> {
        key_line(self.file.bytes, self.line()?, key)
    }

    // The line of its head.
    fn line(self) -> Option<u64> {
        let (table, bytes) = (self.file.table, self.file.bytes);
        match self.is {
            OwnerIs::Node(number) => {
                head_line(bytes, "[[node]]", tables_at(table, "node").len(), number)
            }
            OwnerIs::Edge(number) => {
                head_line(bytes, "[[edge]]", tables_at(table, "edge").len(), number)
            }
            OwnerIs::Request(place) => {
                let count = tables_at(table, "request").len();
                head_line(bytes, "[[request]]", count, place.saturating_sub(1))
            }
            OwnerIs::Change(request, place) => {
                let before = changes_before(table, request.saturating_sub(1));
                let count = changes_before(table, usize::MAX);
                let number = before.saturating_add(place.saturating_sub(1));
                head_line(bytes, "[[request.change]]", count, number)
            }
        }
    }
}

/// The node with a number of a job file.
pub(crate) fn node_of(file: TomlFile<'_>, number: usize) -> Option<Owner<'_>> {
    Some(Owner {
        file,
        is: OwnerIs::Node(number),
        members: table_at(file.table, "node", number)?,
    })
}

/// The edge with a number of a job file.
pub(crate) fn edge_of(file: TomlFile<'_>, number: usize) -> Option<Owner<'_>> {
    Some(Owner {
        file,
        is: OwnerIs::Edge(number),
        members: table_at(file.table, "edge", number)?,
    })
}

/// The request with a place of a request file, from 1.
pub(crate) fn request_of(file: TomlFile<'_>, place: usize) -> Option<Owner<'_>> {
    Some(Owner {
        file,
        is: OwnerIs::Request(place),
        members: table_at(file.table, "request", place.checked_sub(1)?)?,
    })
}

/// The change with a place of the request with a place, both from 1.
pub(crate) fn change_of(file: TomlFile<'_>, request: usize, place: usize) -> Option<Owner<'_>> {
    let members = request_of(file, request)?.members;
    Some(Owner {
        file,
        is: OwnerIs::Change(request, place),
        members: table_at(members, "change", place.checked_sub(1)?)?,
    })
}

/// Appends the name and the kind of a node, if it has them, each after what parts it from what
/// stands before it.
pub(crate) fn push_node_names(
    node: &Table,
    before: &str,
    out: &mut String,
) -> Result<(), AllocError> {
    let name = text_at(node, "name");
    if let Some(name) = name {
        out.push_str(before)?;
        push_shown(name, out)?;
    }
    if let Some(kind) = text_at(node, "kind") {
        out.push_str(if name.is_some() { ", " } else { before })?;
        out.push_str("kind ")?;
        push_shown(kind, out)?;
    }
    Ok(())
}

/// Appends both ends of an edge after what parts them from what stands before, if it has them.
pub(crate) fn push_edge_names(
    edge: &Table,
    before: &str,
    out: &mut String,
) -> Result<(), AllocError> {
    if let (Some(from), Some(to)) = (text_at(edge, "from"), text_at(edge, "to")) {
        out.push_str(before)?;
        push_shown(from, out)?;
        out.push_str(" to ")?;
        push_shown(to, out)?;
    }
    Ok(())
}

/// Appends the name of the node of a change, if it has one.
pub(crate) fn push_changed_node(change: &Table, out: &mut String) -> Result<(), AllocError> {
    match text_at(change, "node") {
        Some(name) => {
            out.push_str(" of ")?;
            push_shown(name, out)
        }
        None => Ok(()),
    }
}

// How many changes the first requests of a file have.
fn changes_before(file: &Table, requests: usize) -> usize {
    let mut count = 0usize;
    for (number, request) in tables_at(file, "request").iter().enumerate() {
        if number < requests {
            if let Some(members) = request.as_table() {
                count = count.saturating_add(tables_at(members, "change").len());
            }
        }
    }
    count
}
