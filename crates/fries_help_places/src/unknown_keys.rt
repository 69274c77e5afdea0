// The first key that isn't in the layout.
use crate::forms::{is_among, is_change_key, is_node_key};
use crate::lines::document_line;
use crate::members::TomlFile;
use crate::owners::{Owner, OwnerIs};
use crate::place::Place;
use crate::search::{Found, Sought, first_in_job, first_in_requests};
use crate::shapes::{push_line, push_place};
use fries_help_words::push_shown;
use std::alloc::AllocError;

/// Tells of the first key of a job file that isn't in the layout.
pub(crate) fn push_unknown_in_job(file: TomlFile<'_>, place: &mut Place) -> Result<(), AllocError> {
    let keys = ["columns", "tables", "node", "edge"];
    match unknown_of_file(file, &keys) {
        Some(key) => push_unknown_of_file(file, key, &keys, &mut place.detail),
        None => push_unknown(first_in_job(file, Sought::Unknown), place),
    }
}

/// Tells of the first key of a request file that isn't in the layout.
pub(crate) fn push_unknown_in_requests(
    file: TomlFile<'_>,
    place: &mut Place,
) -> Result<(), AllocError> {
    let keys = ["request"];
    match unknown_of_file(file, &keys) {
        Some(key) => push_unknown_of_file(file, key, &keys, &mut place.detail),
        None => push_unknown(first_in_requests(file, Sought::Unknown), place),
    }
}

fn push_unknown(found: Option<Found<'_>>, place: &mut Place) -> Result<(), AllocError> {
    match found {
        Some(found) => {
            push_place(found, place)?;
            push_keys(found.owner, &mut place.detail)
        }
        None => Ok(()),
    }
}

/// The first key of a table of a file that such a table doesn't have.
pub(crate) fn unknown_key(owner: Owner<'_>) -> Option<&str> {
    for (key, _) in owner.members.iter() {
        if !is_key(owner, key.as_str()) {
            return Some(key.as_str());
        }
    }
    None
}

fn is_key(owner: Owner<'_>, key: &str) -> bool {
    match owner.is {
        OwnerIs::Node(_) => is_node_key(owner.members, key),
        OwnerIs::Edge(_) => is_among(key, &["from", "to", "port"]),
        OwnerIs::Request(_) => is_among(key, &["after", "change"]),
        OwnerIs::Change(..) => is_change_key(owner.members, key),
    }
}

/// All keys of nodes, edges, requests and changes, in the order in which they are told.
const KEYS: &[&str] = &[
    "name", "node", "from", "to", "port", "after", "change", "kind", "carry", "workers", "roof",
    "when", "steps", "key", "into", "table", "other", "add", "on", "low", "high", "by", "most",
    "columns",
];

fn push_keys(owner: Owner<'_>, out: &mut String) -> Result<(), AllocError> {
    let mut has_some = false;
    for key in KEYS {
        if is_key(owner, key) {
            out.push_str(if has_some { ", " } else { "; its keys are " })?;
            push_shown(key, out)?;
            has_some = true;
        }
    }
    out.push('.')
}

// The first key of the whole file that isn't one of these.
fn unknown_of_file<'a>(file: TomlFile<'a>, keys: &[&str]) -> Option<&'a str> {
    for (key, _) in file.table.iter() {
        if !is_among(key.as_str(), keys) {
            return Some(key.as_str());
        }
    }
    None
}

fn push_unknown_of_file(
    file: TomlFile<'_>,
    key: &str,
    keys: &[&str],
    out: &mut String,
) -> Result<(), AllocError> {
    match document_line(file.bytes, key) {
        Some(line) => push_line(line, out)?,
        None => push_shown(key, out)?,
    }
    push_all(keys, out)
}

fn push_all(keys: &[&str], out: &mut String) -> Result<(), AllocError> {
    let mut has_some = false;
    for key in keys {
        out.push_str(if has_some {
            ", "
        } else {
            "; the keys of the file are "
        })?;
        push_shown(key, out)?;
        has_some = true;
    }
    out.push('.')
}
