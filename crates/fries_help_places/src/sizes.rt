// The table in which a size is outside its limit, and the limits in sentences.
use crate::members::{TomlFile, items_of};
use crate::place::Place;
use crate::search::{Found, Sought, first_in_job, first_in_requests};
use crate::shapes::push_place;
use jobs::Which;
use std::alloc::AllocError;
use toml::{Table, Value as Toml};

/// The limit of a count or a size, in a sentence.
pub(crate) fn limit_of(which: Which) -> &'static str {
    match which {
        Which::Nodes => "A job has 1 to 64 nodes.",
        Which::Edges => "A job has at most 128 edges.",
        Which::Workers => "A node has 1 to 8 workers, and a source or a sink has 1.",
        Which::AllWorkers => "All nodes but the sources have at most 64 workers together.",
        Which::Columns => "A job has 1 to 12 columns.",
        Which::Text => "A text, and the key of a table's entry, has at most 48 bytes.",
        Which::Entries => "All tables together have at most 4,096 entries.",
        Which::Conditions => "A filter has at most 8 conditions.",
        Which::Steps => "A map has at most 8 steps.",
        Which::Most => "A split makes 1 to 16 pieces.",
        Which::Roof => "A roof is 1 to 16, at least `most`, and 1 at a filter with two edges out.",
        Which::Requests => "A file has at most 64 requests.",
        Which::Changes => "A request has at most 64 changes.",
        Which::After => "A request's `after` is 0 to 1,048,576.",
    }
}

/// Tells which node of a job file has this size, if it is one of a node.
pub(crate) fn push_job_size(
    file: TomlFile<'_>,
    which: Which,
    size: i64,
    place: &mut Place,
) -> Result<(), AllocError> {
    push_size(first_in_job(file, Sought::Size(which, size)), place)
}

/// Tells which request or change of a request file has this size, if it is one of theirs.
pub(crate) fn push_request_size(
    file: TomlFile<'_>,
    which: Which,
    size: i64,
    place: &mut Place,
) -> Result<(), AllocError> {
    push_size(first_in_requests(file, Sought::Size(which, size)), place)
}

fn push_size(found: Option<Found<'_>>, place: &mut Place) -> Result<(), AllocError> {
    match found {
        Some(found) => {
            push_place(found, place)?;
            place.detail.push_str(". ")
        }
        None => Ok(()),
    }
}

/// The key of a table at which this size stands, if it is one of such a table.
pub(crate) fn size_key(members: &Table, which: Which, size: i64) -> Option<&'static str> {
    for key in keys_of(which) {
        if let Some(value) = members.get(*key) {
            if has_size(which, value, size) {
                return Some(*key);
            }
        }
    }
    None
}

fn keys_of(which: Which) -> &'static [&'static str] {
    match which {
        Which::Workers => &["workers"],
        Which::Most => &["most"],
        Which::Roof => &["roof"],
        Which::After => &["after"],
        Which::Conditions => &["when"],
        Which::Steps => &["steps"],
        Which::Changes => &["change"],
        Which::Text => &["when", "other"],
        Which::Nodes
        | Which::Edges
        | Which::AllWorkers
        | Which::Columns
        | Which::Entries
        | Which::Requests => &[],
    }
}

fn has_size(which: Which, value: &Toml, size: i64) -> bool {
    match which {
        Which::Workers | Which::Most | Which::Roof | Which::After => {
            value.as_integer() == Some(size)
        }
        Which::Text => has_text(value, size) || have_text(items_of(value), size),
        Which::Conditions | Which::Steps | Which::Changes => {
            is_length(items_of(value).len(), size)
        }
        Which::Nodes
        | Which::Edges
        | Which::AllWorkers
        | Which::Columns
        | Which::Entries
        | Which::Requests => false,
    }
}

fn have_text(conds: &[Toml], size: i64) -> bool {
    for cond in conds {
        if let [_, _, literal] = items_of(cond) {
            if has_text(literal, size) {
                return true;
            }
        }
    }
    false
}

fn has_text(value: &Toml, size: i64) -> bool {
    match value.as_str() {
        Some(text) => is_length(text.len(), size),
        None => false,
    }
}

fn is_length(length: usize, size: i64) -> bool {
    match i64::try_from(length) {
        Ok(length) => length == size,
        Err(_) => false,
    }
}
