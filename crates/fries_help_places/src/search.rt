// The first table of a file in which something is wrong, and the key at which it is.
use crate::forms::{has_form, is_needed};
use crate::members::{TomlFile, tables_at};
use crate::owners::{Owner, OwnerIs, change_of, edge_of, node_of, request_of};
use crate::sizes::size_key;
use crate::unknown_keys::unknown_key;
use job_file::Part;
use jobs::Which;

/// What is looked for in the tables of a file.
#[derive(Clone, Copy)]
pub(crate) enum Sought<'a> {
    /// The key of this part, if it is missing or its value has another form.
    Fault(Part, &'a str),
    /// A key that isn't in the layout.
    Unknown,
    /// A key whose value has this size.
    Size(Which, i64),
}

/// A key of a table of a file.
#[derive(Clone, Copy)]
pub(crate) struct Found<'a> {
    pub(crate) owner: Owner<'a>,
    pub(crate) key: &'a str,
}

/// The first such key of a job file: of its nodes, and then of its edges.
pub(crate) fn first_in_job<'a>(file: TomlFile<'a>, sought: Sought<'a>) -> Option<Found<'a>> {
    for number in 0..tables_at(file.table, "node").len() {
        let found = found_in(node_of(file, number), sought);
        if found.is_some() {
            return found;
        }
    }
    first_in_edges(file, sought)
}

fn first_in_edges<'a>(file: TomlFile<'a>, sought: Sought<'a>) -> Option<Found<'a>> {
    for number in 0..tables_at(file.table, "edge").len() {
        let found = found_in(edge_of(file, number), sought);
        if found.is_some() {
            return found;
        }
    }
    None
}

/// The first such key of a request file: of each request, and then of its changes.
pub(crate) fn first_in_requests<'a>(file: TomlFile<'a>, sought: Sought<'a>) -> Option<Found<'a>> {
    for number in 0..tables_at(file.table, "request").len() {
        let found = first_in_request(file, number.saturating_add(1), sought);
        if found.is_some() {
            return found;
        }
    }
    None
}

fn first_in_request<'a>(
    file: TomlFile<'a>,
    request: usize,
    sought: Sought<'a>,
) -> Option<Found<'a>> {
    let owner = request_of(file, request)?;
    let found = found_in(Some(owner), sought);
    if found.is_some() {
        return found;
    }
    for number in 0..tables_at(owner.members, "change").len() {
        let found = found_in(change_of(file, request, number.saturating_add(1)), sought);
        if found.is_some() {
            return found;
        }
    }
    None
}

fn found_in<'a>(owner: Option<Owner<'a>>, sought: Sought<'a>) -> Option<Found<'a>> {
    let owner = owner?;
    let key = match sought {
        Sought::Fault(part, key) if is_faulty(owner, part, key) => key,
        Sought::Fault(..) => return None,
        Sought::Unknown => unknown_key(owner)?,
        Sought::Size(which, size) => size_key(owner.members, which, size)?,
    };
    Some(Found { owner, key })
}

fn is_faulty(owner: Owner<'_>, part: Part, key: &str) -> bool {
    if !is_part_of(owner.is, part) {
        return false;
    }
    match owner.members.get(key) {
        Some(value) => !has_form(part, owner, value),
        None => is_needed(part, owner.members),
    }
}

// Whether such a table of a file may have the key of a part.
fn is_part_of(is: OwnerIs, part: Part) -> bool {
    match part {
        Part::Name | Part::Workers | Part::Roof => matches!(is, OwnerIs::Node(_)),
        Part::To | Part::Port => matches!(is, OwnerIs::Edge(_)),
        Part::From => matches!(is, OwnerIs::Edge(_) | OwnerIs::Change(..)),
        Part::After | Part::Change => matches!(is, OwnerIs::Request(_)),
        Part::Node | Part::Carry => matches!(is, OwnerIs::Change(..)),
        Part::Kind
        | Part::Columns
        | Part::When
        | Part::Steps
        | Part::Key
        | Part::Into
        | Part::Table
        | Part::Other
        | Part::Add
        | Part::On
        | Part::By
        | Part::Most
        | Part::Low
        | Part::High => matches!(is, OwnerIs::Node(_) | OwnerIs::Change(..)),
        Part::Tables | Part::Edge | Part::Request | Part::Unknown => false,
    }
}
