// The form that a key asks for.
use crate::members::items_of;
use crate::owners::{Owner, OwnerIs};
use job_file::Part;
use jobs::{Followers, Kind, Test};
use toml::{Table, Value as Toml};

/// How many bytes a name has at most.
const NAME_MAX: usize = 32;

/// Whether what stands at a key of a node, an edge, a request or a change is of the form that the
/// key asks for. A change has the version of its node at `from`, and an edge a name.
pub(crate) fn has_form(part: Part, owner: Owner<'_>, value: &Toml) -> bool {
    match part {
        Part::Name => is_name(value),
        Part::Kind => is_kind(value),
        Part::Workers | Part::Roof | Part::Most | Part::Low | Part::After => is_whole(value),
        Part::High => is_high(owner.members, value),
        Part::Port => is_from_zero(value),
        Part::From if matches!(owner.is, OwnerIs::Change(..)) => is_from_zero(value),
        Part::From | Part::To | Part::Node => value.as_str().is_some(),
        Part::Key | Part::Into | Part::On | Part::Table => value.as_str().is_some(),
        Part::Other | Part::Add => is_literal(value),
        Part::When => are_all(Item::Cond, value),
        Part::Steps => are_all(Item::Step, value),
        Part::By => is_byte(value),
        Part::Columns => are_all(Item::Text, value),
        Part::Carry => is_carry(value),
        Part::Change | Part::Request | Part::Edge | Part::Tables => value.as_array().is_some(),
        Part::Unknown => true,
    }
}

/// Whether a table of a file has to have a key: each key of its kind, and those that have no usual
/// value.
pub(crate) fn is_needed(part: Part, members: &Table) -> bool {
    match part {
        Part::Name | Part::Kind | Part::From | Part::To | Part::Node | Part::After => true,
        Part::Workers | Part::Roof | Part::Port | Part::Carry | Part::Change => false,
        Part::When => is_of_kind(members, "when"),
        Part::Steps => is_of_kind(members, "steps"),
        Part::Key => is_of_kind(members, "key"),
        Part::Into => is_of_kind(members, "into"),
        Part::Table => is_of_kind(members, "table"),
        Part::Other => is_of_kind(members, "other"),
        Part::Add => is_of_kind(members, "add"),
        Part::On => is_of_kind(members, "on"),
        Part::By => is_of_kind(members, "by"),
        Part::Most => is_of_kind(members, "most"),
        Part::Low => is_of_kind(members, "low"),
        Part::High => is_of_kind(members, "high"),
        Part::Columns => is_of_kind(members, "columns"),
        Part::Tables | Part::Edge | Part::Request | Part::Unknown => false,
    }
}

/// What a key asks for, as the end of a sentence.
pub(crate) fn wanted(part: Part, is_change: bool) -> &'static str {
    match part {
        Part::Name => "a string of 1 to 32 characters of a-z, 0-9 and _",
        Part::Kind => KINDS,
        Part::Workers | Part::Roof | Part::Most | Part::Low | Part::After => "a whole number",
        Part::High => "a whole number, not below `low`",
        Part::Port => "a whole number, 0 or more",
        Part::From if is_change => "the version of the node, a whole number, 0 or more",
        Part::From | Part::To | Part::Node => "the name of a node, as a string",
        Part::Key | Part::Into | Part::On => "the name of a column, as a string",
        Part::Table => "the name of a table, as a string",
        Part::Other => "a whole number or a string",
        Part::Add => "a whole number or the name of a column, as a string",
        Part::When => CONDITIONS,
        Part::Steps => STEPS,
        Part::By => "a string of one ASCII character",
        Part::Columns => "an array of names of columns, as strings",
        Part::Carry => r#""keep", "reset", ["scale", p, q] or ["below", n]; p, q, n whole numbers"#,
        Part::Change => "tables that begin with `[[request.change]]`",
        Part::Request => "tables that begin with `[[request]]`",
        Part::Edge => "tables that begin with `[[edge]]`",
        Part::Tables => "tables, as `[tables.NAME]`, whose entries are whole numbers or strings",
        Part::Unknown => "",
    }
}

const KINDS: &str = "\
source, filter, map, enrich, count, dedupe, clamp, split, replicate or sink, as a string";

const CONDITIONS: &str = "\
an array of arrays `[column, test, literal]`, as [[\"amount\", \">=\", 5000]]; tests are \
= != < <= > >=, and literals whole numbers (amounts in cents) or strings";

const STEPS: &str = "\
an array of arrays `[column, op, a, b]`, as [[\"fee\", \"add\", \"fee\", 100]]; ops are add, sub, \
mul, min and max, and a and b whole numbers or names of columns";

/// Whether a node may have a key.
pub(crate) fn is_node_key(node: &Table, key: &str) -> bool {
    let Some(kind) = kind_of(node) else {
        return true;
    };
    let row = kind.row();
    match key {
        "name" | "kind" => true,
        "workers" => 1 < row.most_workers,
        "roof" => matches!(row.followers, Followers::FreeKinds),
        _ => is_among(key, row.keys),
    }
}

/// Whether a change may have a key.
pub(crate) fn is_change_key(change: &Table, key: &str) -> bool {
    match kind_of(change) {
        Some(kind) => is_among(key, kind.row().keys) || is_among(key, CHANGE_KEYS),
        None => true,
    }
}

// The keys of a change beside those of its kind.
const CHANGE_KEYS: &[&str] = &["node", "from", "kind", "carry"];

/// Whether a key is one of these.
pub(crate) fn is_among(key: &str, keys: &[&str]) -> bool {
    for one in keys {
        if *one == key {
            return true;
        }
    }
    false
}

/// The kind that a node or a change names, if it is one.
pub(crate) fn kind_of(members: &Table) -> Option<Kind> {
    Kind::named(members.get("kind")?.as_str()?)
}

/// Whether a text is the name, the kind and perhaps the mark of a column, as `fee:cents:own`.
pub(crate) fn is_column(text: &str) -> bool {
    match text.split_once(':') {
        Some((name, ending)) => is_name_text(name) && is_ending(ending),
        None => false,
    }
}

/// Whether a text is a name of a node, a column or a table.
pub(crate) fn is_name_text(name: &str) -> bool {
    if name.is_empty() || name.len() > NAME_MAX {
        return false;
    }
    for byte in name.as_bytes() {
        if !byte.is_ascii_lowercase() && !byte.is_ascii_digit() && *byte != b'_' {
            return false;
        }
    }
    true
}

/// Whether a value is a whole number or a text.
pub(crate) fn is_literal(value: &Toml) -> bool {
    value.as_integer().is_some() || value.as_str().is_some()
}

/// The words of a test that texts take.
pub(crate) fn is_text_test(word: &str) -> bool {
    match Test::named(word) {
        Some(test) => test.row().texts,
        None => false,
    }
}

fn is_of_kind(members: &Table, key: &str) -> bool {
    match kind_of(members) {
        Some(kind) => is_among(key, kind.row().keys),
        None => false,
    }
}

fn is_ending(ending: &str) -> bool {
    let kind = match ending.split_once(':') {
        Some((kind, "own")) => kind,
        Some(_) => "",
        None => ending,
    };
    kind == "text" || kind == "number" || kind == "cents"
}

fn is_name(value: &Toml) -> bool {
    match value.as_str() {
        Some(name) => is_name_text(name),
        None => false,
    }
}

fn is_kind(value: &Toml) -> bool {
    match value.as_str() {
        Some(word) => Kind::named(word).is_some(),
        None => false,
    }
}

fn is_whole(value: &Toml) -> bool {
    value.as_integer().is_some()
}

// Whether a number is not below the one at `low`, if one stands there.
fn is_high(members: &Table, value: &Toml) -> bool {
    match (
        value.as_integer(),
        members.get("low").and_then(Toml::as_integer),
    ) {
        (Some(high), Some(low)) => low <= high,
        (Some(_), None) => true,
        (None, _) => false,
    }
}

fn is_from_zero(value: &Toml) -> bool {
    match value.as_integer() {
        Some(number) => number >= 0,
        None => false,
    }
}

fn is_byte(value: &Toml) -> bool {
    match value.as_str() {
        Some(text) => text.len() == 1,
        None => false,
    }
}

// What the items of an array are.
#[derive(Clone, Copy)]
enum Item {
    Text,
    Cond,
    Step,
}

fn are_all(item: Item, value: &Toml) -> bool {
    for one in items_of(value) {
        let is_one = match item {
            Item::Text => one.as_str().is_some(),
            Item::Cond => is_cond(one),
            Item::Step => is_step(one),
        };
        if !is_one {
            return false;
        }
    }
    value.as_array().is_some()
}

fn is_cond(item: &Toml) -> bool {
    match items_of(item) {
        [column, test, literal] => {
            column.as_str().is_some() && is_test(test) && is_literal(literal)
        }
        _ => false,
    }
}

fn is_test(value: &Toml) -> bool {
    match value.as_str() {
        Some(word) => Test::named(word).is_some(),
        None => false,
    }
}

fn is_step(item: &Toml) -> bool {
    match items_of(item) {
        [column, op, a, b] => {
            column.as_str().is_some() && is_op(op) && is_literal(a) && is_literal(b)
        }
        _ => false,
    }
}

fn is_op(value: &Toml) -> bool {
    match value.as_str() {
        Some(word) => is_among(word, &["add", "sub", "mul", "min", "max"]),
        None => false,
    }
}

fn is_carry(value: &Toml) -> bool {
    match value.as_str() {
        Some(word) => word == "keep" || word == "reset",
        None => is_carry_with(items_of(value)),
    }
}

fn is_carry_with(parts: &[Toml]) -> bool {
    match parts {
        [word, by, over] => {
            word.as_str() == Some("scale")
                && by.as_integer().is_some()
                && over.as_integer().is_some()
        }
        [word, least] => word.as_str() == Some("below") && least.as_integer().is_some(),
        _ => false,
    }
}
