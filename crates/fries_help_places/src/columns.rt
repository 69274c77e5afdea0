// The column of a node or a change that isn't there, or a value that doesn't fit its column.
use crate::forms::{is_text_test, kind_of};
use crate::lines::entry_line;
use crate::members::{TomlFile, items_of, job_tables, tables_at, text_at};
use crate::owners::Owner;
use crate::shapes::push_found;
use fries_help_words::push_shown;
use jobs::Kind;
use std::alloc::AllocError;
use std::fmt::Write;
use toml::{Table, Value as Toml};

/// What doesn't fit the columns of a job.
#[derive(Clone, Copy)]
struct Misfit<'a> {
    /// The key at which it stands.
    key: &'static str,
    /// The name of a column, a test, or the key of an entry of the table at `table`.
    word: &'a str,
    /// What is said of it.
    is: &'static str,
}

/// What a column is to hold.
#[derive(Clone, Copy)]
enum Held {
    Anything,
    Texts,
    Numbers,
}

/// Appends what doesn't fit in a node or a change, and the columns of the job.
pub(crate) fn push_misfit<'a>(
    job: TomlFile<'a>,
    owner: Owner<'a>,
    out: &mut String,
) -> Result<(), AllocError> {
    if let Some(misfit) = misfit_of(job.table, owner.members) {
        let is = misfit.is;
        push_found(owner, misfit.key, out)?;
        out.push_str(", and ")?;
        push_shown(misfit.word, out)?;
        write!(out, " {is}. ")?;
        push_entry_line(job, owner, misfit, out)?;
    }
    push_columns(job.table, out)
}

// Appends the line at which an entry of a table doesn't fit, if it is one and its line is known.
fn push_entry_line(
    job: TomlFile<'_>,
    owner: Owner<'_>,
    misfit: Misfit<'_>,
    out: &mut String,
) -> Result<(), AllocError> {
    let table = match text_at(owner.members, "table") {
        Some(table) if misfit.key == "table" => table,
        Some(_) | None => return Ok(()),
    };
    match entry_line(job.bytes, table, misfit.word) {
        Some(line) => {
            let number = line.number;
            write!(out, "Line {number} of the job file has ")?;
            push_shown(line.text, out)?;
            out.push_str(". ")
        }
        None => Ok(()),
    }
}

fn push_columns(job: &Table, out: &mut String) -> Result<(), AllocError> {
    let mut has_some = false;
    for column in tables_at(job, "columns") {
        if let Some(column) = column.as_str() {
            out.push_str(if has_some {
                ", "
            } else {
                "The job's columns are "
            })?;
            push_shown(column, out)?;
            has_some = true;
        }
    }
    out.push('.')
}

fn misfit_of<'a>(job: &'a Table, members: &'a Table) -> Option<Misfit<'a>> {
    let columns = tables_at(job, "columns");
    match kind_of(members)? {
        Kind::Filter => listed_misfit(columns, members, "when"),
        Kind::Map => listed_misfit(columns, members, "steps"),
        Kind::Enrich => {
            let key = key_misfit(columns, members, "key", Held::Texts);
            let into = key_misfit(columns, members, "into", Held::Anything);
            first_of(first_of(key, into), value_misfit(job, members))
        }
        Kind::Count => {
            let key = key_misfit(columns, members, "key", Held::Texts);
            let add = key_misfit(columns, members, "add", Held::Numbers);
            let into = key_misfit(columns, members, "into", Held::Numbers);
            first_of(first_of(key, add), into)
        }
        Kind::Dedupe => key_misfit(columns, members, "key", Held::Texts),
        Kind::Clamp => key_misfit(columns, members, "on", Held::Numbers),
        Kind::Split => key_misfit(columns, members, "on", Held::Texts),
        Kind::Sink => listed_misfit(columns, members, "columns"),
        Kind::Source | Kind::Replicate => None,
    }
}

fn first_of<'a>(one: Option<Misfit<'a>>, other: Option<Misfit<'a>>) -> Option<Misfit<'a>> {
    if one.is_some() { one } else { other }
}

// What is wrong with the column that stands at a key, if one does.
fn key_misfit<'a>(
    columns: &[Toml],
    members: &'a Table,
    key: &'static str,
    held: Held,
) -> Option<Misfit<'a>> {
    use_misfit(columns, key, text_at(members, key), held)
}

// What is wrong with a column that is named at a key, if one is.
fn use_misfit<'a>(
    columns: &[Toml],
    key: &'static str,
    name: Option<&'a str>,
    held: Held,
) -> Option<Misfit<'a>> {
    let word = name?;
    let is = match (held_by(columns, word), held) {
        (None, _) => "is no column of the job",
        (Some("text"), Held::Numbers) => "holds texts, where numbers or cents are wanted",
        (Some("text"), Held::Texts | Held::Anything) => return None,
        (Some(_), Held::Texts) => "holds no texts, which are wanted here",
        (Some(_), Held::Numbers | Held::Anything) => return None,
    };
    Some(Misfit { key, word, is })
}

// The word for what a column of the job holds.
fn held_by<'a>(columns: &'a [Toml], name: &str) -> Option<&'a str> {
    for column in columns {
        if let Some((named, ending)) = column.as_str()?.split_once(':') {
            if named == name {
                return Some(match ending.split_once(':') {
                    Some((kind, _)) => kind,
                    None => ending,
                });
            }
        }
    }
    None
}

// What is wrong with the values of an enrich, if its column is there: `other`, or an entry of its
// table.
fn value_misfit<'a>(job: &'a Table, members: &'a Table) -> Option<Misfit<'a>> {
    let into = text_at(members, "into")?;
    let has_texts = held_by(tables_at(job, "columns"), into)? == "text";
    if !may_hold(has_texts, members.get("other")?) {
        return Some(Misfit {
            key: "other",
            word: into,
            is: if has_texts {
                "holds texts, so a string is wanted"
            } else {
                "holds numbers or cents, so a whole number is wanted"
            },
        });
    }
    let entries = job_tables(job)?
        .get(text_at(members, "table")?)?
        .as_table()?;
    Some(Misfit {
        key: "table",
        word: unheld_entry(entries, has_texts)?,
        is: if has_texts {
            "is a number there, but `into` is a column of texts"
        } else {
            "is a string there, but `into` is a column of numbers or cents"
        },
    })
}

// Whether a column of texts, or one of numbers or cents, may hold a value.
fn may_hold(has_texts: bool, value: &Toml) -> bool {
    if has_texts {
        value.as_str().is_some()
    } else {
        value.as_integer().is_some()
    }
}

// The first entry of a table whose value such a column can't hold.
fn unheld_entry(entries: &Table, has_texts: bool) -> Option<&str> {
    for (key, value) in entries.iter() {
        if !may_hold(has_texts, value) {
            return Some(key.as_str());
        }
    }
    None
}

// What is wrong with the first item that doesn't fit: a condition, a step, or a column's name.
fn listed_misfit<'a>(
    columns: &[Toml],
    members: &'a Table,
    key: &'static str,
) -> Option<Misfit<'a>> {
    for item in tables_at(members, key) {
        let misfit = match key {
            "when" => cond_misfit(columns, items_of(item)),
            "steps" => step_misfit(columns, items_of(item)),
            _ => use_misfit(columns, key, item.as_str(), Held::Anything),
        };
        if misfit.is_some() {
            return misfit;
        }
    }
    None
}

// What is wrong with a condition: its column, or a test that texts don't take.
fn cond_misfit<'a>(columns: &[Toml], parts: &'a [Toml]) -> Option<Misfit<'a>> {
    let [column, test, literal] = parts else {
        return None;
    };
    if literal.as_integer().is_some() {
        return use_misfit(columns, "when", column.as_str(), Held::Numbers);
    }
    let misfit = use_misfit(columns, "when", column.as_str(), Held::Texts);
    if misfit.is_some() {
        return misfit;
    }
    test_misfit(test.as_str()?)
}

fn test_misfit(word: &str) -> Option<Misfit<'_>> {
    if is_text_test(word) {
        None
    } else {
        Some(Misfit {
            key: "when",
            word,
            is: "is no test of texts",
        })
    }
}

fn step_misfit<'a>(columns: &[Toml], parts: &'a [Toml]) -> Option<Misfit<'a>> {
    let [column, _, a, b] = parts else {
        return None;
    };
    let column = use_misfit(columns, "steps", column.as_str(), Held::Numbers);
    let a = use_misfit(columns, "steps", a.as_str(), Held::Numbers);
    let b = use_misfit(columns, "steps", b.as_str(), Held::Numbers);
    first_of(first_of(column, a), b)
}
