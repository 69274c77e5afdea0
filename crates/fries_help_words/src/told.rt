// The first thing that is wrong with words.
use crate::forms::{COMMANDS, Form, form_of};
use crate::names::{name_at, name_count};
use crate::nearest::Nearest;
use crate::options::{is_alone, push_alone, push_number_fault, push_option_fault, value_of};
use crate::shown::push_shown;
use fries_words::{Topic, help_text};
use std::alloc::{AllocError, Global};
use std::fmt::Write;
use tuple_trace::Word;

/// The files that a command writes or goes on from, which have different words.
const APART: &[(&str, &str)] = &[("ALERTS", "AUDIT"), ("ALERTS", "SAVE"), ("AUDIT", "SAVE")];

/// What is told before the fault of these words: the help of the program if there are no words.
pub fn opening(words: &[Word]) -> &'static str {
    if words.is_empty() {
        help_text(Topic::Program)
    } else {
        ""
    }
}

/// The first thing that is wrong with words that have no form, in sentences.
///
/// The order is: the command, its options, how many names there are, their numbers, and files that
/// have one word.
///
/// # Errors
///
/// Out of memory.
pub fn word_fault(alloc: Global, words: &[Word]) -> Result<String, AllocError> {
    let mut out = String::new(alloc);
    push_fault(alloc, words, &mut out)?;
    Ok(out)
}

fn push_fault(alloc: Global, words: &[Word], out: &mut String) -> Result<(), AllocError> {
    let Some((command, rest)) = words.split_first() else {
        return out.push_str("No command is named.");
    };
    match form_of(command.as_str()) {
        Some(form) => push_fault_after(alloc, form, rest, out),
        None => push_no_command(alloc, command.as_str(), out),
    }
}

fn push_no_command(alloc: Global, word: &str, out: &mut String) -> Result<(), AllocError> {
    if is_alone(word) {
        return push_alone(word, out);
    }
    if word.starts_with('-') {
        return out.push_str("Options stand after the command.");
    }
    out.push_str("There is no command ")?;
    push_shown(word, out)?;
    push_near(alloc, word, out)?;
    push_commands(out)
}

fn push_near(alloc: Global, word: &str, out: &mut String) -> Result<(), AllocError> {
    let mut nearest = Nearest::new(word);
    for pair in COMMANDS {
        nearest.look(alloc, pair.0)?;
    }
    nearest.push(out)
}

fn push_commands(out: &mut String) -> Result<(), AllocError> {
    let mut before = " The commands are ";
    for pair in COMMANDS {
        out.push_str(before)?;
        out.push_str(pair.0)?;
        before = ", ";
    }
    out.push('.')
}

fn push_fault_after(
    alloc: Global,
    form: Form,
    words: &[Word],
    out: &mut String,
) -> Result<(), AllocError> {
    push_option_fault(alloc, form, words, out)?;
    if out.is_empty() {
        push_count_fault(form, words, out)?;
    }
    if out.is_empty() {
        push_name_fault(form, words, out)?;
    }
    if out.is_empty() {
        push_same_fault(form, words, out)?;
    }
    let command = form.command;
    write!(out, " Type `fries {command} --help`.")
}

fn push_count_fault(form: Form, words: &[Word], out: &mut String) -> Result<(), AllocError> {
    let needed = form.name_count();
    let most = match form.extra() {
        Some(_) => needed.saturating_add(1),
        None => needed,
    };
    let here = name_count(words);
    if here >= needed && here <= most {
        return Ok(());
    }
    push_wanted(form, out)?;
    let are = if here == 1 { "is" } else { "are" };
    write!(out, ", and here {are} {here}: ")?;
    match name_at(words, most) {
        Some(more) => {
            push_shown(more.as_str(), out)?;
            out.push_str(" is too many.")
        }
        None => push_missing(form.names(), here, out),
    }
}

// Appends how many names the command takes, and which.
fn push_wanted(form: Form, out: &mut String) -> Result<(), AllocError> {
    let (command, names, needed) = (form.command, form.names(), form.name_count());
    match form.extra() {
        Some(extra) => {
            let most = needed.saturating_add(1);
            write!(
                out,
                "`{command}` takes {needed} or {most} names ({names} [{extra}])"
            )
        }
        None => {
            let s = if needed == 1 { "" } else { "s" };
            write!(out, "`{command}` takes {needed} name{s} ({names})")
        }
    }
}

// Appends which names are missing after so many.
fn push_missing(names: &str, here: usize, out: &mut String) -> Result<(), AllocError> {
    let mut missing = 0usize;
    for (place, name) in names.split(' ').enumerate() {
        if place >= here {
            out.push_str(if missing == 0 { "" } else { ", " })?;
            out.push_str(name)?;
            missing = missing.saturating_add(1);
        }
    }
    out.push_str(if missing == 1 {
        " is missing."
    } else {
        " are missing."
    })
}

// Appends the first name that is empty, or a number out of its limits.
fn push_name_fault(form: Form, words: &[Word], out: &mut String) -> Result<(), AllocError> {
    for (place, name) in form.names().split(' ').enumerate() {
        if let Some(word) = name_at(words, place) {
            push_one_fault(form, name, word.as_str(), out)?;
        }
        if !out.is_empty() {
            return Ok(());
        }
    }
    match (form.extra(), name_at(words, form.name_count())) {
        (Some(extra), Some(word)) => push_one_fault(form, extra, word.as_str(), out),
        _ => Ok(()),
    }
}

fn push_one_fault(form: Form, name: &str, word: &str, out: &mut String) -> Result<(), AllocError> {
    if word.is_empty() {
        return write!(out, "{name} is an empty word.");
    }
    match form.line(name) {
        Some(line) => push_number_fault(line, word, out),
        None => Ok(()),
    }
}

fn push_same_fault(form: Form, words: &[Word], out: &mut String) -> Result<(), AllocError> {
    for pair in APART {
        if let (Some(one), Some(other)) = (
            word_of(form, words, pair.0),
            word_of(form, words, pair.1),
        ) {
            if one == other {
                let (one, other) = (pair.0, pair.1);
                return write!(out, "{one} and {other} are the same word.");
            }
        }
    }
    Ok(())
}

// The word that stands for a name of the form. A savepoint may be named by its option.
fn word_of<'w>(form: Form, words: &'w [Word], name: &str) -> Option<&'w str> {
    for (place, named) in form.names().split(' ').enumerate() {
        if named == name {
            return Some(name_at(words, place)?.as_str());
        }
    }
    if name == "SAVE" {
        return value_of(words, "--save");
    }
    None
}
