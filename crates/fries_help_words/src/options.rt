// What is wrong with the options of a command.
use crate::forms::{Form, HelpLine, help_line};
use crate::names::name_count;
use crate::nearest::Nearest;
use crate::shown::push_shown;
use std::alloc::{AllocError, Global};
use std::fmt::Write;
use tuple_trace::{Word, digits_up_to};

/// The options that need another.
const NEEDS: &[(&str, &str)] = &[
    ("--every", "--save"),
    ("--resume", "--save"),
    ("--from", "--resume"),
];

/// The commands that take at most one of some options, and these.
const ONE_OF: &[(&str, &[&str])] = &[
    ("verify", &["--ordered", "--live", "--save"]),
    ("verify", &["--live", "--stream", "--save"]),
];

/// The options beside which a command takes no name that may be left out.
const NO_EXTRA: &[(&str, &str)] = &[("verify", "--stream")];

/// Appends the first thing that is wrong with the options among the words after a command.
pub(crate) fn push_option_fault(
    alloc: Global,
    form: Form,
    words: &[Word],
    out: &mut String,
) -> Result<(), AllocError> {
    let mut awaited = None;
    for word in words {
        match awaited {
            Some(line) => {
                push_word_value_fault(line, word.as_str(), out)?;
                awaited = None;
            }
            None => awaited = push_word_fault(alloc, form, words, word.as_str(), out)?,
        }
        if !out.is_empty() {
            return Ok(());
        }
    }
    if let Some(line) = awaited {
        return push_awaited(line, out);
    }
    push_need(words, out)?;
    if out.is_empty() {
        push_choice(form, words, out)?;
    }
    if out.is_empty() {
        push_extra(form, words, out)?;
    }
    Ok(())
}

/// The value of an option among the words after a command, as one word with it or as the next.
pub fn value_of<'w>(words: &'w [Word], option: &str) -> Option<&'w str> {
    let mut is_next = false;
    for word in words {
        if is_next {
            return Some(word.as_str());
        }
        match parts_of(word.as_str()) {
            (name, Some(value)) if name == option => return Some(value),
            (name, None) if name == option => is_next = true,
            _ => {}
        }
    }
    None
}

/// Appends what is wrong with a number, if its name or option has limits.
pub(crate) fn push_number_fault(
    line: HelpLine,
    word: &str,
    out: &mut String,
) -> Result<(), AllocError> {
    let Some(limits) = line.limits() else {
        return Ok(());
    };
    let (name, least, most) = (line.name, limits.least, limits.most);
    match digits_up_to(word.as_bytes(), most) {
        Some(number) if number >= least => Ok(()),
        _ => {
            write!(out, "`{name}` is {least} to {most}, and here it is ")?;
            push_shown(word, out)?;
            out.push('.')
        }
    }
}

/// Whether a word asks for help or the version.
pub(crate) fn is_alone(word: &str) -> bool {
    word == "--help" || word == "-h" || word == "--version" || word == "-V"
}

/// Appends where a word stands that asks for help or the version.
pub(crate) fn push_alone(word: &str, out: &mut String) -> Result<(), AllocError> {
    push_shown(word, out)?;
    out.push_str(" stands alone; `--help` may also be the one word after a command.")
}

fn push_awaited(line: HelpLine, out: &mut String) -> Result<(), AllocError> {
    let value = match line.limits() {
        Some(_) => "number",
        None => "name",
    };
    let name = line.name;
    write!(out, "No {value} follows `{name}`.")
}

// Appends the first option that stands without the one that it needs.
fn push_need(words: &[Word], out: &mut String) -> Result<(), AllocError> {
    for pair in NEEDS {
        if count_of(words, pair.0) > 0 && count_of(words, pair.1) == 0 {
            let (one, needed) = (pair.0, pair.1);
            return write!(out, "`{one}` needs `{needed}`.");
        }
    }
    Ok(())
}

// Appends two options of which the command takes at most one, if both stand.
fn push_choice(form: Form, words: &[Word], out: &mut String) -> Result<(), AllocError> {
    for pair in ONE_OF {
        if pair.0 == form.command && out.is_empty() {
            push_second(pair.1, words, out)?;
        }
    }
    Ok(())
}

// Appends an option beside which the last name doesn't stand, if both are there.
fn push_extra(form: Form, words: &[Word], out: &mut String) -> Result<(), AllocError> {
    let Some(extra) = form.extra() else {
        return Ok(());
    };
    if name_count(words) <= form.name_count() {
        return Ok(());
    }
    for pair in NO_EXTRA {
        let option = pair.1;
        if pair.0 == form.command && count_of(words, option) > 0 {
            return write!(out, "`{option}` and {extra} don't stand together.");
        }
    }
    Ok(())
}

// Appends the first two of these options that stand.
fn push_second(
    options: &[&'static str],
    words: &[Word],
    out: &mut String,
) -> Result<(), AllocError> {
    let mut first = None;
    for option in options {
        if count_of(words, option) > 0 {
            match first {
                Some(first) => {
                    return write!(out, "`{first}` and `{option}` don't stand together.");
                }
                None => first = Some(*option),
            }
        }
    }
    Ok(())
}

// Appends what is wrong with a word, if it is an option. Returns the line of the option whose
// value is the next word.
fn push_word_fault(
    alloc: Global,
    form: Form,
    words: &[Word],
    word: &str,
    out: &mut String,
) -> Result<Option<HelpLine>, AllocError> {
    let (name, value) = parts_of(word);
    if !name.starts_with('-') {
        return Ok(None);
    }
    let Some(line) = form.line(name) else {
        push_no_option(alloc, form, name, out)?;
        return Ok(None);
    };
    if count_of(words, name) > 1 {
        write!(out, "`{name}` stands more than once.")?;
        return Ok(None);
    }
    match value {
        Some(value) => {
            push_value_fault(line, value, out)?;
            Ok(None)
        }
        None if line.takes_value() => Ok(Some(line)),
        None => Ok(None),
    }
}

fn push_value_fault(line: HelpLine, value: &str, out: &mut String) -> Result<(), AllocError> {
    let name = line.name;
    if line.takes_value() {
        push_word_value_fault(line, value, out)
    } else {
        write!(out, "`{name}` takes no value.")
    }
}

// Appends what is wrong with the value of an option: a number out of its limits, or no name.
fn push_word_value_fault(line: HelpLine, word: &str, out: &mut String) -> Result<(), AllocError> {
    push_number_fault(line, word, out)?;
    if !out.is_empty() || !(word.is_empty() || word.starts_with('-')) {
        return Ok(());
    }
    let name = line.name;
    write!(out, "`{name}` has no name: ")?;
    push_shown(word, out)?;
    out.push_str(" is none; a name that begins with `-` is written as `./-x`.")
}

// An option, and its value if both are one word.
fn parts_of(word: &str) -> (&str, Option<&str>) {
    match word.split_once('=') {
        Some((name, value)) => (name, Some(value)),
        None => (word, None),
    }
}

// How many of the words are this option.
fn count_of(words: &[Word], option: &str) -> usize {
    let mut count = 0usize;
    for word in words {
        if parts_of(word.as_str()).0 == option {
            count = count.saturating_add(1);
        }
    }
    count
}

fn push_no_option(
    alloc: Global,
    form: Form,
    name: &str,
    out: &mut String,
) -> Result<(), AllocError> {
    if is_alone(name) {
        return push_alone(name, out);
    }
    if !name.starts_with("--") {
        push_shown(name, out)?;
        return out.push_str(" is no option; a name that begins with `-` is written as `./-x`.");
    }
    let command = form.command;
    write!(out, "`{command}` has no option ")?;
    push_shown(name, out)?;
    push_near(alloc, form, name, out)?;
    push_options(form, out)
}

fn push_near(alloc: Global, form: Form, name: &str, out: &mut String) -> Result<(), AllocError> {
    let mut nearest = Nearest::new(name);
    for line in form.help.lines() {
        if let Some(line) = option_line(line) {
            nearest.look(alloc, line.name)?;
        }
    }
    nearest.push(out)
}

fn push_options(form: Form, out: &mut String) -> Result<(), AllocError> {
    let mut has_some = false;
    for line in form.help.lines() {
        if let Some(line) = option_line(line) {
            out.push_str(if has_some { ", " } else { " Its options are " })?;
            push_shown(line.name, out)?;
            has_some = true;
        }
    }
    out.push_str(if has_some { "." } else { " It has none." })
}

fn option_line(line: &'static str) -> Option<HelpLine> {
    let line = help_line(line)?;
    if line.name.starts_with("--") {
        Some(line)
    } else {
        None
    }
}
