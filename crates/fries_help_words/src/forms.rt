// The forms of the commands, as their helps have them.
use fries_words::{Topic, help_text};
use tuple_trace::digits_up_to;

/// The commands in the order of the program's help, and what each is about.
pub(crate) const COMMANDS: &[(&str, Topic)] = &[
    ("check", Topic::Check),
    ("plan", Topic::Plan),
    ("run", Topic::Run),
    ("live", Topic::Live),
    ("stream", Topic::Stream),
    ("save", Topic::Save),
    ("resume", Topic::Resume),
    ("verify", Topic::Verify),
    ("make", Topic::Make),
    ("first", Topic::First),
];

/// The form of a command: its word and its help.
#[derive(Clone, Copy)]
pub(crate) struct Form {
    pub(crate) command: &'static str,
    pub(crate) help: &'static str,
}

/// The line of a name or an option in a help.
#[derive(Clone, Copy)]
pub(crate) struct HelpLine {
    pub(crate) name: &'static str,
    rest: &'static str,
}

/// The least and the greatest number that a name or an option may be.
#[derive(Clone, Copy)]
pub(crate) struct Limits {
    pub(crate) least: u64,
    pub(crate) most: u64,
}

/// The form of the command with this word, if there is one.
pub(crate) fn form_of(word: &str) -> Option<Form> {
    for pair in COMMANDS {
        if pair.0 == word {
            return Some(Form {
                command: pair.0,
                help: help_text(pair.1),
            });
        }
    }
    None
}

impl Form {
    // What follows the command in its usage.
    fn usage(self) -> &'static str {
        let usage = match self.help.split_once('\n') {
            Some((usage, _)) => usage,
            None => self.help,
        };
        match usage.split_once(self.command) {
            Some((_, names)) => names,
            None => "",
        }
    }

    /// The names that the command needs with a space between each two, as its usage has them.
    pub(crate) fn names(self) -> &'static str {
        match self.usage().split_once(" [") {
            Some((names, _)) => names.trim(),
            None => self.usage().trim(),
        }
    }

    /// How many names the command needs.
    pub(crate) fn name_count(self) -> usize {
        self.names().split(' ').count()
    }

    /// The name after them that may be left out, if there is one: the usage has it in brackets, and
    /// the help has a line for it.
    pub(crate) fn extra(self) -> Option<&'static str> {
        let (_, rest) = self.usage().split_once(" [")?;
        let (name, _) = rest.split_once(']')?;
        if name.starts_with('-') {
            return None;
        }
        match self.line(name) {
            Some(_) => Some(name),
            None => None,
        }
    }

    /// The line of a name or an option, if the help has one.
    pub(crate) fn line(self, name: &str) -> Option<HelpLine> {
        for line in self.help.lines() {
            if let Some(found) = help_line(line) {
                if found.name == name {
                    return Some(found);
                }
            }
        }
        None
    }
}

/// A line of a help that tells of a name or an option.
pub(crate) fn help_line(line: &'static str) -> Option<HelpLine> {
    let (name, rest) = line.strip_prefix("  ")?.split_once(' ')?;
    Some(HelpLine { name, rest })
}

impl HelpLine {
    /// Whether a value follows the option.
    pub(crate) fn takes_value(self) -> bool {
        !self.rest.starts_with(' ')
    }

    /// The limits of the number, if the line has some, as `1 to 16`.
    pub(crate) fn limits(self) -> Option<Limits> {
        let (before, after) = self.rest.split_once(" to ")?;
        let (_, least) = before.rsplit_once(' ')?;
        let most = match after.split_once(';') {
            Some((most, _)) => most,
            None => after,
        };
        Some(Limits {
            least: digits_up_to(least.as_bytes(), u64::MAX)?,
            most: digits_up_to(most.as_bytes(), u64::MAX)?,
        })
    }
}
