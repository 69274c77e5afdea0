// A call of the program, and the names of its files.
use fries_help_words::{name_at, value_of};
use fries_lines::{Fault, FileIs};
use tuple_trace::Word;
use versions::Refused;

/// A call of the program: its words, without the program's own name, and what it came to.
#[derive(Clone, Copy)]
pub struct Call<'a> {
    pub words: &'a [Word],
    /// The place of the first word that isn't UTF-8, from 1; 0 is the program's own name. If there
    /// is one, no words could be read.
    pub not_utf8: Option<usize>,
    /// What ended the call early, if anything did.
    pub fault: Option<Fault>,
    /// The requests that were refused, in the order of their file.
    pub refused: &'a [Refused],
}

/// What a file is called.
pub(crate) fn title_of(file: FileIs) -> &'static str {
    match file {
        FileIs::Job => "job file",
        FileIs::Requests => "request file",
        FileIs::Payments => "payments file",
        FileIs::Alerts => "alerts file",
        FileIs::Audit => "audit file",
        FileIs::Save => "savepoint",
        FileIs::Asks => "standard input",
        FileIs::Out => "standard output",
    }
}

impl<'a> Call<'a> {
    /// Whether the command is `first`, which has a job of its own.
    pub(crate) fn is_first(self) -> bool {
        match self.words.first() {
            Some(command) => command.as_str() == "first",
            None => false,
        }
    }

    /// Whether the command is `stream`, whose payments come on the standard input.
    pub(crate) fn is_stream(self) -> bool {
        match self.words.first() {
            Some(command) => command.as_str() == "stream",
            None => false,
        }
    }

    /// Whether an audit is looked at whose parts are put together.
    pub(crate) fn is_of_parts(self) -> bool {
        for word in self.words {
            if word.as_str() == "--stream" {
                return true;
            }
        }
        false
    }

    /// The name of a file, if the words have one for it. An option may name a savepoint.
    pub(crate) fn name_of(self, file: FileIs) -> Option<&'a str> {
        let (command, rest) = self.words.split_first()?;
        match files_of(command).iter().position(|named| *named == file) {
            Some(place) => Some(name_at(rest, place)?.as_str()),
            None if file == FileIs::Save => value_of(rest, "--save"),
            None => None,
        }
    }
}

// The files that a command names, in the order of their names. Its numbers follow them.
fn files_of(command: &Word) -> &'static [FileIs] {
    match command.as_str() {
        "first" => &[FileIs::Payments, FileIs::Alerts],
        "check" | "make" => &[FileIs::Job],
        "plan" => &[FileIs::Job, FileIs::Requests],
        "run" | "live" => &[
            FileIs::Job,
            FileIs::Requests,
            FileIs::Payments,
            FileIs::Alerts,
            FileIs::Audit,
        ],
        "stream" => &[FileIs::Job, FileIs::Requests, FileIs::Alerts, FileIs::Audit],
        "verify" => &[
            FileIs::Job,
            FileIs::Requests,
            FileIs::Payments,
            FileIs::Audit,
            FileIs::Alerts,
        ],
        "save" => &[
            FileIs::Job,
            FileIs::Requests,
            FileIs::Payments,
            FileIs::Alerts,
            FileIs::Audit,
            FileIs::Save,
        ],
        "resume" => &[
            FileIs::Job,
            FileIs::Requests,
            FileIs::Payments,
            FileIs::Save,
            FileIs::Alerts,
            FileIs::Audit,
        ],
        _ => &[],
    }
}
