// Where the lines of a call go, and which of its words is the standard output.
use std::alloc::{AllocError, Global};
use std::fmt::Display;
use std::io;
use tuple_trace::Word;

/// Prints to the standard output, or to the standard error in its place.
#[derive(Drop)]
pub struct Lines {
    pub rt: HostRuntime,
    pub to_errors: bool,
}

impl Print for Lines {
    fn print<D: Display + Drop>(&self, value: D) -> io::Result<()> {
        if self.to_errors {
            self.rt.stderr().print(value)
        } else {
            self.rt.stdout().print(value)
        }
    }

    fn println<D: Display + Drop>(&self, value: D) -> io::Result<()> {
        if self.to_errors {
            self.rt.stderr().println(value)
        } else {
            self.rt.stdout().println(value)
        }
    }

    fn write_all(&self, bytes: &[u8]) -> io::Result<()> {
        if self.to_errors {
            self.rt.stderr().write_all(bytes)
        } else {
            self.rt.stdout().write_all(bytes)
        }
    }

    fn write_some(&self, bytes: &[u8]) -> io::Result<usize> {
        if self.to_errors {
            self.rt.stderr().write_some(bytes)
        } else {
            self.rt.stdout().write_some(bytes)
        }
    }
}

/// The name by which a shelf of the host writes to the standard output.
const STANDARD_OUTPUT: &str = "/dev/stdout";

/// Names the standard output in the place of each word `-` for ALERTS or AUDIT. Says whether there
/// is one.
pub fn name_standard_output(alloc: Global, words: &mut [Word]) -> Result<bool, AllocError> {
    let (first, last) = match words.first() {
        Some(command) => outputs_of(command.as_str()),
        None => return Ok(false),
    };
    let mut found = false;
    let mut name = 0u64;
    let mut is_value = false;
    for i in 1..words.len() {
        let text = words[i].as_str();
        if is_value {
            is_value = false;
        } else if text.starts_with("--") {
            is_value = text == "--threads" || text == "--capacity";
        } else {
            name = name.saturating_add(1);
            if text == "-" && first <= name && name <= last {
                words[i] = Word::from_string(String::from_str(alloc, STANDARD_OUTPUT)?);
                found = true;
            }
        }
    }
    Ok(found)
}

// The first and the last name of a command that is that of ALERTS or AUDIT, counted from 1.
fn outputs_of(command: &str) -> (u64, u64) {
    match command {
        "first" => (2, 2),
        "run" | "live" | "save" => (4, 5),
        "resume" => (5, 6),
        _ => (1, 0),
    }
}
