//! The program `fries`: it hands its words to [`fries_call::fries`], over the files and the
//! standard output of the host, and ends with the status that it returns. What the status means is
//! told on the standard error, in sentences.
#![tactic(auto)]

mod stream;
mod streams;
mod teller;
mod wrong_word;

use crate::stream::stream_main;
use crate::streams::{Lines, name_standard_output};
use crate::wrong_word::place_of_wrong_word;
use fries_call::{Host, Outcome, fries};
use fries_help::{Call, HostLook, advice, skipped_rows};
use fries_lines::{Fault, FileIs};
use fries_words::{WordsFault, is_stream, stream_of};
use live_control::StdIn;
use payments::{HostFault, HostShelf, StdOut};
use std::alloc::{AllocError, Global};
use std::env::Args;
use std::fs::File;
use std::io::{ErrorKind, Input, IsTerminal};
use std::mem::ManuallyDrop;
use std::process::ExitCode;
use std::rt::Files;
use std::{env, io};
use tuple_trace::{Gate, Word};

fn main(rt: HostRuntime) -> ExitCode {
    // They are held until the program ends.
    let Ok(_standard) = take_standard_descriptors(&rt) else {
        return ExitCode::from(Fault::Write(FileIs::Out).status());
    };
    let alloc = rt.alloc();
    let Ok(words) = words_of(&rt, alloc) else {
        return ExitCode::from(Fault::NoMemory.status());
    };
    let gate = Telling {
        rt,
        tells: is_live(&words.list) && rt.stderr().is_terminal(),
    };
    let host = Host {
        rt: &rt,
        alloc,
        gate: &gate,
    };
    if is_stream(&words.list) {
        match stream_of(alloc, &words.list) {
            Ok(files) => return stream_main(&host, rt, &words, &files),
            Err(WordsFault::NoMemory) => return ExitCode::from(Fault::NoMemory.status()),
            // The fault is told as that of any other words that have no form.
            Err(WordsFault::Usage) => {}
        }
    }
    let mut shelf = HostShelf::new(rt, alloc);
    let mut out = StdOut::new(Lines {
        rt,
        to_errors: words.to_errors,
    });
    let mut asks = StdIn::new(rt.reader());
    let outcome = fries(&host, &words.list, &mut shelf, &mut out, &mut asks);
    tell(&rt, alloc, &words, &outcome);
    tell_why(&rt, outcome.fault, shelf.why());
    let status = outcome.status;
    // The program ends here, so the record isn't freed entry by entry.
    let _kept = ManuallyDrop::new(outcome);
    ExitCode::from(status)
}

/// A gate that lets everything pass at once, and may tell on the standard error that a request was
/// issued, as it happens.
#[derive(Drop)]
pub(crate) struct Telling {
    pub(crate) rt: HostRuntime,
    pub(crate) tells: bool,
}

impl Gate for Telling {
    fn pass(&self, _node: u32, _worker: u32, _place: u64) {}

    fn issued(&self, request: u64) {
        if self.tells {
            let _ = eprint!(self.rt; "fries: request {request} is issued\n");
        }
    }
}

fn is_live(words: &[Word]) -> bool {
    match words.first() {
        Some(word) => word.as_str() == "live",
        None => false,
    }
}

// Tells on the standard error how many payments a later part left out, and then what ended the call
// or why requests were refused. What comes of that changes nothing.
fn tell(rt: &HostRuntime, alloc: Global, words: &Words, outcome: &Outcome) {
    if let Some(start) = &outcome.start {
        if let Ok(text) = skipped_rows(alloc, start.row) {
            let _ = eprint!(rt; "{text}");
        }
    }
    let call = Call {
        words: &words.list,
        not_utf8: words.not_utf8,
        fault: outcome.fault,
        refused: outcome.refused.as_slice(),
    };
    if let Ok(text) = advice(alloc, call, &mut HostLook::new(*rt)) {
        let _ = eprint!(rt; "{text}");
    }
}

// Tells why the system refused a file.
pub(crate) fn tell_why(rt: &HostRuntime, fault: Option<Fault>, why: Option<HostFault>) {
    let file = match fault {
        Some(Fault::Read(file) | Fault::Write(file)) => file,
        _ => return,
    };
    match why {
        Some(why) if file != FileIs::Asks && file != FileIs::Out => {
            let sentence = why.sentence();
            let _ = eprint!(rt; "  The system's answer: {sentence}.\n");
        }
        _ => {}
    }
}

// A file that is opened gets the least descriptor that is free. If the program is started without
// one of the three standard ones, the first file would get it, and what is printed would land in
// that file. So `/dev/null` takes it first, open for reading only: a write to it is refused.
fn take_standard_descriptors<R: Files>(rt: &R) -> io::Result<[R::File; 3]> {
    Ok([
        File::open(rt, "/dev/null")?,
        File::open(rt, "/dev/null")?,
        File::open(rt, "/dev/null")?,
    ])
}

// The words after the program's name.
#[derive(Drop)]
pub(crate) struct Words {
    pub(crate) list: Vec<Word>,
    // Whether one of them is the standard output.
    pub(crate) to_errors: bool,
    // The place of the first that isn't UTF-8; the list is empty then.
    not_utf8: Option<usize>,
}

// The words of the call. The one error is out of memory.
fn words_of(rt: &HostRuntime, alloc: Global) -> Result<Words, AllocError> {
    match env::args(rt) {
        Ok(args) => words_after_name(alloc, args),
        Err(error) if error.kind() == ErrorKind::OutOfMemory => Err(AllocError),
        Err(_) => Ok(Words {
            list: Vec::new(alloc),
            to_errors: false,
            not_utf8: Some(place_of_wrong_word(rt, alloc)?),
        }),
    }
}

fn words_after_name(alloc: Global, args: Args) -> Result<Words, AllocError> {
    let mut list = Vec::new(alloc);
    for text in args.skip(1) {
        list.push(Word::from_string(text))?;
    }
    let to_errors = name_standard_output(alloc, &mut list)?;
    Ok(Words {
        list,
        to_errors,
        not_utf8: None,
    })
}
