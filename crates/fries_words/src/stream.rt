// What the words of a command line ask of a stream.
ghost use Rattle.std.specs.Prelude.{◌≡◌, ◌≢◌, ◌≤◌, IfErr, IfOk, IfSome, None, Some, drop};
ghost use Rattle.std.specs.Prelude.{length, slice_get};
ghost use Rattle.fries_words.specs.Asked.{IsSize};
ghost use Rattle.fries_words.specs.Stream.{is_stream as is_stream_of, stream_after as after_of};
ghost use Rattle.fries_words.specs.Stream.{stream_asked, stream_of as stream_of_words};
ghost use Rattle.fries_words.specs.Views.{texts};
ghost use Rattle.fries_words.specs.Words.{topic_of as topic_of_word};

use crate::command::{is_help, matches_of, strings_of};
use crate::form::form_of;
use crate::parts::has_form;
use crate::stream_values::stream_with;
use crate::{EngineSize, PlanFiles, Topic, WordsFault};
use std::alloc::Global;
use tuple_trace::Word;

/// After how many rows a stream writes its savepoint, if nothing else is asked for.
pub const USUAL_EVERY: u32 = 65_536;

/// After how many rows a stream writes its savepoint at most.
pub const MAX_EVERY: u32 = 1_048_576;

/// How many of its first rows a stream leaves out at most, which is 2^63 - 2.
pub const MAX_FROM: u64 = (1 << 63) - 2;

/// The files of the command `stream`, and the engines that run it. Its payments come on the
/// standard input.
#[derive(Drop)]
pub struct StreamFiles {
    pub plan: PlanFiles,
    /// The file that the alerts are written to.
    pub alerts: Word,
    /// The file that the audit is written to. Its name is another word than that of the alerts.
    pub audit: Word,
    pub size: EngineSize,
    /// Whether each request takes effect just behind the row that it asks for.
    pub exact: bool,
    /// What is saved; `None` if nothing is.
    pub saving: Option<StreamSaving>,
    /// Whether it is to tell how far it has come.
    pub progress: bool,
}

/// What a stream saves.
#[derive(Drop)]
pub struct StreamSaving {
    /// The file of the savepoint. Its name is another word than those of the alerts and the audit.
    pub file: Word,
    /// After how many rows it is written, 1 to 1,048,576.
    pub every: u32,
    /// How many of its first rows the input leaves out, if the stream goes on from the savepoint;
    /// `None` if it begins anew.
    pub resume: Option<u64>,
}

/// Whether the words ask for a stream. `stream --help` asks for help.
pub fn is_stream(words: &[Word]) -> bool
    ensures { result ≡ is_stream_of words.now }
{
    match words {
        [word, help] => word.as_str() == "stream" && !is_help(help.as_str()),
        [word, ..] => word.as_str() == "stream",
        [] => false,
    }
}

/// What the words after the program's name ask of a stream.
///
/// `--every` and `--resume` need `--save`, and `--from` needs `--resume`.
///
/// # Errors
///
/// [`WordsFault::Usage`] if the words are no full form of `stream`, or a number is outside its
/// range. The one other answer is out of memory.
pub fn stream_of(alloc: Global, words: &[Word]) -> Result<StreamFiles, WordsFault>
    ensures asked { IfOk result (λ files. stream_of_words words.now
        ≡ Some (stream_asked files)) }
    ensures sized { IfOk result (λ files. IsSize files.size) }
    ensures usage { IfErr result (λ fault. fault ≢ WordsFault.NoMemory
        → stream_of_words words.now ≡ None) }
{
    if !is_stream(words) {
        return Err(WordsFault::Usage);
    }
    let words = strings_of(alloc, words)?;
    stream_after(alloc, &words)
}

// What is asked by the words that follow `stream`.
fn stream_after<'w>(alloc: Global, words: &'w [&'w str]) -> Result<StreamFiles, WordsFault>
    requires command { IfSome (slice_get (texts words.now) 0) (λ word. topic_of_word word
        ≡ Some Topic.Stream) }
    requires some { 1 ≤ length words.now }
    ensures asked { IfOk result (λ files. after_of (drop 1 (texts words.now))
        ≡ Some (stream_asked files)) }
    ensures sized { IfOk result (λ files. IsSize files.size) }
    ensures usage { IfErr result (λ fault. fault ≢ WordsFault.NoMemory
        → after_of (drop 1 (texts words.now)) ≡ None) }
{
    if !has_form(alloc, &form_of(Topic::Stream), &words[1..])? {
        return Err(WordsFault::Usage);
    }
    let Ok(matches) = matches_of(alloc, words) else {
        return Err(WordsFault::NoMemory);
    };
    match matches.subcommand_matches(words[0]) {
        Some(values) => stream_with(alloc, values),
        None => unreachable!(),
    }
}
