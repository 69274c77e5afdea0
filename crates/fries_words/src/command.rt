ghost use Rattle.std.specs.Prelude.{◌≡◌, ◌≢◌, ◌≤◌, IfOk, IfErr, IfSome, Some, None, drop, length};
ghost use Rattle.std.specs.Prelude.{slice_get, true};
ghost use Rattle.clap.specs.Words.{kind_of, subcommand_of, subcommand_rows_of, takes};
ghost use Rattle.clap.specs.declared.error.kind.ErrorKind.TheVariants.{OutOfMemory as MemoryRanOut};
ghost use Rattle.fries_words.specs.Apps.{program_app};
ghost use Rattle.fries_words.specs.Asked.{IsSized, asked_by};
ghost use Rattle.fries_words.specs.Words.{asked_after, asked_alone, asked_of};
ghost use Rattle.fries_words.specs.Words.{asks_help as asks_help_of, is_help as is_help_word};
ghost use Rattle.fries_words.specs.Words.{is_version as is_version_word};
ghost use Rattle.fries_words.specs.Words.{topic_of as topic_of_word};
ghost use Rattle.fries_words.specs.Views.{texts};
ghost use Rattle.fries_words.specs.declared.command.WordsFault.TheVariants.{NoMemory as OutOfMemory};

use crate::Topic;
use crate::apps::program;
use crate::form::form_of;
use crate::parts::has_form;
use crate::values::command_with;
use clap::{ArgMatches, Error};
use std::alloc::Global;
use tuple_trace::{NoMemory, Word};

/// What the program is asked to do.
#[derive(Drop)]
pub enum Command {
    First(First),
    /// To read this job file, and print the sizes of its job.
    Check(Word),
    Plan(PlanFiles),
    Run(RunFiles),
    Make(Make),
    Save(SaveFiles),
    Resume(ResumeFiles),
    /// To run, with requests that are released while rows flow. It isn't in ordered mode.
    Live(RunFiles),
    Verify(VerifyFiles),
    /// To explain the program or one of its commands.
    Help(Topic),
    /// To say which version of the program this is.
    Version,
}

/// What the command `first` is asked to do.
#[derive(Drop)]
pub struct First {
    /// The file that the payments are read from.
    pub payments: Word,
    /// The file that the alerts are written to.
    pub alerts: Word,
    /// From how many cents on a payment passes at first.
    pub least: i64,
    /// After how many rows the request is issued.
    pub after: u64,
    /// From how many cents on a payment passes from the request on.
    pub least_after: i64,
}

/// The files of the command `plan`.
#[derive(Drop)]
pub struct PlanFiles {
    pub job: Word,
    pub requests: Word,
    /// Whether rows and requests are to have one order.
    pub ordered: bool,
}

/// How many threads an engine has, 1 to 16, and how many items each of its lanes holds at most, 1
/// to 64.
#[derive(Clone, Copy)]
pub struct EngineSize {
    pub threads: u32,
    pub capacity: u32,
}

/// The files of the command `run`, and the engine that runs them.
#[derive(Drop)]
pub struct RunFiles {
    pub plan: PlanFiles,
    /// The file that the payments are read from.
    pub payments: Word,
    /// The file that the alerts are written to.
    pub alerts: Word,
    /// The file that the audit is written to. Its name is another word than that of the alerts.
    pub audit: Word,
    pub size: EngineSize,
    /// Whether the row of each request is to be its border. Only `run` has a word for it.
    pub exact: bool,
}

/// What the command `make` is asked to do.
#[derive(Drop)]
pub struct Make {
    pub job: Word,
    /// What the generator of rows starts from.
    pub seed: u64,
    /// How many rows are made, below 2^32.
    pub rows: u64,
    /// How many threads the engine has, 1 to 16.
    pub threads: u32,
    /// Whether the run is in ordered mode.
    pub ordered: bool,
}

/// The files of the command `save`, and after how many rows it stops.
#[derive(Drop)]
pub struct SaveFiles {
    /// The files of the run up to there. It isn't in ordered mode.
    pub run: RunFiles,
    /// The file that the savepoint is written to. Its name is another word than those of the alerts
    /// and the audit.
    pub save: Word,
    /// How many rows are run at most, 0 to 1,048,576.
    pub rows: u64,
}

/// The files of the command `resume`.
#[derive(Drop)]
pub struct ResumeFiles {
    /// The files of the run from there. It isn't in ordered mode.
    pub run: RunFiles,
    /// The file that the savepoint is read from. Its name is another word than those of the alerts
    /// and the audit.
    pub save: Word,
}

/// The files of the command `verify`.
#[derive(Drop)]
pub struct VerifyFiles {
    /// The files of the plan that the run went by.
    pub plan: PlanFiles,
    /// The file that the payments are read from.
    pub payments: Word,
    /// The file that the audit is read from.
    pub audit: Word,
    /// The file whose text is to be that of the run's alerts, if one is named.
    pub alerts: Option<Word>,
    /// The command that wrote the audit. The plan is ordered only if it is `run` or `stream`.
    pub of: AuditOf,
}

/// The command whose audit is verified.
#[derive(Drop)]
pub enum AuditOf {
    Run,
    Live,
    /// The command `stream`. No alerts are named beside it.
    Stream,
    /// The command `resume`. It went on from the savepoint in this file.
    Resume(Word),
}

/// Why words are no command.
#[derive(Clone, Copy, PartialEq, Eq)]
pub enum WordsFault {
    /// The words are no full form of a command, and ask for neither help nor the version.
    Usage,
    NoMemory,
}

impl From<NoMemory> for WordsFault {
    ghost from_gives = { λ _ e. e ≡ OutOfMemory };

    fn from(_: NoMemory) -> Self {
        WordsFault::NoMemory
    }
}

/// What the words after the program's name ask for.
///
/// A command is followed by its names in their order; one that may be left out is the last. Its
/// options stand at any place among them, each once at most: `--threads N` or `--threads=N`. The
/// program tests this by itself, and `clap` then reads the values. `--help` or `-h` alone, or
/// directly after a command and last, asks for help; `--version` or `-V` alone asks for the
/// version. A stream is none of this, as it may never end: [`crate::stream_of`] reads its words.
///
/// # Errors
///
/// [`WordsFault::Usage`] if the words are none of this, or a number is outside its range. The one
/// other answer is out of memory.
pub fn command_of(alloc: Global, words: &[Word]) -> Result<Command, WordsFault>
    ensures asked { IfOk result (λ command. asked_of words.now ≡ Some (asked_by command)) }
    ensures sized { IfOk result IsSized }
    ensures usage { IfErr result (λ fault. fault ≢ WordsFault.NoMemory
        → asked_of words.now ≡ None) }
{
    let words = strings_of(alloc, words)?;
    command_in(alloc, &words)
}

fn command_in<'w>(alloc: Global, words: &'w [&'w str]) -> Result<Command, WordsFault>
    ensures asked { IfOk result (λ command. asked_of (texts words.now) ≡ Some (asked_by command)) }
    ensures sized { IfOk result IsSized }
    ensures usage { IfErr result (λ fault. fault ≢ WordsFault.NoMemory
        → asked_of (texts words.now) ≡ None) }
{
    let Some((first, rest)) = words.split_first() else {
        return Err(WordsFault::Usage);
    };
    match topic_of(first) {
        Some(topic) if asks_help(rest) => Ok(Command::Help(topic)),
        Some(topic) => command_after(alloc, topic, words),
        None if rest.is_empty() => alone(first),
        None => Err(WordsFault::Usage),
    }
}

// What a command is asked to do by the words that follow its own.
fn command_after<'w>(
    alloc: Global,
    topic: Topic,
    words: &'w [&'w str],
) -> Result<Command, WordsFault>
    requires command { IfSome (slice_get (texts words.now) 0) (λ word. topic_of_word word
        ≡ Some topic) }
    requires some { 1 ≤ length words.now }
    ensures asked { IfOk result (λ command. asked_after topic (drop 1 (texts words.now))
        ≡ Some (asked_by command)) }
    ensures sized { IfOk result IsSized }
    ensures usage { IfErr result (λ fault. fault ≢ WordsFault.NoMemory
        → asked_after topic (drop 1 (texts words.now)) ≡ None) }
{
    if !has_form(alloc, &form_of(topic), &words[1..])? {
        return Err(WordsFault::Usage);
    }
    let Ok(matches) = matches_of(alloc, words) else {
        return Err(WordsFault::NoMemory);
    };
    match matches.subcommand_matches(words[0]) {
        Some(values) => command_with(alloc, topic, values),
        None => unreachable!(),
    }
}

/// What `clap` reads in the words of a full form. It refuses none of them: an error says only that
/// memory ran out.
pub(crate) fn matches_of<'w>(alloc: Global, words: &'w [&'w str]) -> Result<ArgMatches<'w>, Error>
    requires { takes program_app (texts words.now) ≡ true }
    ensures matches { IfOk result (λ matches. subcommand_rows_of matches
        ≡ subcommand_of program_app (texts words.now)) }
    ensures memory { IfErr result (λ error. kind_of error ≡ MemoryRanOut) }
{
    program(alloc)?.try_get_matches_from(words)
}

fn topic_of(word: &str) -> Option<Topic>
    ensures { result ≡ topic_of_word word.now }
{
    match word {
        "first" => Some(Topic::First),
        "check" => Some(Topic::Check),
        "plan" => Some(Topic::Plan),
        "run" => Some(Topic::Run),
        "make" => Some(Topic::Make),
        "save" => Some(Topic::Save),
        "resume" => Some(Topic::Resume),
        "live" => Some(Topic::Live),
        "verify" => Some(Topic::Verify),
        "stream" => Some(Topic::Stream),
        _ => None,
    }
}

fn asks_help(words: &[&str]) -> bool
    ensures { result ≡ asks_help_of (texts words.now) }
{
    match words {
        [word] => is_help(word),
        _ => false,
    }
}

fn alone(word: &str) -> Result<Command, WordsFault>
    ensures asked { IfOk result (λ command. asked_alone word.now ≡ Some (asked_by command)) }
    ensures sized { IfOk result IsSized }
    ensures usage { IfErr result (λ fault. asked_alone word.now ≡ None) }
{
    if is_help(word) {
        Ok(Command::Help(Topic::Program))
    } else if is_version(word) {
        Ok(Command::Version)
    } else {
        Err(WordsFault::Usage)
    }
}

pub(crate) fn is_help(word: &str) -> bool
    ensures { result ≡ is_help_word word.now }
{
    word == "--help" || word == "-h"
}

fn is_version(word: &str) -> bool
    ensures { result ≡ is_version_word word.now }
{
    word == "--version" || word == "-V"
}

pub(crate) fn strings_of<'w>(alloc: Global, words: &'w [Word]) -> Result<Vec<&'w str>, NoMemory>
    ensures { IfOk result (λ strings. texts strings.items ≡ words.now) }
{
    let mut strings = Vec::new(alloc);
    for word in words {
        strings.push(word.as_str())?;
    }
    Ok(strings)
}
