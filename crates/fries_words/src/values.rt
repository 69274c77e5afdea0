// The values that `clap` read, as what a command is asked to do.
ghost use Rattle.std.specs.Prelude.{◌≡◌, ◌≢◌, ◌≤◌, ◌||◌, IfOk, IfErr, IfNone, IfSome, Some, None};
ghost use Rattle.std.specs.Prelude.{codes, false, option_map};
ghost use Rattle.std.specs.Str.{bytes_eq};
ghost use Rattle.clap.specs.Words.{first_value, found_of};
ghost use Rattle.fries_words.specs.Asked.{IsSize, IsSized, IsThreads, PlanAsked, asked_by};
ghost use Rattle.fries_words.specs.Asked.{first_asked, make_asked, plan_asked, resume_asked};
ghost use Rattle.fries_words.specs.Asked.{run_asked, save_asked, verify_asked};
ghost use Rattle.fries_words.specs.Words.{amount_in as amount_of, asked_with};
ghost use Rattle.fries_words.specs.Words.{audit_by as audit_by_words};
ghost use Rattle.fries_words.specs.Words.{audit_in as audit_of_values};
ghost use Rattle.fries_words.specs.Words.{engine_in as engine_of, first_in as first_of_values};
ghost use Rattle.fries_words.specs.Words.{is_true as is_true_text};
ghost use Rattle.fries_words.specs.Words.{make_in as make_of_values, value_named as name_of};
ghost use Rattle.fries_words.specs.Words.{number_in as number_of, plan_in as plan_of_values};
ghost use Rattle.fries_words.specs.Words.{resume_in as resume_of_values};
ghost use Rattle.fries_words.specs.Words.{run_over, run_with as run_with_values};
ghost use Rattle.fries_words.specs.Words.{save_in as save_of_values, size_in as size_of};
ghost use Rattle.fries_words.specs.Words.{unordered_in as unordered_of_values};
ghost use Rattle.fries_words.specs.Words.{verify_in as verify_of_values};

use crate::{
    AuditOf, Command, EngineSize, First, Make, PlanFiles, ResumeFiles, RunFiles, SaveFiles, Topic,
    VerifyFiles, WordsFault,
};
use clap::ArgMatches;
use std::alloc::Global;
use tuple_trace::{MAX_CAPACITY, MAX_THREADS, NoMemory, USUAL_CAPACITY, Word, digits_up_to};

/// The greatest number of rows that a request may wait for, and that come before a savepoint.
const AFTER_MAX: u64 = 1_048_576;

/// What a command is asked to do by these values; a fault if a number is outside its range.
pub(crate) fn command_with(
    alloc: Global,
    topic: Topic,
    values: &ArgMatches<'_>,
) -> Result<Command, WordsFault>
    ensures asked { IfOk result (λ command. asked_with topic (first_value (found_of values.now))
        ≡ Some (asked_by command)) }
    ensures sized { IfOk result IsSized }
    ensures usage { IfErr result (λ fault. fault ≢ WordsFault.NoMemory →
        asked_with topic (first_value (found_of values.now)) ≡ None) }
{
    match topic {
        Topic::Program | Topic::Stream => Err(WordsFault::Usage),
        Topic::First => Ok(Command::First(first_of(alloc, values)?)),
        Topic::Check => Ok(Command::Check(name_in(alloc, values, "job")?)),
        Topic::Plan => Ok(Command::Plan(plan_of(alloc, values)?)),
        Topic::Run => Ok(Command::Run(run_of(alloc, values)?)),
        Topic::Make => Ok(Command::Make(make_of(alloc, values)?)),
        Topic::Save => Ok(Command::Save(save_of(alloc, values)?)),
        Topic::Resume => Ok(Command::Resume(resume_of(alloc, values)?)),
        Topic::Live => Ok(Command::Live(live_of(alloc, values)?)),
        Topic::Verify => Ok(Command::Verify(verify_of(alloc, values)?)),
    }
}

fn first_of(alloc: Global, values: &ArgMatches<'_>) -> Result<First, WordsFault>
    ensures asked { IfOk result (λ first. first_of_values (first_value (found_of values.now))
        ≡ Some (first_asked first)) }
    ensures usage { IfErr result (λ fault. fault ≢ WordsFault.NoMemory
        → first_of_values (first_value (found_of values.now)) ≡ None) }
{
    let Some(least) = amount_in(values, "min") else {
        return Err(WordsFault::Usage);
    };
    let Some(after) = number_in(values, "after", AFTER_MAX) else {
        return Err(WordsFault::Usage);
    };
    let Some(least_after) = amount_in(values, "min2") else {
        return Err(WordsFault::Usage);
    };
    Ok(First {
        payments: name_in(alloc, values, "payments")?,
        alerts: name_in(alloc, values, "alerts")?,
        least,
        after,
        least_after,
    })
}

pub(crate) fn plan_of(alloc: Global, values: &ArgMatches<'_>) -> Result<PlanFiles, NoMemory>
    ensures { IfOk result (λ files. plan_asked files
        ≡ plan_of_values (first_value (found_of values.now))) }
{
    plan_with(alloc, is_true(values.get_str("ordered")), values)
}

// The files of a plan, in this mode.
fn plan_with(alloc: Global, ordered: bool, values: &ArgMatches<'_>) -> Result<PlanFiles, NoMemory>
    ensures { IfOk result (λ files. plan_asked files
        ≡ record (unordered_of_values (first_value (found_of values.now))) { ordered = ordered }) }
{
    Ok(PlanFiles {
        job: name_in(alloc, values, "job")?,
        requests: name_in(alloc, values, "requests")?,
        ordered,
    })
}

fn run_of(alloc: Global, values: &ArgMatches<'_>) -> Result<RunFiles, WordsFault>
    ensures asked { IfOk result (λ files.
        run_with_values (plan_of_values (first_value (found_of values.now)))
        (first_value (found_of values.now)) ≡ Some (run_asked files)) }
    ensures sized { IfOk result (λ files. IsSize files.size) }
    ensures usage { IfErr result (λ fault. fault ≢ WordsFault.NoMemory →
        run_with_values (plan_of_values (first_value (found_of values.now)))
        (first_value (found_of values.now)) ≡ None) }
{
    let Some(size) = run_size(values) else {
        return Err(WordsFault::Usage);
    };
    let ordered = is_true(values.get_str("ordered"));
    Ok(run_with(alloc, ordered, size, values)?)
}

// The engine of a run. None if a number of it is out of range, or two files are one word.
fn run_size(values: &ArgMatches<'_>) -> Option<EngineSize>
    ensures engine { IfSome result (λ size. engine_of (first_value (found_of values.now))
        ≡ Some size) }
    ensures apart { IfSome result (λ size.
        bytes_eq (name_of (first_value (found_of values.now)) (codes "alerts"))
        (name_of (first_value (found_of values.now)) (codes "audit")) ≡ false) }
    ensures sized { IfSome result IsSize }
    ensures none { IfNone result ((plan : PlanAsked) →
        run_with_values plan (first_value (found_of values.now)) ≡ None) }
{
    let size = engine_in(values)?;
    if text_in(values, "alerts") == text_in(values, "audit") {
        return None;
    }
    Some(size)
}

fn run_with(
    alloc: Global,
    ordered: bool,
    size: EngineSize,
    values: &ArgMatches<'_>,
) -> Result<RunFiles, NoMemory>
    requires { bytes_eq (name_of (first_value (found_of values.now)) (codes "alerts"))
        (name_of (first_value (found_of values.now)) (codes "audit")) ≡ false }
    ensures asked { IfOk result (λ files. run_over
        (record (unordered_of_values (first_value (found_of values.now))) { ordered = ordered })
        (is_true_text ((first_value (found_of values.now)) (codes "exact")))
        (name_of (first_value (found_of values.now)) (codes "payments"))
        (name_of (first_value (found_of values.now)) (codes "alerts"))
        (name_of (first_value (found_of values.now)) (codes "audit")) size
        ≡ Some (run_asked files)) }
    ensures sized { IfOk result (λ files. files.size ≡ size) }
{
    let payments = name_in(alloc, values, "payments")?;
    let alerts = name_in(alloc, values, "alerts")?;
    let audit = name_in(alloc, values, "audit")?;
    let plan = plan_with(alloc, ordered, values)?;
    Ok(RunFiles {
        plan,
        payments,
        alerts,
        audit,
        size,
        exact: is_true(values.get_str("exact")),
    })
}

fn save_of(alloc: Global, values: &ArgMatches<'_>) -> Result<SaveFiles, WordsFault>
    ensures asked { IfOk result (λ files. save_of_values (first_value (found_of values.now))
        ≡ Some (save_asked files)) }
    ensures sized { IfOk result (λ files. IsSize files.run.size) }
    ensures usage { IfErr result (λ fault. fault ≢ WordsFault.NoMemory →
        save_of_values (first_value (found_of values.now)) ≡ None) }
{
    let Some(rows) = number_in(values, "rows", AFTER_MAX) else {
        return Err(WordsFault::Usage);
    };
    let ResumeFiles { run, save } = resume_of(alloc, values)?;
    Ok(SaveFiles { run, save, rows })
}

fn live_of(alloc: Global, values: &ArgMatches<'_>) -> Result<RunFiles, WordsFault>
    ensures asked { IfOk result (λ files.
        run_with_values (unordered_of_values (first_value (found_of values.now)))
        (first_value (found_of values.now)) ≡ Some (run_asked files)) }
    ensures sized { IfOk result (λ files. IsSize files.size) }
    ensures usage { IfErr result (λ fault. fault ≢ WordsFault.NoMemory →
        run_with_values (unordered_of_values (first_value (found_of values.now)))
        (first_value (found_of values.now)) ≡ None) }
{
    let Some(size) = run_size(values) else {
        return Err(WordsFault::Usage);
    };
    Ok(run_with(alloc, false, size, values)?)
}

fn verify_of(alloc: Global, values: &ArgMatches<'_>) -> Result<VerifyFiles, WordsFault>
    ensures asked { IfOk result (λ files. verify_of_values (first_value (found_of values.now))
        ≡ Some (verify_asked files)) }
    ensures usage { IfErr result (λ fault. fault ≢ WordsFault.NoMemory
        → verify_of_values (first_value (found_of values.now)) ≡ None) }
{
    Ok(VerifyFiles {
        of: audit_of(alloc, values)?,
        payments: name_in(alloc, values, "payments")?,
        audit: name_in(alloc, values, "audit")?,
        alerts: extra_in(alloc, values, "alerts")?,
        plan: plan_of(alloc, values)?,
    })
}

// The command whose audit is verified; a fault if its options don't stand together.
fn audit_of(alloc: Global, values: &ArgMatches<'_>) -> Result<AuditOf, WordsFault>
    ensures is { IfOk result (λ of. audit_of_values (first_value (found_of values.now))
        ≡ Some of) }
    ensures usage { IfErr result (λ fault. fault ≢ WordsFault.NoMemory
        → audit_of_values (first_value (found_of values.now)) ≡ None) }
{
    let ordered = is_true(values.get_str("ordered"));
    let live = is_true(values.get_str("live"));
    let stream = is_true(values.get_str("stream"));
    match values.get_str("save") {
        Some(save) if !ordered && !live && !stream => { Ok(AuditOf::Resume(word_of(alloc, save)?)) }
        Some(_) => Err(WordsFault::Usage),
        None => audit_by(ordered, live, stream, values.get_str("alerts").is_some()),
    }
}

// The same, if no savepoint is named.
fn audit_by(ordered: bool, live: bool, stream: bool, named: bool) -> Result<AuditOf, WordsFault>
    ensures is { IfOk result (λ of. audit_by_words ordered live stream named None ≡ Some of) }
    ensures usage { IfErr result (λ fault. audit_by_words ordered live stream named None ≡ None) }
{
    match (live, stream) {
        (false, false) => Ok(AuditOf::Run),
        (false, true) if !named => Ok(AuditOf::Stream),
        (true, false) if !ordered => Ok(AuditOf::Live),
        _ => Err(WordsFault::Usage),
    }
}

fn resume_of(alloc: Global, values: &ArgMatches<'_>) -> Result<ResumeFiles, WordsFault>
    ensures asked { IfOk result (λ files. resume_of_values (first_value (found_of values.now))
        ≡ Some (resume_asked files)) }
    ensures sized { IfOk result (λ files. IsSize files.run.size) }
    ensures usage { IfErr result (λ fault. fault ≢ WordsFault.NoMemory →
        resume_of_values (first_value (found_of values.now)) ≡ None) }
{
    if writes(values, text_in(values, "save")) {
        return Err(WordsFault::Usage);
    }
    let save = name_in(alloc, values, "save")?;
    let run = live_of(alloc, values)?;
    Ok(ResumeFiles { run, save })
}

/// Whether the run writes a file with this name.
pub(crate) fn writes(values: &ArgMatches<'_>, name: &str) -> bool
    ensures { result ≡ (bytes_eq (name_of (first_value (found_of values.now)) (codes "alerts"))
        name.now || bytes_eq (name_of (first_value (found_of values.now)) (codes "audit"))
        name.now) }
{
    text_in(values, "alerts") == name || text_in(values, "audit") == name
}

fn make_of(alloc: Global, values: &ArgMatches<'_>) -> Result<Make, WordsFault>
    ensures asked { IfOk result (λ make. make_of_values (first_value (found_of values.now))
        ≡ Some (make_asked make)) }
    ensures sized { IfOk result (λ make. IsThreads make.threads) }
    ensures usage { IfErr result (λ fault. fault ≢ WordsFault.NoMemory
        → make_of_values (first_value (found_of values.now)) ≡ None) }
{
    let Some(seed) = number_in(values, "seed", u64::MAX) else {
        return Err(WordsFault::Usage);
    };
    let Some(rows) = number_in(values, "rows", u64::from(u32::MAX)) else {
        return Err(WordsFault::Usage);
    };
    let Some(threads) = size_in(values.get_str("threads"), 1, MAX_THREADS) else {
        return Err(WordsFault::Usage);
    };
    Ok(Make {
        job: name_in(alloc, values, "job")?,
        seed,
        rows,
        threads,
        ordered: is_true(values.get_str("ordered")),
    })
}

pub(crate) fn engine_in(values: &ArgMatches<'_>) -> Option<EngineSize>
    ensures is { result ≡ engine_of (first_value (found_of values.now)) }
    ensures sized { IfSome result IsSize }
{
    let threads = size_in(values.get_str("threads"), 1, MAX_THREADS)?;
    let capacity = size_in(values.get_str("capacity"), USUAL_CAPACITY, MAX_CAPACITY)?;
    Some(EngineSize { threads, capacity })
}

/// The number that an option's text spells, 1 to `most`; the usual one without the option.
pub(crate) fn size_in(text: Option<&str>, usual: u32, most: u32) -> Option<u32>
    requires some { 1 ≤ usual }
    requires few { usual ≤ most }
    ensures is { result ≡ size_of usual most (option_map (λ text. text.now) text.entry) }
    ensures some { IfSome result (λ number. 1 ≤ number) }
    ensures few { IfSome result (λ number. number ≤ most) }
{
    let Some(text) = text else {
        return Some(usual);
    };
    let number = digits_up_to(text.as_bytes(), u64::from(most))?;
    if number >= 1 {
        Some(number as u32)
    } else {
        None
    }
}

fn amount_in(values: &ArgMatches<'_>, id: &str) -> Option<i64>
    ensures { result ≡ amount_of (first_value (found_of values.now)) id.now }
{
    i64::try_from(number_in(values, id, i64::MAX as u64)?).ok()
}

fn number_in(values: &ArgMatches<'_>, id: &str, most: u64) -> Option<u64>
    ensures { result ≡ number_of (first_value (found_of values.now)) most id.now }
{
    match values.get_str(id) {
        Some(text) => digits_up_to(text.as_bytes(), most),
        None => None,
    }
}

pub(crate) fn name_in(alloc: Global, values: &ArgMatches<'_>, id: &str) -> Result<Word, NoMemory>
    ensures { IfOk result (λ name. name ≡ name_of (first_value (found_of values.now)) id.now) }
{
    word_of(alloc, text_in(values, id))
}

// The name that may be left out, if it is there.
fn extra_in(alloc: Global, values: &ArgMatches<'_>, id: &str) -> Result<Option<Word>, NoMemory>
    ensures { IfOk result (λ name. name ≡ first_value (found_of values.now) id.now) }
{
    match values.get_str(id) {
        Some(text) => Ok(Some(word_of(alloc, text)?)),
        None => Ok(None),
    }
}

/// A text as a word of its own. The one error is out of memory.
pub(crate) fn word_of(alloc: Global, text: &str) -> Result<Word, NoMemory>
    ensures { IfOk result (λ word. word ≡ text.now) }
{
    Ok(Word::from_string(text.to_string(alloc)?))
}

/// The text of a name, which every full form has.
pub(crate) fn text_in<'w>(values: &ArgMatches<'w>, id: &str) -> &'w str
    ensures { result.now ≡ name_of (first_value (found_of values.now)) id.now }
{
    match values.get_str(id) {
        Some(text) => text,
        None => "",
    }
}

/// Whether a flag's text is the one that it has where it stands in the words.
pub(crate) fn is_true(text: Option<&str>) -> bool
    ensures { result ≡ is_true_text (option_map (λ text. text.now) text.entry) }
{
    match text {
        Some(text) => text == "true",
        None => false,
    }
}
