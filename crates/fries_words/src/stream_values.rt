// The values that `clap` read, as what is asked of a stream.
ghost use Rattle.std.specs.Prelude.{◌≡◌, ◌≢◌, IfErr, IfOk, None, Some, codes, false};
ghost use Rattle.std.specs.Prelude.{option_map, true};
ghost use Rattle.clap.specs.Words.{first_value, found_of};
ghost use Rattle.fries_words.specs.Asked.{IsSize};
ghost use Rattle.fries_words.specs.Stream.{clash_in, needs_save};
ghost use Rattle.fries_words.specs.Stream.{goes_on_from as resume_of, saving_asked, saving_of};
ghost use Rattle.fries_words.specs.Stream.{stream_asked, stream_with as stream_with_values};

use crate::stream::{MAX_EVERY, MAX_FROM, USUAL_EVERY};
use crate::values::{engine_in, is_true, name_in, plan_of, size_in, text_in, word_of, writes};
use crate::{StreamFiles, StreamSaving, WordsFault};
use clap::ArgMatches;
use std::alloc::Global;
use tuple_trace::digits_up_to;

/// What is asked of a stream by these values; a fault if a number is outside its range, an option
/// lacks the one that it needs, or two files that are written are one word.
pub(crate) fn stream_with(alloc: Global, values: &ArgMatches<'_>) -> Result<StreamFiles, WordsFault>
    ensures asked { IfOk result (λ files.
        stream_with_values (first_value (found_of values.now)) ≡ Some (stream_asked files)) }
    ensures sized { IfOk result (λ files. IsSize files.size) }
    ensures usage { IfErr result (λ fault. fault ≢ WordsFault.NoMemory
        → stream_with_values (first_value (found_of values.now)) ≡ None) }
{
    if clash(values) {
        return Err(WordsFault::Usage);
    }
    let Some(size) = engine_in(values) else {
        return Err(WordsFault::Usage);
    };
    Ok(StreamFiles {
        saving: saving_in(alloc, values)?,
        alerts: name_in(alloc, values, "alerts")?,
        audit: name_in(alloc, values, "audit")?,
        plan: plan_of(alloc, values)?,
        size,
        exact: is_true(values.get_str("exact")),
        progress: is_true(values.get_str("progress")),
    })
}

// Whether two of the files that are written are one word.
fn clash(values: &ArgMatches<'_>) -> bool
    ensures { result ≡ clash_in (first_value (found_of values.now)) }
{
    if text_in(values, "alerts") == text_in(values, "audit") {
        return true;
    }
    match values.get_str("save") {
        Some(save) => writes(values, save),
        None => false,
    }
}

// What is saved, and whether the stream goes on from there.
fn saving_in(alloc: Global, values: &ArgMatches<'_>) -> Result<Option<StreamSaving>, WordsFault>
    ensures asked { IfOk result (λ saving.
        saving_of (first_value (found_of values.now) (codes "save"))
        (first_value (found_of values.now)) ≡ Some (option_map saving_asked saving)) }
    ensures usage { IfErr result (λ fault. fault ≢ WordsFault.NoMemory →
        saving_of (first_value (found_of values.now) (codes "save"))
        (first_value (found_of values.now)) ≡ None) }
{
    let Some(file) = values.get_str("save") else {
        return without_save(values);
    };
    let Some(every) = size_in(values.get_str("every"), USUAL_EVERY, MAX_EVERY) else {
        return Err(WordsFault::Usage);
    };
    let resume = resume_in(is_true(values.get_str("resume")), values.get_str("from"))?;
    Ok(Some(StreamSaving {
        file: word_of(alloc, file)?,
        every,
        resume,
    }))
}

// Nothing is saved; a fault if an option is there that needs the savepoint.
fn without_save(values: &ArgMatches<'_>) -> Result<Option<StreamSaving>, WordsFault>
    ensures none { IfOk result (λ saving. (saving ≡ None)
        × (needs_save (first_value (found_of values.now)) ≡ false)) }
    ensures usage { IfErr result (λ fault.
        needs_save (first_value (found_of values.now)) ≡ true) }
{
    if values.get_str("every").is_some()
        || values.get_str("from").is_some()
        || is_true(values.get_str("resume"))
    {
        Err(WordsFault::Usage)
    } else {
        Ok(None)
    }
}

// How many rows a stream has left out, if it goes on.
fn resume_in(goes_on: bool, from: Option<&str>) -> Result<Option<u64>, WordsFault>
    ensures is { IfOk result (λ rows.
        resume_of goes_on (option_map (λ text. text.now) from.entry) ≡ Some rows) }
    ensures usage { IfErr result (λ fault.
        resume_of goes_on (option_map (λ text. text.now) from.entry) ≡ None) }
{
    match from {
        None if goes_on => Ok(Some(0)),
        None => Ok(None),
        Some(text) if goes_on => match digits_up_to(text.as_bytes(), MAX_FROM) {
            Some(rows) => Ok(Some(rows)),
            None => Err(WordsFault::Usage),
        },
        Some(_) => Err(WordsFault::Usage),
    }
}
