// The words after a command, taken apart by its form.
ghost use Rattle.std.specs.Prelude.{◌≡◌, ◌≤◌, true, IfOk, IfSome, option_map, option_copied};
ghost use Rattle.std.specs.Prelude.{length, find, is_some, map, take};
ghost use Rattle.std.specs.Str.{bytes_eq};
ghost use Rattle.fries_words.specs.Form.{at_end, found_after, found_in_words};
ghost use Rattle.fries_words.specs.Form.{has_start as has_start_of};
ghost use Rattle.fries_words.specs.Form.{is_flag as is_flag_of, is_found as is_found_in};
ghost use Rattle.fries_words.specs.Form.{is_plain_word as is_name_of, is_option as is_option_of};
ghost use Rattle.fries_words.specs.Form.{no_parts, with_name as with_name_of};
ghost use Rattle.fries_words.specs.Form.{with_value as with_value_of, with_word};
ghost use Rattle.fries_words.specs.Views.{flag_view, form_view, if_taken, option_view, pair_view};
ghost use Rattle.fries_words.specs.Views.{parts_view, texts};

use crate::form::{Flag, Form, ValueOption};
use std::alloc::Global;
use tuple_trace::NoMemory;

/// Whether the words after a command have its form.
pub(crate) fn has_form(alloc: Global, form: &Form, words: &[&str]) -> Result<bool, NoMemory>
    ensures { IfOk result (λ has. has
        ≡ is_some (found_in_words (form_view form.now) (texts words.now))) }
{
    let mut parts = Parts {
        names: form.names,
        next: 0,
        extra: form.extra,
        next_extra: 0,
        waiting: None,
        found: Vec::new(alloc),
    };
    for word in words {
        if !parts.take(form, word.as_bytes())? {
            return Ok(false);
        }
    }
    Ok(parts.are_whole())
}

/// What the words so far are.
#[derive(Drop)]
struct Parts<'w> {
    names: &'static [&'static str],
    /// The place of the first name that is still to come.
    next: usize,
    extra: &'static [&'static str],
    /// The place of the first of the names that may be left out that hasn't come.
    next_extra: usize,
    /// The option whose value the next word is.
    waiting: Option<&'static str>,
    /// A value for each name and option that was found.
    found: Vec<(&'static str, &'w [u8])>,
}

impl<'w> Parts<'w> {
    /// Takes one more word, and says whether it may stand there.
    fn take(&mut self, form: &Form, word: &'w [u8]) -> Result<bool, NoMemory>
        ensures { IfOk result (λ taken. if_taken taken (parts_view self.new)
            (with_word (form_view form.now) (parts_view self.old)
            (parts_view self.old).waiting word.entry.now)) }
    {
        if let Some(id) = self.waiting {
            return self.give(id, word);
        }
        if let Some(option) = option_in(form.options, word) {
            self.waiting = Some(option.id);
            return Ok(true);
        }
        if let Some(flag) = flag_in(form.flags, word) {
            return self.give(flag.id, b"true");
        }
        if let Some(option) = start_in(form.options, word) {
            return self.give(option.id, word.split_at(option.start.len()).1);
        }
        self.give_name(word)
    }

    fn give(&mut self, id: &'static str, value: &'w [u8]) -> Result<bool, NoMemory>
        ensures { IfOk result (λ taken. if_taken taken (parts_view self.new)
            (with_value_of (parts_view self.old) id.entry.now value.entry.now)) }
    {
        if self.has(id) || !is_name(value) {
            return Ok(false);
        }
        self.found.push((id, value))?;
        self.waiting = None;
        Ok(true)
    }

    fn give_name(&mut self, word: &'w [u8]) -> Result<bool, NoMemory>
        ensures { IfOk result (λ taken. if_taken taken (parts_view self.new)
            (with_name_of (parts_view self.old) (parts_view self.old).names word.entry.now)) }
    {
        if let Some(id) = self.names.get(self.next) {
            self.next += 1;
            return self.give(id, word);
        }
        let Some(id) = self.extra.get(self.next_extra) else {
            return Ok(false);
        };
        self.next_extra += 1;
        self.give(id, word)
    }

    // Whether no name and no value is missing.
    fn are_whole(&self) -> bool
        ensures { result ≡ is_some (at_end (parts_view self.now).names (parts_view self.now).waiting
            (parts_view self.now).found) }
    {
        self.next >= self.names.len() && self.waiting.is_none()
    }

    fn has(&self, id: &str) -> bool
        ensures { result ≡ is_found_in id.now (parts_view self.now).found }
    {
        for pair in self.found.as_slice() {
            if pair.0 == id {
                return true;
            }
        }
        false
    }
}

fn option_in(options: &'static [ValueOption], word: &[u8]) -> Option<ValueOption>
    ensures { option_map option_view result ≡ find (is_option_of word.now)
        (map option_view options.entry.now) }
{
    for option in options {
        if option.word.as_bytes() == word {
            return Some(*option);
        }
    }
    None
}

fn flag_in(flags: &'static [Flag], word: &[u8]) -> Option<Flag>
    ensures { option_map flag_view result ≡ find (is_flag_of word.now)
        (map flag_view flags.entry.now) }
{
    for flag in flags {
        if flag.word.as_bytes() == word {
            return Some(*flag);
        }
    }
    None
}

fn start_in(options: &'static [ValueOption], word: &[u8]) -> Option<ValueOption>
    ensures is { option_map option_view result ≡ find (has_start_of word.now)
        (map option_view options.entry.now) }
    ensures within { IfSome result (λ option. length option.start.now ≤ length word.now) }
{
    for option in options {
        if has_start(word, option.start.as_bytes()) {
            return Some(*option);
        }
    }
    None
}

fn has_start(word: &[u8], start: &[u8]) -> bool
    ensures is { result ≡ bytes_eq (take (length start.now) word.now) start.now }
    ensures within { result ≡ true → length start.now ≤ length word.now }
{
    word.len() >= start.len() && &word[..start.len()] == start
}

/// Whether a word may be a name or a value.
fn is_name(word: &[u8]) -> bool
    ensures { result ≡ is_name_of word.now }
{
    match word {
        [] | [b'-', ..] => false,
        _ => true,
    }
}
