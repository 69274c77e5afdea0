// Which of the words after a command are names.
use tuple_trace::Word;

/// The options that a value follows.
const WITH_VALUE: &[&str] = &["--threads", "--capacity", "--save", "--every", "--from"];

/// The name at a place among the words after a command, from 0. Options and their values are no
/// names.
pub fn name_at(words: &[Word], place: usize) -> Option<&Word> {
    name_or_count(words, place).ok()
}

/// How many names there are among the words after a command.
pub(crate) fn name_count(words: &[Word]) -> usize {
    match name_or_count(words, usize::MAX) {
        Ok(_) => usize::MAX,
        Err(count) => count,
    }
}

// The name at a place, or else how many names there are.
fn name_or_count(words: &[Word], place: usize) -> Result<&Word, usize> {
    let mut names = 0usize;
    let mut is_value = false;
    for word in words {
        if is_value {
            is_value = false;
        } else if word.as_str().starts_with('-') {
            is_value = takes_value(word);
        } else if names == place {
            return Ok(word);
        } else {
            names = names.wrapping_add(1);
        }
    }
    Err(names)
}

// Whether the next word is the value of this option.
fn takes_value(option: &Word) -> bool {
    for word in WITH_VALUE {
        if option.as_str() == *word {
            return true;
        }
    }
    false
}
