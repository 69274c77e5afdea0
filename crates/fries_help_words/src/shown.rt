// How a text that isn't the program's own is shown.
use std::alloc::AllocError;

/// How many characters of a text are shown.
const SHOWN_MAX: usize = 60;

/// Appends a text between backquotes. A character that would disturb a terminal is shown as `?`.
pub fn push_shown(text: &str, out: &mut String) -> Result<(), AllocError> {
    out.push('`')?;
    for (place, ch) in text.chars().enumerate() {
        if place >= SHOWN_MAX {
            out.push_str("..")?;
            break;
        }
        out.push(if is_plain(ch) { ch } else { '?' })?;
    }
    out.push('`')
}

fn is_plain(ch: char) -> bool {
    ch >= ' ' && !('\u{7f}'..'\u{a0}').contains(&ch)
}
