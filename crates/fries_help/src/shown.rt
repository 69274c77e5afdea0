// How bytes of a file are shown.
use fries_help_words::push_shown;
use std::alloc::AllocError;

/// Appends bytes between backquotes, if they are a text in UTF-8.
pub(crate) fn push_bytes(bytes: &[u8], out: &mut String) -> Result<(), AllocError> {
    match std::str::from_utf8(bytes) {
        Ok(text) => push_shown(text, out),
        Err(_) => out.push_str("no text in UTF-8"),
    }
}
