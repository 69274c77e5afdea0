mod hostile;
mod live;
mod sure;

use std::process::Abort;
use test_texts::shown;

/// Asserts that bytes are those of a text. Shows both if they aren't.
pub fn check_text(rt: &impl Abort, found: &[u8], want: &str) {
    assert_eq!(rt; shown(found), want);
}

/// Asserts that bytes are those of a text. Shows both if they aren't, and `what` they are.
pub fn check_text_of(rt: &impl Abort, what: &str, found: &[u8], want: &str) {
    assert_eq!(rt; shown(found), want, "{what}");
}
