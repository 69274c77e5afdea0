mod audits;
mod case;
mod chains;
mod damaged;
mod following;
mod joins;
mod later;
mod orders;
mod payments_job;
mod plans;
mod random;
mod rows;
mod running;
mod saves;
mod shapes;
mod streams;
mod verified;

use std::process::Abort;
use test_texts::shown;

/// Asserts that bytes are those of a text. Shows both if they aren't.
pub fn check_text(rt: &impl Abort, found: &[u8], want: &str) {
    assert_eq!(rt; shown(found), want);
}
