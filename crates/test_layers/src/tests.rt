mod boxes;
mod counts;
mod graphs;
mod hands;
mod lanes;
mod plans;
mod queue_lanes;
mod releases;
mod ring_lanes;
mod tuples;

use std::process::Abort;
use test_texts::shown;

/// Asserts that bytes are those of a text. Shows both if they aren't.
pub fn check_text(rt: &impl Abort, found: &[u8], want: &str) {
    assert_eq!(rt; shown(found), want);
}
