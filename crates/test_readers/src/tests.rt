mod alerts;
mod applied;
mod audit;
mod cases;
mod change_cases;
mod changing;
mod clamp_cases;
mod dedupe_cases;
mod edge_cases;
mod files;
mod fixtures;
mod func_cases;
mod growing;
mod job_cases;
mod judging;
mod kinds;
mod later_changes;
mod lines;
mod made;
mod pieces;
mod reading;
mod request_cases;
mod requesting;
mod row_pieces;
mod row_shares;
mod rows;
mod shelves;
mod sure;

use std::process::Abort;
use test_texts::shown;

/// Asserts that bytes are those of a text. Shows both if they aren't.
pub fn check_text(rt: &impl Abort, found: &[u8], want: &str) {
    assert_eq!(rt; shown(found), want);
}
