//! What an audit keeps of a run, what is wrong with a text that is the audit of no run, and the
//! laws of both.
//!
//! An audit has only the row and the births of a tuple. It determines the run all the same: no two
//! runs of one setup, one beginning and the same rows have the same audit.
//!
//! ```
//! let lines = records_of(text);
//! // A text that a run fits has none of the six faults, and no text has two.
//! texts_of_runs_have_no_fault(&setup, &rows);
//! texts_have_one_fault(&setup);
//! ```
#![tactic(auto)]

mod audit;
mod examples;
mod laws;
mod part;

pub use audit::{AuditEntry, Line};
pub use examples::the_audit_of_no_payments;
pub use laws::{
    audits_have_one_fault, audits_of_runs_have_no_fault, checked_journals_are_a_run,
    journals_are_restored, journals_tell_the_run, lines_of_runs_have_form, runs_fit_their_lines,
    texts_have_one_fault, texts_of_runs_have_no_fault, texts_tell_the_run, written_audits_fit,
};
pub use part::{
    parts_fit_their_lines, parts_have_one_fault, texts_of_parts_have_no_fault,
    texts_of_parts_tell_the_run,
};
