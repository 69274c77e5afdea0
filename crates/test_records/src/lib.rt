//! Tests of records without an engine: runs of the plain executor, their order, their savepoints
//! and their audits. Jobs, requests and payments are the texts of their files.
#![tactic(auto)]

#[cfg(test)]
mod tests;
