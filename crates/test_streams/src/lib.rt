//! Tests of a stream between its parts.
#![tactic(auto)]

#[cfg(test)]
mod tests;
