//! Tests of whole streams.
#![tactic(auto)]

#[cfg(test)]
mod tests;
