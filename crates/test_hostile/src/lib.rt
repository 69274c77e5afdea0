//! Tests of the top call under hostile use, and of live runs.
#![tactic(auto)]

#[cfg(test)]
mod tests;
