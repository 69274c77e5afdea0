//! Tests of the lowest crates, by their public items.
#![tactic(auto)]

#[cfg(test)]
mod tests;
