//! The tests of `fries_help`. They stand beside it, so that none of its functions is proved again.
#![tactic(auto)]

#[cfg(test)]
mod tests;
