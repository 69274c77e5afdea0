//! The tests of the top call of `fries`. They stand beside it, so that none of its functions is
//! proved again for them.
#![tactic(auto)]

#[cfg(test)]
mod tests;
