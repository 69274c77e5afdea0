//! Tests of runs in two parts, through the commands `save` and `resume`.
#![tactic(auto)]

#[cfg(test)]
mod tests;
