//! Tests of whole runs on threads, through the top call.
#![tactic(auto)]

#[cfg(test)]
mod tests;
