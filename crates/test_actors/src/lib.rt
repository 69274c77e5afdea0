//! Tests of `flow_worker`, `coordinator` and `flow_crew`: workers and feeders that are driven by
//! hand, and a whole run on one thread.
#![tactic(auto)]

#[cfg(test)]
mod tests;
