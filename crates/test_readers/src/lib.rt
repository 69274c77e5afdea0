//! Tests of `jobs`, `versions` and `job_file`, by jobs and requests in the text of their files.
#![tactic(auto)]

#[cfg(test)]
mod tests;
