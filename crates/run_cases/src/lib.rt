//! Tests of `job_runs` by the calls of runs over files in memory, in a crate of their own: a crate that holds tests is proved once
//! more with them.
#![tactic(auto)]

#[cfg(test)]
mod texts;
