//! Tests of `job_text`, `job_rules` and `job_accept`, in a crate of their own: a crate that holds tests is proved once more
//! with them.
#![tactic(auto)]

#[cfg(test)]
mod jobs;
#[cfg(test)]
mod rules;
#[cfg(test)]
mod texts;
