//! Tests of `bern_top`, in a crate of their own: a crate that holds tests is proved once more with them. And what its clauses
//! give over shelves and sinks that cannot fail.
#![tactic(auto)]

#[cfg(test)]
mod commands;
mod laws;
#[cfg(test)]
mod plans;

pub use laws::{over_a_sure_shelf, over_sure_sinks};
