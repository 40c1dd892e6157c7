//! Tests of stores and of the table of formats, in a crate of their own: a crate that holds tests is proved once more with
//! them. What reads a store back is there for other tests of stores too.
#![tactic(auto)]

mod reading;
#[cfg(test)]
mod stored;
#[cfg(test)]
mod tables;

pub use reading::{Path, reads_as};
