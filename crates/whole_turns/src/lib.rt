//! One turn of a nest on one rank, over stores of whole arrays: laws alone.
//!
//! Arrays, elements, nests and ranks count from 0.
#![tactic(auto)]

mod laws;

pub use laws::{turns_are_held, turns_can_be_made};
