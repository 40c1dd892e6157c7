//! What the ranks of a run over turns send each other, and what holds of every order in which they do it.
//!
//! A turn is one execution of a nest. The crate has definitions (`specs/`) and functions without a body whose contracts
//! are the theorems. Ranks, turns, nests, arrays and elements count from 0.
#![tactic(auto)]

mod laws;

pub use laws::{books_are_due, every_order_of_turns};
