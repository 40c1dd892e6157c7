//! The scripts of ranks that work, post letters and wait for letters, and every order in which they can go through them.
//!
//! The crate has definitions (`specs/`), lemmas on them (`proofs/`), and functions without a body whose contracts are
//! the theorems. The definitions and lemmas hold for letters of any type; the contracts name Bernoulli's.
#![tactic(auto)]

mod laws;

pub use laws::{
    every_order_ends, every_order_is_fit, rounds_are_closed, turns_are_rounds,
    waits_name_their_round, worked_numbers,
};
