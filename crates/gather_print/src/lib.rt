//! What is printed of a run on ranks: so far what each rank receives.
//!
//! Ranks, elements and arrays count from 0; in printed texts nests count from 1.
#![tactic(auto)]

mod sets;

pub use sets::sets_text;
