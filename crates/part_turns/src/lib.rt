//! One turn of a nest at a rank among several, over views of the rank's parts: laws alone. The definitions stand in `specs/`.
//!
//! Arrays, elements, rows, columns, nests and ranks count from 0.
#![tactic(auto)]

mod laws;

pub use laws::{parts_show_the_state, turns_of_parts_are_held, turns_of_parts_can_be_made};
