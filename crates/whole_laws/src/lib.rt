//! Stores of whole arrays, as one rank has them: laws alone.
//!
//! Arrays, elements, rows, columns and ranks count from 0.
#![tactic(auto)]

mod laws;

pub use laws::{
    built_arrays_are_held, changed_states_are_held, changed_stores_hold, held_arrays_are_views,
    held_arrays_have_the_values, one_rank_is_alone, wholes_can_be_built, wholes_hold_zeros,
};
