//! A job from its bytes: read, its rules tried, its names turned into numbers.
//!
//! Lines count from 1; line 0 stands for the job as a whole.
#![tactic(auto)]

mod front;
mod laws;

pub use front::{take_job, too_long};
pub use laws::{
    accepted_bytes_keep_the_rules, bytes_have_one_answer, nests_have_variables,
    offsets_of_diagonals_rise, outer_axes_are_one, places_stand_among_arrays, split_axes_are_one,
};
