//! The run of a job on one rank, from what its arrays begin with to the stores that hold what its turns leave.
//!
//! Arrays, places, nests, elements and ranks count from 0. There is a matrix for each array of a job, of its rows and columns; one
//! of an array with `zero` has no entries.
#![tactic(auto)]

mod places;
mod running;
mod stores;
mod turns;

pub use places::whole_places;
pub use running::run_whole;
pub use stores::{values_fit, whole_stores};
