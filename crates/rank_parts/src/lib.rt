//! The parts that ranks hold of the arrays of a job: the place of each place line on so many ranks, and for each rank the views of its
//! parts of all arrays.
//!
//! Arrays, places, elements and ranks count from 0. There is a matrix for each array of a job, of its rows and columns; one of an
//! array with `zero` has no entries.
#![tactic(auto)]

mod laws;
mod places;
mod views;

pub use laws::placed_lines_are_placed;
pub use places::rank_places;
pub use views::rank_views;
