//! The files of a job: the order of all F rules, the weight of a job's arrays, and the causes of faults.
//!
//! Each file is read once, in the order of first mention, and serves all of its uses within the limit on the weight of all
//! arrays, or is refused. Indices count from 0, and the lines of a refusal from 1; line 0 stands for the file as a whole.
#![tactic(auto)]

mod arrays;
mod format_weights;
mod laws;
mod lists;
mod load_error;
mod matrix_file;
mod mentions;
mod orders;
mod reading;
mod serving;
mod uses;
mod weights;

pub use arrays::{ArrayFiles, load_arrays, load_arrays_to_plan};
pub use laws::{files_are_reached, matrices_keep_the_limit};
pub use load_error::{LoadError, refusal};
pub use matrix_file::load_matrix;
pub use reading::read_file;
pub use weights::weight_within;
