//! The runs of a job from what its arrays begin with to the printed text: by the passes of each turn over stores of whole arrays,
//! and by the ranks of a replay.
//!
//! Arrays, places, nests, elements and ranks count from 0. There is a matrix for each array of a job, of its rows and columns; one
//! of an array with `zero` has no entries.
#![tactic(auto)]

mod events;
mod printing;
mod running;

pub use running::{replay_text, run_text};
