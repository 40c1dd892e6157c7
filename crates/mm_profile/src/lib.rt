//! What a Matrix Market file is: definitions over the list of its lines, in `specs/`, and the types of its kinds.
#![tactic(auto)]

mod kinds;
mod sizes;

pub use kinds::{Field, Format, Kind, Symmetry};
pub use sizes::Head;
