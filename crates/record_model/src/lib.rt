//! Which records of boundary points are right, as definitions alone. They stand in `specs/`.
//!
//! Arrays, elements, references, ranks and places count from 0.
#![tactic(auto)]

mod laws;

pub use laws::records_outlive_values;
