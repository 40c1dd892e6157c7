//! What a nest of an accepted job leaves, element by element: laws alone, over the definitions of dense loops.
//!
//! Arrays, elements and turns count from 0.
#![tactic(auto)]

mod laws;

pub use laws::{nests_leave_sums, states_stay};
