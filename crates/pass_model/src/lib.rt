//! What the two passes of a nest add up, and which elements a rank needs of others, as definitions alone. They stand in `specs/`.
//!
//! Arrays, elements, nests and ranks count from 0.
#![tactic(auto)]
