//! The sums of a nest at a rank, and what they make of its target.
//!
//! Arrays, elements, variables, ranks and local numbers count from 0.
#![tactic(auto)]

mod boundary;
mod boxes;
mod delta;
mod hits;
mod inbox;
mod interior;
mod laws;
mod own;
mod piece;
mod records;
mod replacing;
mod runs;
mod still;

pub use boundary::outer;
pub use delta::Delta;
pub use inbox::{InSet, Inbox};
pub use interior::inner;
pub use laws::{boxes_of_replacing_nests_are_small, passes_leave_the_body, passes_sum_to_the_body};
pub use own::{named_element, own_element, owns_whole, split_size};
pub use replacing::apply;
