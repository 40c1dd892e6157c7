//! One rank of a run: what it inspects, posts, waits for, takes and sums.
//!
//! Ranks, arrays, element numbers and local numbers count from 0.
#![tactic(auto)]

mod holdings;
mod job;
mod letters;
mod node;
mod sets;
mod settle;
mod stage;
mod sums;

pub use job::{array_read, nothing, variable_v, variable_w};
pub use node::Node;
pub use sets::{asked_sets, values_at};
pub use stage::Want;
pub use sums::dense_values;
