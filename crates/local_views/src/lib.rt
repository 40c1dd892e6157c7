//! The store of a rank's part, seen in the indices of the whole array.
//!
//! Rows, columns and element numbers count from 0.
#![tactic(auto)]

mod laws;
mod view;

pub use laws::{a_view_lists_its_store_in_global_indices, described_parts_fit};
pub use view::LocalView;
