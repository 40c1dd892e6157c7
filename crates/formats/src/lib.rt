//! The formats of arrays in one place: which matrices suit them, what is known of them before a loop runs, and any store
//! behind one type.
//!
//! Rows, columns and element numbers count from 0.
#![tactic(auto)]

mod any_store;
mod building;
mod checks;
mod digits;
mod filled;
mod laws;
mod order;
mod statistics;

pub use any_store::AnyStore;
pub use building::build;
pub use checks::{check_astray, check_shape, check_sizes};
pub use laws::{
    a_set_store_describes_the_changed_part, admitted_parts_can_be_built,
    admitted_parts_can_be_viewed, lines_hang_below_the_root,
};
pub use local_views::LocalView;
pub use order::{OrderError, check_order};
pub use statistics::stats;
