//! Stores of one array: parts that are stored whole, and lists of entries in the order in which they came.
//!
//! Levels, places and indices count from 0. An index is a row, a column, or row * cols + col.
#![tactic(auto)]

mod dense;
mod indices;
mod laws;
mod layout;
mod list;

pub use dense::DenseStore;
pub use laws::{
    a_set_store_describes_the_changed_part, a_store_describes_the_part_of_its_elements,
};
pub use list::ListStore;
