//! Laws of the views of a rank's parts: what a view is of the whole array, and what becomes of it when one of its elements is set.
//! The definitions stand in `specs/`.
//!
//! Rows, columns, element numbers, ranks and arrays count from 0.
#![tactic(auto)]

mod laws;

pub use laws::{
    a_set_view_describes_the_changed_part, plans_over_views_walk_the_answer,
    the_views_of_parts_are_views,
};
