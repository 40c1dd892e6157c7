//! How arrays are stored: the table of all formats, and what a stored array is to those who walk and search it. They are
//! definitions, in `specs/`; `laws` says what is proved of them, and the code here is that of the axes alone.
//!
//! Rows, columns and element numbers count from 0.
#![tactic(auto)]

mod axes;
mod laws;
mod limits;

pub use axes::{across, extent_of, index_of, is_same_axis};
pub use laws::{
    bits_count_digits, described_parts_are_held, each_stored_element_once, lists_the_stored_values,
    no_index_stands_twice, ordered_levels_rise, searches_find_the_content,
    stored_elements_have_their_values, the_test_agrees_with_the_list,
};
pub use limits::MOST_INDEX;
