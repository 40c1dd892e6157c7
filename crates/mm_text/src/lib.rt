//! Matrix Market files: reading them exactly, and printing arrays in the same format.
//!
//! Rows and columns count from 0 here. In a file they count from 1, and so do the lines of a refusal; line 0 stands for the whole file.
#![tactic(auto)]

mod array;
mod banner;
mod due;
mod entry_line;
mod error;
mod feed;
mod fronts;
mod laws;
mod lines;
mod number_words;
mod numerals;
mod plain_lines;
mod reading;
mod room;
mod size_line;
mod stage;
mod sums;
mod table;
mod word_list;

pub use array::write_array;
pub use error::{FeedError, MmError};
pub use feed::{MatrixFeed, read_matrix};
pub use laws::printed_arrays_are_read;
