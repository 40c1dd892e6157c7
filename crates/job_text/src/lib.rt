//! Reading a job text: from bytes to the forms of its lines, up to the first line that has none.
//!
//! Lines count from 1.
#![tactic(auto)]

mod expressions;
mod forms;
mod job;
mod laws;
mod levels;
mod lexer;
mod line_forms;
mod lines;
mod lists;
mod marks;
mod names;
mod nests;
mod numbers;
mod offsets;
mod pieces;
mod stop;
mod sums;
mod tokens;
mod words;

pub use job::{JobError, read_job};
pub use laws::{a_text_has_one_form, bytes_have_one_meaning, jobs_are_shallow};
