//! What a stored array lets a loop do: go over the children of a parent level by level, search among them, and read values.
//!
//! Levels count from 0, the outer one first. Indices count from 0: a row, a column, or row * cols + col.
#![tactic(auto)]

mod access;
mod cells;
mod drive;
mod line;
mod merge;
mod range;

pub use access::Access;
pub use cells::Cells;
pub use drive::DriveCursor;
pub use line::Line;
pub use merge::MergeCursor;
pub use range::RangeCursor;
