//! Arrays by their entries alone, in compressed lines: a sparse vector, compressed rows (CSR) or columns (CSC), and doubly
//! compressed rows (DCSR) or columns.
//!
//! Rows, columns and lines count from 0. A line is a row or a column, by the axis of the outer level.
#![tactic(auto)]

mod filling;
mod form;
mod halving;
mod lines;
mod squeezing;
mod store;

pub use filling::{Filled, fill};
pub use store::PackedStore;
