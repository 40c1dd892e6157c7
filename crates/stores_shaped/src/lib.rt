//! Arrays in shapes of their own: rows by falling count of entries, listed diagonals, and rows in an order that a file gives.
//!
//! Rows and columns count from 0.
#![tactic(auto)]

mod arranging;
mod counts;
mod crossing;
mod dealing;
mod diagonal;
mod halving;
mod jagged;
mod orders;
mod permuted;

pub use arranging::rows_in_order;
pub use diagonal::DiagonalStore;
pub use jagged::JaggedStore;
pub use orders::{local_order, order_inverse};
pub use permuted::PermutedStore;
