//! Jobs of one product of a matrix and a vector, `T[v] += S[v, w] * D[w]`, and their runs on ranks.
//!
//! Indices, ranks and the numbers of arrays count from 0.
#![tactic(auto)]

mod matrices;
mod parts;
mod ranks;
mod shape;

pub use matrices::are_of_job;
pub use ranks::product_on_ranks;
pub use shape::{ProductShape, product_shape};
