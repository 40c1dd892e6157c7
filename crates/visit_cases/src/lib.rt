//! Tests of visits, in a crate of their own: a crate that holds tests is proved once more with them.
#![tactic(auto)]

mod entries;
mod grid;
mod pair;
mod probe;
mod rows;
#[cfg(test)]
mod visited;

pub use entries::EntriesRoute;
pub use grid::GridRoute;
pub use pair::PairRoute;
pub use probe::Probe;
pub use rows::RowsRoute;
