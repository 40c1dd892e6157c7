//! Tests of the visits of planned terms, in a crate of their own: a crate that holds tests is proved once more with them.
//!
//! Variables, references, levels, leaves, arrays and ranks count from 0.
#![tactic(auto)]

#[cfg(test)]
mod boxes;
#[cfg(test)]
mod loading;
#[cfg(test)]
mod planning;
#[cfg(test)]
mod views;
#[cfg(test)]
mod visited;
#[cfg(test)]
mod visiting;
