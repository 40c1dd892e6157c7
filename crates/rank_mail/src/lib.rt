//! The mail office: one box for each ordered pair of ranks, one end for each rank, and a record of what was carried.
//!
//! Ranks count from 0. A box is a queue that its sender and its receiver share. What one rank posts to another is taken
//! in the order of posting, each letter once. The boxes hold letters of any content: nothing here reads one.
#![tactic(auto)]

mod carried;
mod end;
mod issue;
mod mailbox;
mod office;
mod peer;
mod rule;
mod sides;

pub use end::End;
pub use office::{CloseError, Office};
