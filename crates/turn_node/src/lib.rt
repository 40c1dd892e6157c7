//! One rank of a run over turns: what it inspects, posts, waits for, takes and computes, over any engine of passes.
//!
//! A turn is one execution of a nest. Ranks, turns, nests, arrays, element numbers and local numbers count from 0.
#![tactic(auto)]

mod due;
mod mail;
mod node;
mod part;
mod progress;
mod settle;
mod stage;

pub use mail::Mail;
pub use node::Node;
pub use part::Part;
pub use progress::Progress;
pub use stage::{Stage, Tally, Want};
