//! A world of ranks: what may happen next, one event after another, and a replay of a whole run.
//!
//! Ranks count from 0.
#![tactic(auto)]

mod boxes;
mod choices;
mod event;
mod laws;
mod world;

pub use choices::replay;
pub use event::{Event, StepError};
pub use laws::every_list_of_events_is_fit;
pub use world::World;
