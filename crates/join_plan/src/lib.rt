//! The scheduler: which join order of a term costs least.
//!
//! Arrays, variables, references, levels and depths count from 0.
#![tactic(auto)]

mod advance;
mod best;
mod candidates;
mod checking;
mod laws;
mod limits;
mod price;
mod progress;
mod ready;
mod scheduling;
mod search;
mod spent;
mod task;
mod text;
mod waiting;

pub use checking::is_plan;
pub use laws::terms_can_be_scheduled;
pub use limits::can_schedule;
pub use scheduling::schedule;
pub use text::plan_text;
