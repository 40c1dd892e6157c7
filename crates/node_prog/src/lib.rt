//! The visit of a planned term of a job: its points at home at a rank, one a call, without memory.
//!
//! Variables, references, levels, leaves, ranks and depths count from 0; depth `d` is after `d` steps of the plan.
#![tactic(auto)]

mod bounds;
mod due;
mod home;
mod job_route;
mod record;
mod run_line;
mod subscripts;
mod visit;

pub use record::{Recorded, Slot};
pub use run_line::RunLine;
pub use visit::Visit;
