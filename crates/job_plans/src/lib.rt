//! The plans of a job: what is measured of the matrices of its arrays, and the plan of least cost of each term of each nest.
//!
//! Arrays, nests and terms count from 0. There is a matrix for each array, in their order.
#![tactic(auto)]

mod laws;
mod measuring;
mod planning;

pub use laws::{accepted_jobs_can_be_planned, least_plans_are_plans, plans_are_one};
pub use measuring::measured;
pub use planning::plans;
