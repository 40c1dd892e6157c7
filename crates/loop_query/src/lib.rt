//! The terms of a loop nest: its body as a sum of products, and what a product is by its references.
//!
//! Arrays, variables, references and levels count from 0.
#![tactic(auto)]

mod expressions;
mod laws;
mod nest;
mod products;
mod references;
mod subscripts;

pub use laws::{
    active_terms_sum, active_terms_sum_in_turns, answers_are_active_points, formats_tell_plans,
    plans_are_ready_steps, terms_are_few, terms_read_the_body, terms_sum,
};
pub use nest::terms;
pub use references::reference_at;
pub use subscripts::{has_factor, level_axis, subscript};
pub use term_model::{Plan, PlanStep, PlannedTerm, Plans, Term};
