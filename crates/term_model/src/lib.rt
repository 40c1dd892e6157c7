//! What the terms of a nest and their plans are, as plain types and definitions. The definitions stand in `specs/`.
//!
//! Arrays, variables, references and levels count from 0.
#![tactic(auto)]

mod plan;
mod term;

pub use plan::{Plan, PlanStep, PlannedTerm, Plans};
pub use term::Term;
