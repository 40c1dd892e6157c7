//! Tests of `join_plan`, in a crate of their own: a crate that holds tests is proved once more with them. The list of all plans of a
//! term is there for other tests of plans too.
#![tactic(auto)]

mod plan_list;
#[cfg(test)]
mod plans;
#[cfg(test)]
mod random_plans;
#[cfg(test)]
mod random_terms;

pub use plan_list::{Listed, all_plans};
