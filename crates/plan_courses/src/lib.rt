//! The course of a plan: a term's plan over the trees of its sparse references, as a walk asks for it, and the law that every plan of
//! the term's list gives one. The definitions stand in `specs/`.
//!
//! Variables, references, levels and depths count from 0.
#![tactic(auto)]

mod laws;

pub use laws::{each_plan_gives_a_course, each_plan_walks_the_answer};
