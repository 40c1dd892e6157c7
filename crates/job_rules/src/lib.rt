//! The rules of a job: names turned into numbers, and the first broken rule at its line.
#![tactic(auto)]

mod declarations;
mod draft;
mod expressions;
mod items;
mod job;
mod laws;
mod lookup;
mod names;
mod narrow;
mod nest_rules;
mod nests;
mod ranges;
mod resolved;
mod scope;
mod stop;
mod sums;
mod tables;
mod terms;

pub use job::{CheckError, check_job};
pub use laws::{a_text_has_one_answer, accepted_texts_keep_the_rules, subscripts_leave_at_points};
