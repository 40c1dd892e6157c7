//! The commands: words, the run over their files, and what is written to the two streams.
#![tactic(auto)]

mod calls;
mod laws;
mod lines;
mod numerals;
mod requests;
mod texts;
mod top;
mod writing;

pub use calls::{plan_call, replay_call, run_call};
pub use job_files::LoadError;
pub use laws::plans_are_due;
pub use top::{bernoulli, want_of_memory};
