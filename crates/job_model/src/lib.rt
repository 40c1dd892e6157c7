//! What a job means, as definitions alone: states, points, values of expressions, nests and turns, and what an accepted job
//! keeps. They stand in `specs/`.
#![tactic(auto)]
