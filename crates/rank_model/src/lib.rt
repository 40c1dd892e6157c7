//! What each rank holds, needs and sends in a run, as definitions alone. They stand in `specs/`.
#![tactic(auto)]
