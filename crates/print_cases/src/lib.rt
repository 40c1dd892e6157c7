//! Tests of `gather_print`, in a crate of their own: a crate that holds tests is proved once more with them.
#![tactic(auto)]

#[cfg(test)]
mod sets;
