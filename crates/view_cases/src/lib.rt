//! Tests of the elements of a part that is stored whole, through its view in the indices of the array.
#![tactic(auto)]

#[cfg(test)]
mod cells;
