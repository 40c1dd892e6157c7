//! Tests of jagged, diagonal and permute formats, from a whole matrix and its checks to the store of a rank's part.
#![tactic(auto)]

#[cfg(test)]
mod shaped;
