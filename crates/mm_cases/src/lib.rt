//! Worked cases of Matrix Market files: texts with the matrix or the refusal that is due, and printed arrays.
#![tactic(auto)]

#[cfg(test)]
mod printed;
#[cfg(test)]
mod read;
