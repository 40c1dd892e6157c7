//! Tests of `bern_base`, `bern_ports` and `placement`, in a crate of their own: a crate that holds tests is proved once more
//! with them.
#![tactic(auto)]

#[cfg(test)]
mod base;
#[cfg(test)]
mod placements;
#[cfg(test)]
mod ports;
