//! Tests of `rank_node`, `interleave`, `rank_product` and `rank_mail`, in a crate of their own: a crate that holds tests is
//! proved once more with them.
#![tactic(auto)]

#[cfg(test)]
mod mail;
#[cfg(test)]
mod nodes;
#[cfg(test)]
mod products;
#[cfg(test)]
mod worlds;
