//! Placements of indices on ranks, and the part of a matrix that a rank owns.
//!
//! Indices, ranks and local numbers count from 0.
#![tactic(auto)]

mod any_place;
mod cyclic;
mod laws;
mod listed;
mod part;
mod place;
mod shared_place;

pub use any_place::AnyPlace;
pub use cyclic::Cyclic;
pub use laws::{
    blocks_are_dealt_in_turn, elements_are_owned_once, parts_share_a_matrix, places_are_listed,
};
pub use listed::{Listed, ListedError, check_listed};
pub use part::{Part, deal, split};
pub use place::{Placement, Seat};
pub use shared_place::SharedPlace;
