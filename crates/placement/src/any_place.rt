use crate::cyclic::Cyclic;
use crate::listed::Listed;
use crate::place::{Placement, Seat};

/// A placement of any kind. Each call is handed on to the placement within.
#[derive(Debug, Drop)]
pub enum AnyPlace {
    Cyclic(Cyclic),
    Listed(Listed),
}

impl Placement for AnyPlace {
    ghost use Rattle.placement.specs.AnyPlaces.{any_ranks, any_triples, any_is_placement};
    ghost use Rattle.placement.specs.PlacementLaws.{owner-below, global-below, global-owner-local, owner-global, local-global, local-below, global-rises};

    ghost ranks = { any_ranks };

    ghost triples = { any_triples };

    ghost placed = { any_is_placement };

    ghost owner_is_a_rank = { λ s. owner-below (any_is_placement s) };

    ghost global_is_an_index = { λ s. global-below (any_is_placement s) };

    ghost global_undoes_local = { λ s. global-owner-local (any_is_placement s) };

    ghost owner_of_global = { λ s. owner-global (any_is_placement s) };

    ghost local_of_global = { λ s. local-global (any_is_placement s) };

    ghost local_is_owned = { λ s. local-below (any_is_placement s) };

    ghost global_rises = { λ s. global-rises (any_is_placement s) };

    fn owner(&self, i: u32) -> u32 {
        match self {
            AnyPlace::Cyclic(place) => place.owner(i),
            AnyPlace::Listed(place) => place.owner(i),
        }
    }

    fn local(&self, i: u32) -> u32 {
        match self {
            AnyPlace::Cyclic(place) => place.local(i),
            AnyPlace::Listed(place) => place.local(i),
        }
    }

    fn seat(&self, i: u32) -> Seat {
        match self {
            AnyPlace::Cyclic(place) => place.seat(i),
            AnyPlace::Listed(place) => place.seat(i),
        }
    }

    fn owned(&self, p: u32) -> u32 {
        match self {
            AnyPlace::Cyclic(place) => place.owned(p),
            AnyPlace::Listed(place) => place.owned(p),
        }
    }

    fn global(&self, p: u32, l: u32) -> u32 {
        match self {
            AnyPlace::Cyclic(place) => place.global(p, l),
            AnyPlace::Listed(place) => place.global(p, l),
        }
    }
}
