ghost use Rattle.std.specs.Prelude.{◌≡◌, ◌<◌, length, slice_get};
ghost use Rattle.std.specs.Arc.{arc_value};

use crate::any_place::AnyPlace;
use crate::place::{Placement, Seat};
use bern_base::Items;
use std::alloc::Global;
use std::sync::Arc;

/// One place of a list that many hold: each call is handed on to it.
#[derive(Debug, Drop)]
pub struct SharedPlace {
    places: Arc<Items<AnyPlace>, Global>,
    place: u32,
    ghost within: { place < length (arc_value places) },
}

impl SharedPlace {
    ghost use Rattle.placement.specs.AnyPlaces.{ranks_at, triples_at};

    /// The place of this number in the list. It takes no memory.
    pub fn new(places: Arc<Items<AnyPlace>, Global>, place: u32) -> SharedPlace
        requires { place < length (arc_value places) }
        ensures ranks { ⟦<SharedPlace as Placement>⟧.ranks result ≡ ranks_at (slice_get (arc_value places) place) }
        ensures triples { ⟦<SharedPlace as Placement>⟧.triples result ≡ triples_at (slice_get (arc_value places) place) }
    {
        SharedPlace { places, place }
    }

    fn here(&self) -> &AnyPlace
        ensures { slice_get (arc_value self.now.places) self.now.place ≡ Some result.now }
    {
        self.places.at(self.place as usize)
    }
}

impl Placement for SharedPlace {
    ghost use Rattle.placement.specs.AnyPlaces.{ranks_at, triples_at, at_is_placement};
    ghost use Rattle.placement.specs.PlacementLaws.{owner-below, global-below, global-owner-local, owner-global, local-global, local-below, global-rises};

    ghost ranks = { λ s. ranks_at (slice_get (arc_value s.places) s.place) };

    ghost triples = { λ s. triples_at (slice_get (arc_value s.places) s.place) };

    ghost placed = { λ s. at_is_placement (slice_get (arc_value s.places) s.place) };

    ghost owner_is_a_rank = { λ s. owner-below (at_is_placement (slice_get (arc_value s.places) s.place)) };

    ghost global_is_an_index = { λ s. global-below (at_is_placement (slice_get (arc_value s.places) s.place)) };

    ghost global_undoes_local = { λ s. global-owner-local (at_is_placement (slice_get (arc_value s.places) s.place)) };

    ghost owner_of_global = { λ s. owner-global (at_is_placement (slice_get (arc_value s.places) s.place)) };

    ghost local_of_global = { λ s. local-global (at_is_placement (slice_get (arc_value s.places) s.place)) };

    ghost local_is_owned = { λ s. local-below (at_is_placement (slice_get (arc_value s.places) s.place)) };

    ghost global_rises = { λ s. global-rises (at_is_placement (slice_get (arc_value s.places) s.place)) };

    fn owner(&self, i: u32) -> u32 {
        self.here().owner(i)
    }

    fn local(&self, i: u32) -> u32 {
        self.here().local(i)
    }

    fn seat(&self, i: u32) -> Seat {
        self.here().seat(i)
    }

    fn owned(&self, p: u32) -> u32 {
        self.here().owned(p)
    }

    fn global(&self, p: u32, l: u32) -> u32 {
        self.here().global(p, l)
    }
}
