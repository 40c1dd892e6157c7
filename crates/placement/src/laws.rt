//! Laws of placements and parts. Each function does nothing: its contract is the law.

ghost use Rattle.placement.specs.Cyclic.{BlocksAreDealtInTurn};
ghost use Rattle.placement.specs.Elements.{ElementsAreOwnedOnce};
ghost use Rattle.placement.specs.Listed.{PlacesAreListed};
ghost use Rattle.placement.specs.Part.{PartsShareAMatrix};

/// Owners, local numbers and indices of blocks dealt in turn, by their formulas.
pub fn blocks_are_dealt_in_turn()
    ensures { BlocksAreDealtInTurn }
{}

/// A matrix that breaks no rule lists a placement, in which each index is at the rank that is listed for it.
pub fn places_are_listed()
    ensures { PlacesAreListed }
{}

/// Over all ranks the parts hold each entry of a matrix once, at its owner and with its local index.
pub fn parts_share_a_matrix()
    ensures { PartsShareAMatrix }
{}

/// Each element of an array is owned by one rank, which is the owner of an entry there.
pub fn elements_are_owned_once()
    ensures { ElementsAreOwnedOnce }
{}
