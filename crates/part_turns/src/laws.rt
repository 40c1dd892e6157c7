//! Laws of turns at a rank among several. Each function does nothing: its contract is the law.

ghost use Rattle.part_turns.specs.HeldParts.{HeldPartsShowTheState};
ghost use Rattle.part_turns.specs.PartTurns.{TurnsOfPartsAreHeld, TurnsOfPartsCanBeMade};

/// Views that hold a rank's parts of the arrays of a job in a state show the passes this state.
pub fn parts_show_the_state()
    ensures { HeldPartsShowTheState }
{}

/// Over such views the passes of each nest of the job can be made at the rank, and `apply` after them.
pub fn turns_of_parts_can_be_made()
    ensures { TurnsOfPartsCanBeMade }
{}

/// And where the sums are what the body adds at the points at home at the rank, the views with the new target hold the rank's parts in
/// the state that the nest leaves.
pub fn turns_of_parts_are_held()
    ensures { TurnsOfPartsAreHeld }
{}
