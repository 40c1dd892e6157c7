//! Laws of turns on one rank. Each function does nothing: its contract is the law.

ghost use Rattle.whole_turns.specs.Turns.{TurnsAreHeld, TurnsCanBeMade};

/// Where stores hold a state of an accepted job, the interior pass of each of its nests can be made at rank 0 of one rank, and
/// `apply` after it.
pub fn turns_can_be_made()
    ensures { TurnsCanBeMade }
{}

/// And then the stores hold the state that the nest leaves.
pub fn turns_are_held()
    ensures { TurnsAreHeld }
{}
