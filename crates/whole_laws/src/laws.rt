//! Laws of stores of whole arrays. Each function does nothing: its contract is the law.

ghost use Rattle.whole_laws.specs.Alone.{OneRankIsAlone, OneRankOwnsAll};
ghost use Rattle.whole_laws.specs.HeldLaws.{BuiltArraysAreHeld, ChangedStatesAreHeld, ChangedStoresHold, HeldArraysAreViews, HeldArraysHaveCells, HeldArraysHaveTheValues, WholesCanBeBuilt, WholesHoldZeros};

/// What the rules of a job and the checks of its files let through, `build` can take whole.
pub fn wholes_can_be_built()
    ensures { WholesCanBeBuilt }
{}

/// A store that describes the whole matrix of an array holds the array with the matrix's values.
pub fn built_arrays_are_held()
    ensures { BuiltArraysAreHeld }
{}

/// A store that holds an array is itself a view of it as the loops of a job ask for.
pub fn held_arrays_are_views()
    ensures { HeldArraysAreViews }
{}

/// Each leaf has its element's value, and an array that is kept whole has each element at its number.
pub fn held_arrays_have_the_values()
    ensures leaves { HeldArraysHaveTheValues }
    ensures cells { HeldArraysHaveCells }
{}

/// A store that is kept whole and has other values at its elements holds the array with these.
pub fn changed_stores_hold()
    ensures { ChangedStoresHold }
{}

/// Stores that held a state hold the state in which one array has other values, once its store has them.
pub fn changed_states_are_held()
    ensures { ChangedStatesAreHeld }
{}

/// Arrays that begin with whole matrices have 0 where they store nothing.
pub fn wholes_hold_zeros()
    ensures { WholesHoldZeros }
{}

/// Where blocks are dealt to one rank it owns all, is the home of all points, and its interior points add what the body does.
pub fn one_rank_is_alone()
    ensures owns { OneRankOwnsAll }
    ensures alone { OneRankIsAlone }
{}
