//! Laws of dense nests. Each function does nothing: its contract is the law.

ghost use Rattle.nest_laws.specs.NestLaws.{NestsLeaveSums, StatesStay};

/// A nest leaves in each element of its target what `=` or `+=` makes of the old value and of the sum of the body's values at the
/// points that write the element, all read in the state before the nest; and it leaves all other arrays as they were.
pub fn nests_leave_sums()
    ensures { NestsLeaveSums }
{}

/// Each turn of an accepted job leaves a state of the job.
pub fn states_stay()
    ensures { StatesStay }
{}
