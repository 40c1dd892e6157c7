//! The laws of passes. Each function does nothing: its contract is the law.

ghost use Rattle.pass_model.specs.Sums.{PassesSum};
ghost use Rattle.split_exec.specs.Applying.{BoxesOfReplacingNestsAreSmall};
ghost use Rattle.split_exec.specs.Recalling.{PassesLeaveTheBody};

/// What the interior points of a rank and those on its boundary add to an element is what the body of the nest adds over all points
/// with this home.
pub fn passes_sum_to_the_body()
    ensures { PassesSum }
{}

/// After both passes, from sums of 0, the sum of each element that the rank owns is what the body of the nest adds to it over all points
/// with this home.
pub fn passes_leave_the_body()
    ensures { PassesLeaveTheBody }
{}

/// A nest that replaces writes each element at most once, so its box has at most as many points as its target has elements; `apply`
/// goes over the box.
pub fn boxes_of_replacing_nests_are_small()
    ensures { BoxesOfReplacingNestsAreSmall }
{}
