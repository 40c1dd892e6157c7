//! What the scheduler can be given. The function does nothing: its contract is the law.

ghost use Rattle.join_plan.specs.Laws.{TermsCanBeScheduled};

/// Each term of a nest of an accepted job can be scheduled, where what was measured of its arrays is within the limits of files.
pub fn terms_can_be_scheduled()
    ensures { TermsCanBeScheduled }
{}
