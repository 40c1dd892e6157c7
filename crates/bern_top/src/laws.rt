ghost use Rattle.bern_top.specs.Laws.{PlansAreDue};

/// The law that plans are due wherever nothing is refused and no file is missing: a job always has plans of least cost. It
/// does nothing.
pub fn plans_are_due()
    ensures { PlansAreDue }
{}
