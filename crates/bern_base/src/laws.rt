ghost use Rattle.bern_base.specs.Ring.{IsRing};

/// Values are a commutative ring. The function does nothing: its contract is the law.
pub fn values_are_a_ring()
    ensures { IsRing }
{}
