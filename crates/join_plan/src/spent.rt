ghost use Rattle.std.specs.Prelude.{◌≡◌, ◌+◌, ◌-◌, ◌*◌, ◌<◌, ◌≤◌};
ghost use Rattle.join_plan.specs.Picks.{IsSpent};

use crate::limits::{MOST_OFFERS, MOST_SEARCHED};
use bern_base::MOST_WEIGHT;

/// What the first steps of a plan cost, and how many bindings come to the next one.
#[derive(Clone, Copy)]
pub(crate) struct Spent {
    pub(crate) many: u128,
    pub(crate) cost: u128,
}

/// What a step takes: the indices that it is offered below one binding, those that it keeps, and the searches after it.
#[derive(Clone, Copy)]
pub(crate) struct Price {
    pub(crate) offers: u64,
    pub(crate) keeps: u64,
    pub(crate) weight: u64,
}

impl Spent {
    /// What the steps cost with one more, where `left` more can follow.
    pub(crate) fn pay(self, price: Price, left: u32) -> Spent
        requires left { left < 4 }
        requires spent { IsSpent (left + 1) self.many self.cost }
        requires offers { price.offers ≤ MOST_OFFERS }
        requires keeps { price.keeps ≤ MOST_WEIGHT }
        requires weight { price.weight ≤ MOST_SEARCHED }
        ensures many { result.many ≡ self.many * price.keeps }
        ensures cost { result.cost ≡ self.cost + (self.many * price.offers + self.many * price.keeps * price.weight) }
        ensures spent { IsSpent left result.many result.cost }
    {
        let many = self.many * u128::from(price.keeps);
        let offered = self.many * u128::from(price.offers);
        let searched = many * u128::from(price.weight);
        Spent {
            many,
            cost: self.cost + (offered + searched),
        }
    }
}
