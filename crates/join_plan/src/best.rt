ghost use Rattle.std.specs.Prelude.{◌≡◌, ◌<◌, ◌≤◌, ◌^◌, length, Some};
ghost use Rattle.smallvec.specs.SmallVec.{small_vec_len};
ghost use Rattle.join_plan.specs.Picks.{IsCheap, beats, better, seen};

use loop_query::PlanStep;
use smallvec::SmallVec;
use std::alloc::Global;

/// The best plan so far: what it costs, where there is one, and its steps.
#[derive(Drop)]
pub(crate) struct Best {
    pub(crate) cost: Option<u128>,
    pub(crate) steps: SmallVec<PlanStep, 4>,
}

impl Best {
    pub(crate) fn new(alloc: Global) -> Best
        ensures none { seen result ≡ None }
        ensures room { result.steps.capacity ≡ 4 }
    {
        Best {
            cost: None,
            steps: SmallVec::new(alloc),
        }
    }

    /// Whether a plan of this cost is better.
    pub(crate) fn is_beaten_by(&self, cost: u128) -> bool
        ensures { result ≡ beats cost (seen self.now) }
    {
        match self.cost {
            None => true,
            Some(best) => cost < best,
        }
    }

    /// Keeps these steps, whose cost is below that of the best so far.
    pub(crate) fn keep(&mut self, cost: u128, steps: &SmallVec<PlanStep, 4>)
        requires room { self.old.steps.capacity ≡ 4 }
        requires few { length steps.now.items ≤ 4 }
        ensures best { seen self.new ≡ Some (record { cost = cost; steps = steps.now.items }) }
        ensures room { self.new.steps.capacity ≡ 4 }
    {
        self.cost = Some(cost);
        self.steps.clear();
        for step in steps.as_slice() {
            self.steps.push_reserved(*step);
        }
    }
}
