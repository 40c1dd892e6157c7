ghost use Rattle.std.specs.Prelude.{◌≡◌};
ghost use Rattle.term_model.specs.declared.plan.PlanStep.TheVariants as step;

use crate::term::Term;
use bern_base::Items;

/// A join order of a term: the loops that bind the variables of its nest, the outermost first.
#[derive(Debug, Drop)]
pub struct Plan {
    pub steps: Items<PlanStep>,
}

/// One loop of a join order. `reference`, `left` and `right` are sparse references of the term, by their place in it.
#[derive(Clone, Copy, Debug, PartialEq, Eq)]
pub enum PlanStep {
    /// All values of a variable's loop.
    Range {
        var: u32,
    },
    /// The indices of a level of a reference, each solved for a variable.
    Drive {
        reference: u32,
        level: u32,
        var: u32,
    },
    /// The elements of a level that has row and column in one; they bind all variables of its two subscripts.
    DriveFlat {
        reference: u32,
    },
    /// The indices that a level of each of two references has, each the value of a variable but for a constant.
    Merge {
        left: u32,
        left_level: u32,
        right: u32,
        right_level: u32,
        var: u32,
    },
}

/// A loop over the first variable; a short list of steps keeps it in places that it does not use.
impl Default for PlanStep {
    ghost is_default = { λ s. s ≡ step.Range 0 };

    fn default() -> PlanStep {
        PlanStep::Range { var: 0 }
    }
}

/// For each nest of a job its terms in order, each with a join order.
#[derive(Debug, Drop)]
pub struct Plans {
    pub nests: Items<Items<PlannedTerm>>,
}

/// A term with a join order and the estimate of what this costs, in steps.
#[derive(Debug, Drop)]
pub struct PlannedTerm {
    pub term: Term,
    pub plan: Plan,
    pub cost: u128,
}
