ghost use Rattle.std.specs.Prelude.{◌≡◌, ◌<◌, ◌≤◌, ℕ};
ghost use Rattle.std.specs.List.{All};
ghost use Rattle.term_model.specs.Plans.{Known, drives, merges, ranges};
ghost use Rattle.join_plan.specs.Progress.{Knows};
ghost use Rattle.join_plan.specs.Steps.{IsStepOf};
ghost use Rattle.term_model.specs.declared.plan.PlanStep.TheVariants as step;

use crate::progress::Progress;
use loop_query::PlanStep;

/// The loops over the values of a variable.
pub(crate) fn ranges() -> [PlanStep; 4]
    ensures steps { result ≡ ranges }
    ensures near { (n : ℕ) → All (IsStepOf n) result }
{
    [
        PlanStep::Range { var: 0 },
        PlanStep::Range { var: 1 },
        PlanStep::Range { var: 2 },
        PlanStep::Range { var: 3 },
    ]
}

/// The loops over the next level of a reference.
pub(crate) fn drives(progress: &Progress, reference: u32) -> [PlanStep; 5]
    requires { reference < 4 }
    ensures steps { (k : Known) → Knows k progress.now → result ≡ drives k reference }
    ensures near { (n : ℕ) → reference < n → All (IsStepOf n) result }
{
    let level = progress.next_level(reference);
    [
        PlanStep::Drive {
            reference,
            level,
            var: 0,
        },
        PlanStep::Drive {
            reference,
            level,
            var: 1,
        },
        PlanStep::Drive {
            reference,
            level,
            var: 2,
        },
        PlanStep::Drive {
            reference,
            level,
            var: 3,
        },
        PlanStep::DriveFlat { reference },
    ]
}

/// A loop over the next levels of two references at once.
fn merge(left: u32, left_level: u32, right: u32, right_level: u32, var: u32) -> PlanStep
    ensures { result ≡ step.Merge left left_level right right_level var }
{
    PlanStep::Merge {
        left,
        left_level,
        right,
        right_level,
        var,
    }
}

/// The loops over the next levels of two references at once.
pub(crate) fn merges(progress: &Progress, left: u32, right: u32) -> [PlanStep; 4]
    requires four { (left < 4) × (right < 4) }
    ensures steps { (k : Known) → Knows k progress.now → result ≡ merges k left right }
    ensures near { (n : ℕ) → left < n → right < n → All (IsStepOf n) result }
{
    let left_level = progress.next_level(left);
    let right_level = progress.next_level(right);
    [
        merge(left, left_level, right, right_level, 0),
        merge(left, left_level, right, right_level, 1),
        merge(left, left_level, right, right_level, 2),
        merge(left, left_level, right, right_level, 3),
    ]
}
