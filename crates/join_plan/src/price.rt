ghost use Rattle.std.specs.Prelude.{◌≡◌, ◌<◌, ◌≤◌, length};
ghost use Rattle.term_model.specs.Plans.{Known};
ghost use Rattle.join_plan.specs.Costs.{keeps, offers};
ghost use Rattle.join_plan.specs.Progress.{Knows};
ghost use Rattle.join_plan.specs.Steps.{IsStepOf};
ghost use Rattle.join_plan.specs.Tasks.{measures_in};

use crate::limits::MOST_OFFERS;
use crate::progress::Progress;
use crate::task::Task;
use bern_base::MOST_WEIGHT;
use loop_query::PlanStep;

impl<'a> Task<'a> {
    /// About how many indices a step is offered below one binding.
    pub(crate) fn offers(&self, progress: &Progress, step: PlanStep) -> u64
        requires { IsStepOf (length self.now.term.sparse) step }
        ensures offers { (k : Known) → Knows k progress.now → result ≡ offers (measures_in self.now) k step }
        ensures few { result ≤ MOST_OFFERS }
    {
        match step {
            PlanStep::Range { var } => self.size(var),
            PlanStep::Drive {
                reference,
                level,
                ..
            } => self.estimate(reference, level),
            PlanStep::DriveFlat { reference } => {
                self.estimate(reference, progress.next_level(reference))
            }
            PlanStep::Merge {
                left,
                left_level,
                right,
                right_level,
                ..
            } => self.estimate(left, left_level) + self.estimate(right, right_level),
        }
    }

    /// About how many bindings a step keeps of one.
    pub(crate) fn keeps(&self, progress: &Progress, step: PlanStep) -> u64
        requires { IsStepOf (length self.now.term.sparse) step }
        ensures keeps { (k : Known) → Knows k progress.now → result ≡ keeps (measures_in self.now) k step }
        ensures few { result ≤ MOST_WEIGHT }
    {
        match step {
            PlanStep::Range { var } => self.size(var),
            PlanStep::Drive {
                reference,
                level,
                ..
            } => self.estimate(reference, level),
            PlanStep::DriveFlat { reference } => {
                self.estimate(reference, progress.next_level(reference))
            }
            PlanStep::Merge {
                left,
                left_level,
                right,
                right_level,
                ..
            } => self
                .estimate(left, left_level)
                .min(self.estimate(right, right_level)),
        }
    }
}
