ghost use Rattle.std.specs.Prelude.{◌≡◌, ◌<◌, true, length};
ghost use Rattle.std.specs.List.{Contains};
ghost use Rattle.term_model.specs.Queries.{levels_by, plans_by};
ghost use Rattle.join_plan.specs.Steps.{IsStepOf};
ghost use Rattle.join_plan.specs.Tasks.{CanSchedule};

use crate::scheduling::beginning;
use crate::task::Task;
use bern_base::{Items, Nest, Stats};
use loop_query::{Plan, PlanStep, Term};

impl<'a> Task<'a> {
    /// Whether there is a sparse reference with this number.
    fn has_reference(&self, reference: u32) -> bool
        ensures { result ≡ true → (reference < 4) × (reference < length self.now.term.sparse) }
    {
        reference < self.references()
    }

    /// Whether a step is one of these variables and references.
    fn has_step(&self, step: PlanStep) -> bool
        ensures { result ≡ true → IsStepOf (length self.now.term.sparse) step }
    {
        match step {
            PlanStep::Range { var } => var < 4,
            PlanStep::Drive { reference, var, .. } => {
                if !self.has_reference(reference) {
                    return false;
                }
                var < 4
            }
            PlanStep::DriveFlat { reference } => self.has_reference(reference),
            PlanStep::Merge {
                left,
                right,
                var,
                ..
            } => {
                if !self.has_reference(left) {
                    return false;
                }
                if !self.has_reference(right) {
                    return false;
                }
                var < 4
            }
        }
    }
}

/// Whether a plan is one of the term's: each of its steps is ready when it is taken, and after the last one all variables are bound.
///
/// It takes no memory, and as many steps as the plan has.
pub fn is_plan(nest: &Nest, term: &Term, stats: &Items<Stats>, plan: &Plan) -> bool
    requires { CanSchedule (record { vars = nest.now.vars; term = term.now; stats = stats.now }) }
    ensures { result ≡ true → Contains (plans_by (levels_by stats.now) nest.now term.now) plan.now }
{
    let task = Task {
        vars: &nest.vars,
        term,
        stats,
    };
    let mut progress = task.search(&beginning(&task)).progress;
    for step in plan.steps.as_slice() {
        if !task.has_step(*step) {
            return false;
        }
        if !task.is_ready(&progress, *step) {
            return false;
        }
        progress = task.search(&task.after(&progress, *step)).progress;
    }
    progress.is_bound()
}
