ghost use Rattle.std.specs.Prelude.{IfOk};
ghost use Rattle.std.specs.List.{Contains};
ghost use Rattle.plan_courses.specs.JobCourses.{IsPlanOf};
ghost use Rattle.prog_cases.specs.Settings.{IsLoaded};

use crate::loading::Loaded;
use bern_base::{Items, Nest};
use join_plan::is_plan;
use loop_query::{Plan, PlanStep, PlannedTerm, terms};
use std::alloc::Global;
use std::test::Fail;

/// The last term of a nest with these steps, which are one of its plans.
pub(crate) fn planned(
    alloc: Global,
    loaded: &Loaded,
    nest: &Nest,
    steps: &[PlanStep],
) -> Result<PlannedTerm, Fail>
    requires loaded { let l = loaded.now in IsLoaded l.job l.files.matrices l.files.orders l.stats }
    requires nest { Contains loaded.now.job.nests nest.now }
    ensures { IfOk result (λ p. IsPlanOf loaded.now.job nest.now p.term p.plan) }
{
    let mut found = terms(alloc, &loaded.job, nest)?;
    let Some(term) = found.pop() else {
        return Err(Fail::from("no term"));
    };
    let plan = Plan {
        steps: Items::from_slice(alloc, steps)?,
    };
    if is_plan(nest, &term, &loaded.stats, &plan) {
        return Ok(PlannedTerm {
            term,
            plan,
            cost: 0,
        });
    }
    Err(Fail::from("no plan of the term"))
}
