ghost use Rattle.std.specs.Prelude.{◌≡◌, IfOk};
ghost use Rattle.std.specs.List.{All};
ghost use Rattle.job_plans.specs.Least.{AreLeast, AreScheduled, CanPlan};

use bern_base::{Checked, Items, Nest, NoMemory, Stats};
use join_plan::schedule;
use loop_query::{PlannedTerm, Plans, terms};
use std::alloc::Global;

/// The plan of least cost of each term of each nest, the first one where several cost as little.
pub fn plans(alloc: Global, job: &Checked, stats: &Items<Stats>) -> Result<Plans, NoMemory>
    requires { All (CanPlan job.now stats.now) job.now.nests }
    ensures { IfOk result (AreLeast job.now stats.now) }
{
    let mut nests = Items::new(alloc);
    for nest in job.nests.as_slice() {
        nests.push(scheduled(alloc, job, nest, stats)?)?;
    }
    Ok(Plans { nests })
}

/// The terms of a nest in order, each with its plan of least cost.
fn scheduled(
    alloc: Global,
    job: &Checked,
    nest: &Nest,
    stats: &Items<Stats>,
) -> Result<Items<PlannedTerm>, NoMemory>
    requires { CanPlan job.now stats.now nest.now }
    ensures { IfOk result (AreScheduled job.now stats.now nest.now) }
{
    let mut planned = Items::new(alloc);
    for term in terms(alloc, job, nest)?.into_vec() {
        let (plan, cost) = schedule(alloc, nest, &term, stats)?;
        planned.push(PlannedTerm { term, plan, cost })?;
    }
    Ok(planned)
}
