ghost use Rattle.std.specs.Prelude.{◌≡◌, ◌<◌, ◌≤◌, ◌^◌, IfOk, length};
ghost use Rattle.term_model.specs.Plans.{first_known};
ghost use Rattle.term_model.specs.Queries.{levels_by, query};
ghost use Rattle.join_plan.specs.Costs.{measures};
ghost use Rattle.join_plan.specs.Least.{IsFirstOfLeast};
ghost use Rattle.join_plan.specs.Progress.{Knows};
ghost use Rattle.join_plan.specs.Tasks.{CanSchedule, measures_in, query_in};

use crate::best::Best;
use crate::progress::Progress;
use crate::search::explore;
use crate::spent::Spent;
use crate::task::Task;
use bern_base::{Items, Nest, NoMemory, Stats};
use loop_query::{Plan, PlanStep, Term};
use smallvec::SmallVec;
use std::alloc::Global;

/// A plan's steps and its cost.
#[derive(Drop)]
struct Found {
    steps: SmallVec<PlanStep, 4>,
    cost: u128,
}

/// Before the first search: variables that the nest does not have count as bound.
pub(crate) fn beginning(task: &Task<'_>) -> Progress
    ensures { Knows (first_known (query_in task.now)) result }
{
    let variables = task.vars.len();
    Progress {
        bound: [
            !(0 < variables),
            !(1 < variables),
            !(2 < variables),
            !(3 < variables),
        ],
        located: [0, 0, 0, 0],
    }
}

/// The first plan of least cost.
fn least(alloc: Global, task: &Task<'_>) -> Found
    ensures least { IsFirstOfLeast (query_in task.now) (measures_in task.now) result.steps.items result.cost }
    ensures small { result.cost < 2 ^ 127 }
{
    let references = task.references();
    let searched = task.search(&beginning(task));
    let spent = Spent {
        many: 1,
        cost: u128::from(searched.weight),
    };
    let mut prefix = SmallVec::new(alloc);
    let mut best = Best::new(alloc);
    explore(task, &searched.progress, 4, spent, &mut prefix, &mut best);
    Found {
        steps: best.steps,
        cost: best.cost.unwrap_or(0),
    }
}

fn copied(alloc: Global, steps: &[PlanStep]) -> Result<Items<PlanStep>, NoMemory>
    ensures { IfOk result (λ items. items ≡ steps.now) }
{
    let mut items = Items::new(alloc);
    for step in steps {
        items.push(*step)?;
    }
    Ok(items)
}

/// The first plan of least cost of a term of this nest, and its cost, where `stats` has what was measured of each array.
///
/// It takes memory for its answer alone. The only error is want of memory.
pub fn schedule(
    alloc: Global,
    nest: &Nest,
    term: &Term,
    stats: &Items<Stats>,
) -> Result<(Plan, u128), NoMemory>
    requires { CanSchedule (record { vars = nest.now.vars; term = term.now; stats = stats.now }) }
    ensures least { IfOk result (λ found.
        IsFirstOfLeast (query (levels_by stats.now) nest.now term.now) (measures nest.now.vars term.now stats.now) found.0.steps found.1) }
    ensures small { IfOk result (λ found. found.1 < 2 ^ 127) }
{
    let task = Task {
        vars: &nest.vars,
        term,
        stats,
    };
    let found = least(alloc, &task);
    let steps = copied(alloc, found.steps.as_slice())?;
    Ok((Plan { steps }, found.cost))
}
