ghost use Rattle.std.specs.Prelude.{◌≡◌, ◌+◌, ◌<◌, [], ◌∷◌, length};
ghost use Rattle.std.specs.List.{All};
ghost use Rattle.term_model.specs.Plans.{candidates, plans_from};
ghost use Rattle.join_plan.specs.Picks.{Keeps};
ghost use Rattle.join_plan.specs.Searches.{CanTry, TakesBest, all_drives, all_merges, merges_with, plans_by};
ghost use Rattle.join_plan.specs.Steps.{IsStepOf};
ghost use Rattle.join_plan.specs.Tasks.{query_in};

use crate::best::Best;
use crate::candidates::{drives, merges, ranges};
use crate::progress::Progress;
use crate::spent::{Price, Spent};
use crate::task::Task;
use loop_query::PlanStep;
use smallvec::SmallVec;

/// Tries all ways to go on from the steps of the prefix, with at most `left` steps more.
#[cycle(exploring)]
pub(crate) fn explore(
    task: &Task<'_>,
    progress: &Progress,
    left: u32,
    spent: Spent,
    prefix: &mut SmallVec<PlanStep, 4>,
    best: &mut Best,
)
    requires can { CanTry task.now left spent prefix.old best.old }
    ensures keeps { Keeps prefix.old best.old prefix.new best.new }
    ensures best { TakesBest task.now progress.now spent prefix.old best.old best.new
        (λ k. plans_from (query_in task.now) left k) }
{
    if !best.is_beaten_by(spent.cost) {
        return;
    }
    if progress.is_bound() {
        best.keep(spent.cost, prefix);
        return;
    }
    if left > 0 {
        follow(task, progress, left - 1, spent, prefix, best);
    }
}

/// Tries all steps, each with at most `left` steps after it.
#[cycle(exploring)]
fn follow(
    task: &Task<'_>,
    progress: &Progress,
    left: u32,
    spent: Spent,
    prefix: &mut SmallVec<PlanStep, 4>,
    best: &mut Best,
)
    requires can { CanTry task.now (left + 1) spent prefix.old best.old }
    ensures keeps { Keeps prefix.old best.old prefix.new best.new }
    ensures best { TakesBest task.now progress.now spent prefix.old best.old best.new
        (λ k. plans_by task.now left k (candidates (query_in task.now) k)) }
{
    attempt_all(task, progress, left, spent, &ranges(), prefix, best);
    follow_drives(task, progress, left, spent, prefix, best);
    follow_merges(task, progress, left, spent, prefix, best);
}

/// Tries the loops over the next level of each reference.
#[cycle(exploring)]
fn follow_drives(
    task: &Task<'_>,
    progress: &Progress,
    left: u32,
    spent: Spent,
    prefix: &mut SmallVec<PlanStep, 4>,
    best: &mut Best,
)
    requires can { CanTry task.now (left + 1) spent prefix.old best.old }
    ensures keeps { Keeps prefix.old best.old prefix.new best.new }
    ensures best { TakesBest task.now progress.now spent prefix.old best.old best.new
        (λ k. plans_by task.now left k (all_drives task.now k)) }
{
    let references = task.references();
    let mut reference = 0;
    'references: while reference < references {
        let steps = drives(progress, reference);
        attempt_all(task, progress, left, spent, &steps, prefix, best);
        reference += 1;
    }
}

/// Tries the loops over the next levels of two references at once.
#[cycle(exploring)]
fn follow_merges(
    task: &Task<'_>,
    progress: &Progress,
    left: u32,
    spent: Spent,
    prefix: &mut SmallVec<PlanStep, 4>,
    best: &mut Best,
)
    requires can { CanTry task.now (left + 1) spent prefix.old best.old }
    ensures keeps { Keeps prefix.old best.old prefix.new best.new }
    ensures best { TakesBest task.now progress.now spent prefix.old best.old best.new
        (λ k. plans_by task.now left k (all_merges task.now k)) }
{
    let references = task.references();
    let mut reference = 0;
    'references: while reference < references {
        follow_partners(task, progress, left, spent, reference, prefix, best);
        reference += 1;
    }
}

/// Tries the loops over the next level of a reference and of another one at once.
#[cycle(exploring)]
fn follow_partners(
    task: &Task<'_>,
    progress: &Progress,
    left: u32,
    spent: Spent,
    reference: u32,
    prefix: &mut SmallVec<PlanStep, 4>,
    best: &mut Best,
)
    requires reference { (reference < 4) × (reference < length task.now.term.sparse) }
    requires can { CanTry task.now (left + 1) spent prefix.old best.old }
    ensures keeps { Keeps prefix.old best.old prefix.new best.new }
    ensures best { TakesBest task.now progress.now spent prefix.old best.old best.new
        (λ k. plans_by task.now left k (merges_with task.now k reference)) }
{
    let references = task.references();
    let mut partner = 0;
    'partners: while partner < references {
        let steps = merges(progress, reference, partner);
        attempt_all(task, progress, left, spent, &steps, prefix, best);
        partner += 1;
    }
}

/// Tries these steps.
#[cycle(exploring)]
fn attempt_all(
    task: &Task<'_>,
    progress: &Progress,
    left: u32,
    spent: Spent,
    steps: &[PlanStep],
    prefix: &mut SmallVec<PlanStep, 4>,
    best: &mut Best,
)
    requires near { All (IsStepOf (length task.now.term.sparse)) steps.now }
    requires can { CanTry task.now (left + 1) spent prefix.old best.old }
    ensures keeps { Keeps prefix.old best.old prefix.new best.new }
    ensures best { TakesBest task.now progress.now spent prefix.old best.old best.new
        (λ k. plans_by task.now left k steps.now) }
{
    for step in steps {
        attempt(task, progress, left, spent, *step, prefix, best);
    }
}

/// Tries a step, where it is ready.
#[cycle(exploring)]
fn attempt(
    task: &Task<'_>,
    progress: &Progress,
    left: u32,
    spent: Spent,
    step: PlanStep,
    prefix: &mut SmallVec<PlanStep, 4>,
    best: &mut Best,
)
    requires near { IsStepOf (length task.now.term.sparse) step }
    requires can { CanTry task.now (left + 1) spent prefix.old best.old }
    ensures keeps { Keeps prefix.old best.old prefix.new best.new }
    ensures best { TakesBest task.now progress.now spent prefix.old best.old best.new
        (λ k. plans_by task.now left k (step ∷ [])) }
{
    if !task.is_ready(progress, step) {
        return;
    }
    let after = task.after(progress, step);
    let searched = task.search(&after);
    let price = Price {
        offers: task.offers(progress, step),
        keeps: task.keeps(progress, step),
        weight: searched.weight,
    };
    let paid = spent.pay(price, left);
    prefix.push_reserved(step);
    explore(task, &searched.progress, left, paid, prefix, best);
    prefix.pop();
}
