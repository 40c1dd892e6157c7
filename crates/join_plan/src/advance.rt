ghost use Rattle.std.specs.Prelude.{◌≡◌, ℕ, ◌<◌, ◌≤◌, ◌+◌, ◌*◌, List, [], ◌∷◌, length, true};
ghost use Rattle.bern_base.specs.declared.limits.TheConstants.{MOST_WEIGHT};
ghost use Rattle.term_model.specs.Plans.{Known, after_step, due_searches, is_ready, searched, searches};
ghost use Rattle.join_plan.specs.Costs.{weight_of};
ghost use Rattle.join_plan.specs.Progress.{Knows, searched_by, tries_before};
ghost use Rattle.join_plan.specs.Steps.{FewLevels, IsStepOf};
ghost use Rattle.join_plan.specs.Tasks.{measures_in, query_in, tries_of};

use crate::limits::MOST_SEARCHED;
use crate::progress::{Progress, deepened, with_mark};
use crate::task::Task;
use crate::waiting::marked;
use loop_query::PlanStep;

/// How far a plan has come after some searches, and what they take.
#[derive(Clone, Copy)]
pub(crate) struct Searched {
    pub(crate) progress: Progress,
    pub(crate) weight: u64,
}

impl<'a> Task<'a> {
    /// How far a plan has come after a step that is ready, before the searches.
    pub(crate) fn after(&self, progress: &Progress, step: PlanStep) -> Progress
        requires step { IsStepOf (length self.now.term.sparse) step }
        requires few { FewLevels (query_in self.now) }
        ensures { (k : Known) → Knows k progress.now → is_ready (query_in self.now) k step ≡ true →
            Knows (after_step (query_in self.now) k step) result }
    {
        match step {
            PlanStep::Range { var } => Progress {
                bound: with_mark(&progress.bound, var),
                located: progress.located,
            },
            PlanStep::Drive { reference, var, .. } => Progress {
                bound: with_mark(&progress.bound, var),
                located: deepened(&progress.located, reference),
            },
            PlanStep::DriveFlat { reference } => {
                let subscripts = self.reference(reference);
                let row = marked(&subscripts.row, &progress.bound);
                Progress {
                    bound: marked(&subscripts.col, &row),
                    located: deepened(&progress.located, reference),
                }
            }
            PlanStep::Merge {
                left,
                right,
                var,
                ..
            } => {
                let located = deepened(&progress.located, right);
                Progress {
                    bound: with_mark(&progress.bound, var),
                    located: deepened(&located, left),
                }
            }
        }
    }

    /// A reference searches its next level, where it can.
    fn try_search(&self, progress: &Progress, reference: u32) -> Searched
        requires four { reference < 4 }
        requires there { reference < length self.now.term.sparse }
        requires few { FewLevels (query_in self.now) }
        ensures progress { (k : Known) → Knows k progress.now → Knows (searched_by (query_in self.now) k (reference ∷ [])) result.progress }
        ensures weight { (k : Known) → Knows k progress.now →
            result.weight ≡ weight_of (measures_in self.now) (searches (query_in self.now) k (reference ∷ [])) }
        ensures modest { result.weight ≤ MOST_WEIGHT }
    {
        if self.can_search(progress, reference) {
            let level = progress.next_level(reference);
            let weight = self.stat(reference, level).weight;
            let progress = Progress {
                bound: progress.bound,
                located: deepened(&progress.located, reference),
            };
            return Searched { progress, weight };
        }
        Searched {
            progress: *progress,
            weight: 0,
        }
    }

    /// A reference searches its levels as long as it can.
    fn search_reference(&self, progress: &Progress, reference: u32) -> Searched
        requires four { reference < 4 }
        requires there { reference < length self.now.term.sparse }
        requires few { FewLevels (query_in self.now) }
        ensures progress { (k : Known) → Knows k progress.now →
            Knows (searched_by (query_in self.now) k (tries_of self.now reference)) result.progress }
        ensures weight { (k : Known) → Knows k progress.now →
            result.weight ≡ weight_of (measures_in self.now) (searches (query_in self.now) k (tries_of self.now reference)) }
        ensures modest { result.weight ≤ 2 * MOST_WEIGHT }
    {
        let depth = self.depth(reference);
        if depth == 0 {
            return Searched {
                progress: *progress,
                weight: 0,
            };
        }
        let first = self.try_search(progress, reference);
        if depth == 1 {
            return first;
        }
        let second = self.try_search(&first.progress, reference);
        Searched {
            progress: second.progress,
            weight: first.weight + second.weight,
        }
    }

    /// Every reference in order searches its levels as long as it can.
    pub(crate) fn search(&self, progress: &Progress) -> Searched
        ensures progress { (k : Known) → Knows k progress.now → Knows (searched (query_in self.now) k) result.progress }
        ensures weight { (k : Known) → Knows k progress.now →
            result.weight ≡ weight_of (measures_in self.now) (due_searches (query_in self.now) k) }
        ensures modest { result.weight ≤ MOST_SEARCHED }
    {
        let references = self.references();
        let mut found = Searched {
            progress: *progress,
            weight: 0,
        };
        let mut reference = 0;
        'references: while reference < references {
            let next = self.search_reference(&found.progress, reference);
            found = Searched {
                progress: next.progress,
                weight: found.weight + next.weight,
            };
            reference += 1;
        }
        found
    }
}
