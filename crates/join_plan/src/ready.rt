ghost use Rattle.std.specs.Prelude.{◌≡◌, ℕ, ◌<◌, ◌≤◌, ◌&&◌, List, length, slice_index, true};
ghost use Rattle.term_model.specs.Plans.{Known, can_drive, can_drive_flat, can_search, can_solve, depth_of, is_both, is_given, is_next, is_ready, level_at, rises_with, sparse_at, waits_for};
ghost use Rattle.join_plan.specs.Progress.{Knows, Marks};
ghost use Rattle.join_plan.specs.Steps.{IsStepOf};
ghost use Rattle.join_plan.specs.Tasks.{query_in};
ghost use Rattle.term_model.specs.declared.plan.PlanStep.TheVariants as step;

use crate::progress::Progress;
use crate::task::Task;
use crate::waiting::{is_known, is_only, marked, waiting};
use bern_base::Axis;
use loop_query::PlanStep;

/// A level of a reference.
#[derive(Clone, Copy)]
pub(crate) struct Level {
    pub(crate) reference: u32,
    pub(crate) level: u32,
}

impl<'a> Task<'a> {
    /// Whether the subscripts of a level are bound.
    fn is_given(&self, bound: &[bool; 4], reference: u32, level: u32) -> bool
        requires reference { reference < length self.now.term.sparse }
        requires level { level < depth_of (query_in self.now) reference }
        ensures { (vs : List ℕ) → Marks vs bound.now →
            result ≡ is_given vs (level_at (query_in self.now) reference level).axis (sparse_at (query_in self.now) reference) }
    {
        let subscripts = self.reference(reference);
        match self.stat(reference, level).axis {
            Axis::Row => is_known(&subscripts.row, bound),
            Axis::Col => is_known(&subscripts.col, bound),
            Axis::Both => is_known(&subscripts.row, bound) & is_known(&subscripts.col, bound),
        }
    }

    /// Whether the next level of a reference can be searched: it is there, and its subscripts are bound.
    pub(crate) fn can_search(&self, progress: &Progress, reference: u32) -> bool
        requires four { reference < 4 }
        requires there { reference < length self.now.term.sparse }
        ensures ready { (k : Known) → Knows k progress.now → result ≡ can_search (query_in self.now) k reference }
        ensures there { result ≡ true → slice_index progress.now.located reference < depth_of (query_in self.now) reference }
    {
        let level = progress.next_level(reference);
        if level >= self.depth(reference) {
            return false;
        }
        self.is_given(&progress.bound, reference, level)
    }

    /// Whether the subscript of a level waits for this variable alone.
    fn waits_for(&self, bound: &[bool; 4], reference: u32, level: u32, var: u32) -> bool
        requires reference { reference < length self.now.term.sparse }
        requires level { level < depth_of (query_in self.now) reference }
        ensures { (vs : List ℕ) → Marks vs bound.now →
            result ≡ waits_for vs (level_at (query_in self.now) reference level).axis (sparse_at (query_in self.now) reference) var }
    {
        let subscripts = self.reference(reference);
        match self.stat(reference, level).axis {
            Axis::Row => is_only(&subscripts.row, bound, var),
            Axis::Col => is_only(&subscripts.col, bound, var),
            Axis::Both => false,
        }
    }

    /// Whether a level is the next one of a reference, and its indices can be solved for a variable.
    fn can_drive(&self, progress: &Progress, reference: u32, level: u32, var: u32) -> bool
        requires four { reference < 4 }
        requires there { reference < length self.now.term.sparse }
        ensures ready { (k : Known) → Knows k progress.now → result ≡ can_drive (query_in self.now) k reference level var }
        ensures there { result ≡ true → level < depth_of (query_in self.now) reference }
    {
        if progress.next_level(reference) != level {
            return false;
        }
        if level >= self.depth(reference) {
            return false;
        }
        self.waits_for(&progress.bound, reference, level, var)
    }

    /// Whether the indices of a level rise, and are the values of a variable but for a constant.
    fn rises_with(&self, reference: u32, level: u32, var: u32) -> bool
        requires reference { reference < length self.now.term.sparse }
        requires level { level < depth_of (query_in self.now) reference }
        requires var { var < 4 }
        ensures { result ≡ rises_with (query_in self.now) reference level var }
    {
        let subscripts = self.reference(reference);
        let stat = self.stat(reference, level);
        if !stat.ordered {
            return false;
        }
        match stat.axis {
            Axis::Row => subscripts.row.coefficients()[var as usize] == 1,
            Axis::Col => subscripts.col.coefficients()[var as usize] == 1,
            Axis::Both => false,
        }
    }

    /// Whether both subscripts of a level can be solved, one variable each, and one of them has to be.
    fn can_solve(&self, bound: &[bool; 4], reference: u32) -> bool
        requires { reference < length self.now.term.sparse }
        ensures { (vs : List ℕ) → Marks vs bound.now → result ≡ can_solve vs (sparse_at (query_in self.now) reference) }
    {
        let subscripts = self.reference(reference);
        let row = waiting(&subscripts.row, bound).count;
        let after = marked(&subscripts.row, bound);
        let col = waiting(&subscripts.col, &after).count;
        (row < 2) & (col < 2) & (row + col > 0)
    }

    /// Whether the next level of a reference has row and column in one, and both can be solved.
    fn can_drive_flat(&self, progress: &Progress, reference: u32) -> bool
        requires four { reference < 4 }
        requires there { reference < length self.now.term.sparse }
        ensures { (k : Known) → Knows k progress.now → result ≡ can_drive_flat (query_in self.now) k reference }
    {
        let level = progress.next_level(reference);
        if level >= self.depth(reference) {
            return false;
        }
        if self.stat(reference, level).axis != Axis::Both {
            return false;
        }
        self.can_solve(&progress.bound, reference)
    }

    /// Whether two levels can be driven side by side in the order of a variable's values.
    fn can_merge(&self, progress: &Progress, left: Level, right: Level, var: u32) -> bool
        requires four { (left.reference < 4) × (right.reference < 4) × (var < 4) }
        requires there { (left.reference < length self.now.term.sparse) × (right.reference < length self.now.term.sparse) }
        ensures { (k : Known) → Knows k progress.now →
            result ≡ is_ready (query_in self.now) k (step.Merge left.reference left.level right.reference right.level var) }
    {
        if left.reference >= right.reference {
            return false;
        }
        if !self.can_drive(progress, left.reference, left.level, var) {
            return false;
        }
        if !self.can_drive(progress, right.reference, right.level, var) {
            return false;
        }
        if !self.rises_with(left.reference, left.level, var) {
            return false;
        }
        self.rises_with(right.reference, right.level, var)
    }

    /// Whether a step can be taken.
    pub(crate) fn is_ready(&self, progress: &Progress, step: PlanStep) -> bool
        requires { IsStepOf (length self.now.term.sparse) step }
        ensures { (k : Known) → Knows k progress.now → result ≡ is_ready (query_in self.now) k step }
    {
        match step {
            PlanStep::Range { var } => !progress.bound[var as usize],
            PlanStep::Drive {
                reference,
                level,
                var,
            } => self.can_drive(progress, reference, level, var),
            PlanStep::DriveFlat { reference } => self.can_drive_flat(progress, reference),
            PlanStep::Merge {
                left,
                left_level,
                right,
                right_level,
                var,
            } => self.can_merge(
                progress,
                Level {
                    reference: left,
                    level: left_level,
                },
                Level {
                    reference: right,
                    level: right_level,
                },
                var,
            ),
        }
    }
}
