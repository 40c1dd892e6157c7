ghost use Rattle.std.specs.Prelude.{◌≡◌, ◌<◌, ◌≤◌, ◌-ℤ◌, length};
ghost use Rattle.std.specs.List.{All};
ghost use Rattle.bern_base.specs.declared.limits.TheConstants.{MOST_WEIGHT};
ghost use Rattle.job_model.specs.Points.{natural};
ghost use Rattle.job_model.specs.Runnable.{IsNear};
ghost use Rattle.term_model.specs.Plans.{depth_of, level_at, sparse_at};
ghost use Rattle.term_model.specs.Queries.{level_of_stat};
ghost use Rattle.join_plan.specs.Costs.{estimate_of, stats_of};
ghost use Rattle.join_plan.specs.Steps.{FewLevels};
ghost use Rattle.join_plan.specs.Tasks.{IsModest, measures_in, query_in};

use bern_base::{Items, LevelStat, Ref, Span, Stats};
use std::marker::Model;
use term_model::Term;

/// What the scheduler is given: the variables of a nest, one of its terms, and what was measured of each array.
#[derive(Drop)]
pub(crate) struct Task<'a> {
    pub(crate) vars: &'a Items<Span>,
    pub(crate) term: &'a Term,
    pub(crate) stats: &'a Items<Stats>,
}

impl<'a> Model for Task<'a> {
    ghost use Rattle.join_plan.specs.Tasks.{Task, CanSchedule};

    ghost Value = { Task };

    ghost view = { λ s. record { vars = s.vars.now; term = s.term.now; stats = s.stats.now } };

    ghost invariant = { λ s. CanSchedule (record { vars = s.vars.now; term = s.term.now; stats = s.stats.now }) };
}

impl<'a> Task<'a> {
    /// How many sparse references there are.
    pub(crate) fn references(&self) -> u32
        ensures count { result ≡ length self.now.term.sparse }
        ensures few { result ≤ 4 }
        ensures levels { FewLevels (query_in self.now) }
    {
        self.term.sparse.len() as u32
    }

    /// The levels that were measured of a sparse reference's array.
    fn levels(&self, reference: u32) -> &[LevelStat]
        ensures levels { result.now ≡ stats_of self.now.stats self.now.term reference }
        ensures few { length result.now ≤ 2 }
        ensures modest { All IsModest result.now }
    {
        let Some(found) = self.term.sparse.get(reference as usize) else {
            return &[];
        };
        match self.stats.get(found.array as usize) {
            Some(stats) => stats.levels.as_slice(),
            None => &[],
        }
    }

    /// How many levels a sparse reference's array has.
    pub(crate) fn depth(&self, reference: u32) -> u32
        ensures depth { result ≡ depth_of (query_in self.now) reference }
        ensures few { result ≤ 2 }
    {
        self.levels(reference).len() as u32
    }

    /// About how many indices a level has below one parent; none where there is no such level.
    pub(crate) fn estimate(&self, reference: u32, level: u32) -> u64
        ensures estimate { result ≡ estimate_of (measures_in self.now) reference level }
        ensures modest { result ≤ MOST_WEIGHT }
    {
        match self.levels(reference).get(level as usize) {
            Some(stat) => stat.estimate,
            None => 0,
        }
    }

    /// What was measured of a level of a sparse reference's array.
    pub(crate) fn stat(&self, reference: u32, level: u32) -> LevelStat
        requires { level < depth_of (query_in self.now) reference }
        ensures stat { result ≡ (measures_in self.now).stat reference level }
        ensures level { level_at (query_in self.now) reference level ≡ level_of_stat result }
        ensures modest { IsModest result }
    {
        self.levels(reference)[level as usize]
    }

    /// The subscripts of a sparse reference.
    pub(crate) fn reference(&self, reference: u32) -> &Ref
        requires { reference < length self.now.term.sparse }
        ensures row { result.now.row ≡ (sparse_at (query_in self.now) reference).row }
        ensures col { result.now.col ≡ (sparse_at (query_in self.now) reference).col }
    {
        self.term.sparse.at(reference as usize)
    }

    /// How many values the loop of a variable has.
    pub(crate) fn size(&self, var: u32) -> u64
        requires { var < 4 }
        ensures size { result ≡ (measures_in self.now).size var }
        ensures modest { result ≤ MOST_WEIGHT }
    {
        match self.vars.get(var as usize) {
            Some(span) => values_in(span),
            None => 1,
        }
    }
}

/// How many values a loop has.
fn values_in(span: &Span) -> u64
    requires { IsNear span.now }
    ensures size { result ≡ natural (span.now.hi -ℤ span.now.lo) }
    ensures modest { result ≤ MOST_WEIGHT }
{
    if span.lo < span.hi {
        (span.hi - span.lo) as u64
    } else {
        0
    }
}
