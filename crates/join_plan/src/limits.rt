ghost use Rattle.std.specs.Prelude.{◌≡◌, ◌≤◌, ℕ, true, length};
ghost use Rattle.std.specs.List.{All};
ghost use Rattle.job_model.specs.Runnable.{IsNear};
ghost use Rattle.join_plan.specs.Costs.{stats_at};
ghost use Rattle.join_plan.specs.Tasks.{AreSlight, CanSchedule, IsModest};

use bern_base::{
    Items, LevelStat, MOST_BOUND, MOST_REFERENCES, MOST_VARIABLES, MOST_WEIGHT, Nest, Ref, Span,
    Stats,
};
use loop_query::Term;

/// Indices that a step is offered below one binding: of two levels, twice `MOST_WEIGHT`.
pub(crate) const MOST_OFFERS: u64 = 33_554_432;

/// What the searches after a step weigh together: those of two levels of four references, eight times `MOST_WEIGHT`.
pub(crate) const MOST_SEARCHED: u64 = 134_217_728;

/// What the first steps cost, for each binding that can come to the next one: sixteen times `MOST_WEIGHT`.
pub(crate) const MOST_SPENT: u64 = 268_435_456;

/// Whether a loop's bounds are within their limit.
fn is_near(span: &Span) -> bool
    ensures { result ≡ true → IsNear span.now }
{
    let most = i64::from(MOST_BOUND);
    if span.lo < -most || span.lo > most {
        return false;
    }
    if span.hi < -most {
        return false;
    }
    span.hi <= most
}

fn are_near(spans: &[Span]) -> bool
    ensures { result ≡ true → All IsNear spans.now }
{
    for span in spans {
        if !is_near(span) {
            return false;
        }
    }
    true
}

fn is_modest(stat: &LevelStat) -> bool
    ensures { result ≡ true → IsModest stat.now }
{
    stat.estimate <= MOST_WEIGHT && stat.weight <= MOST_WEIGHT
}

fn are_modest(stats: &[LevelStat]) -> bool
    ensures { result ≡ true → All IsModest stats.now }
{
    for stat in stats {
        if !is_modest(stat) {
            return false;
        }
    }
    true
}

fn are_slight(stats: &[LevelStat]) -> bool
    ensures { result ≡ true → AreSlight stats.now }
{
    if stats.len() > 2 {
        return false;
    }
    are_modest(stats)
}

/// Whether the levels that were measured of an array are few and modest.
fn is_slight(stats: &Items<Stats>, array: u32) -> bool
    ensures { result ≡ true → AreSlight (stats_at stats.now array) }
{
    match stats.get(array as usize) {
        Some(found) => are_slight(found.levels.as_slice()),
        None => true,
    }
}

fn are_all_slight(references: &[Ref], stats: &Items<Stats>) -> bool
    ensures { result ≡ true → All (λ ref. AreSlight (stats_at stats.now ref.array)) references.now }
{
    for reference in references {
        if !is_slight(stats, reference.array) {
            return false;
        }
    }
    true
}

/// Whether a term of this nest is within the limits of `schedule`. Those of an accepted job are, where what was measured of
/// its arrays is of matrices within the limits of files.
pub fn can_schedule(nest: &Nest, term: &Term, stats: &Items<Stats>) -> bool
    ensures { result ≡ true → CanSchedule (record { vars = nest.now.vars; term = term.now; stats = stats.now }) }
{
    if nest.vars.len() > MOST_VARIABLES || term.sparse.len() > MOST_REFERENCES {
        return false;
    }
    if !are_near(nest.vars.as_slice()) {
        return false;
    }
    are_all_slight(term.sparse.as_slice(), stats)
}
