ghost use Rattle.std.specs.Prelude.{◌≡◌, ◌+◌, ◌≤◌, ◌∷◌, [], IfSome, IsTrue, length, map};
ghost use Rattle.std.specs.List.{All};
ghost use Rattle.node_prog.specs.Visiting.{GoesAlong, IsUnderWay, budget_in, left_in, term_course};
ghost use Rattle.plan_courses.specs.PlanCourses.{origin};
ghost use Rattle.split_exec.specs.Hits.{Grow, IsSound, OwnsWhole, hits_add};
ghost use Rattle.split_exec.specs.Passing.{AddsInterior, CanPass, HasSums, pass_budget};
ghost use Rattle.split_exec.specs.Runs.{OthersStay};
ghost use Rattle.split_exec.specs.Settings.{IsAtRank, scene_of, setting};
ghost use Rattle.walks.specs.Cost.{whole_budget};
ghost use Rattle.walks.specs.Courses.{walk};

use crate::delta::Delta;
use crate::hits::add_hit;
use crate::own::owns_whole;
use crate::runs::add_runs;
use crate::still::only_moving;
use access_joins::Cells;
use bern_base::{Checked, Items, Nest, Ref, Steps};
use node_prog::{RunLine, Visit};
use placement::Placement;
use std::sync::ledger::Ledger;
use term_model::PlannedTerm;

/// Adds the value of each term, at each of its interior points at a rank, to the sum of the point's target element.
///
/// It takes no memory. `stores` has one view per array, by its number, of the rank's part of it, and `places` one place per place
/// line; `delta` has one sum for each element of the target that the rank owns.
pub fn inner<V: Cells, P: Placement, L: Ledger>(
    job: &Checked,
    nest: &Nest,
    planned: &Items<PlannedTerm>,
    rank: u32,
    stores: &Items<V>,
    places: &Items<P>,
    delta: &mut Delta,
    steps: &mut Steps<L>,
)
    requires can { let s = setting P.triples P.ranks V.tree V.grid job.now places.now nest.now stores.now in
        CanPass s rank planned.now }
    requires sums { let s = setting P.triples P.ranks V.tree V.grid job.now places.now nest.now stores.now in
        HasSums s rank (length delta.old) }
    ensures sums { let s = setting P.triples P.ranks V.tree V.grid job.now places.now nest.now stores.now in
        AddsInterior s rank planned.now delta.old delta.new }
    ensures count { length delta.new ≡ length delta.old }
    ensures cost { let s = setting P.triples P.ranks V.tree V.grid job.now places.now nest.now stores.now in
        steps.new ≤ steps.old + pass_budget s rank planned.now }
{
    'terms: for at in 0..planned.len() {
        let term = planned.at(at);
        add_term(job, nest, term, rank, stores, places, delta, steps);
    }
    delta.small();
}

/// Adds the values of a term at its interior points.
fn add_term<V: Cells, P: Placement, L: Ledger>(
    job: &Checked,
    nest: &Nest,
    planned: &PlannedTerm,
    rank: u32,
    stores: &Items<V>,
    places: &Items<P>,
    delta: &mut Delta,
    steps: &mut Steps<L>,
)
    requires can { let s = setting P.triples P.ranks V.tree V.grid job.now places.now nest.now stores.now in
        CanPass s rank (planned.now ∷ []) }
    requires sums { let s = setting P.triples P.ranks V.tree V.grid job.now places.now nest.now stores.now in
        HasSums s rank (length delta.old) }
    ensures grows { let s = setting P.triples P.ranks V.tree V.grid job.now places.now nest.now stores.now in
        Grow delta.old delta.new (hits_add s rank planned.now.term (walk (term_course (scene_of s planned.now) rank) origin)) }
    ensures cost { let s = setting P.triples P.ranks V.tree V.grid job.now places.now nest.now stores.now in
        steps.new ≤ steps.old + whole_budget (term_course (scene_of s planned.now) rank) origin }
{
    let whole = owns_term(job, nest, planned, rank, places);
    let mut visit = Visit::new(job, nest, planned, rank, stores, places, steps);
    let Some((line, moving)) = line_of(job, nest, planned, rank, stores, places, &visit) else {
        add_hits(
            job, nest, planned, rank, whole, stores, places, &mut visit, delta, steps,
        );
        return;
    };
    add_runs(
        job, nest, planned, rank, whole, stores, places, moving, line, &mut visit, delta, steps,
    );
}

/// The line that a visit's runs go over, and the number of the dense reference that does not stay along it; None where the runs have no
/// line, or where several references do not stay.
fn line_of<V: Cells, P: Placement>(
    job: &Checked,
    nest: &Nest,
    planned: &PlannedTerm,
    rank: u32,
    stores: &Items<V>,
    places: &Items<P>,
    visit: &Visit,
) -> Option<(RunLine, usize)>
    requires can { let s = setting P.triples P.ranks V.tree V.grid job.now places.now nest.now stores.now in
        CanPass s rank (planned.now ∷ []) }
    requires visit { let s = setting P.triples P.ranks V.tree V.grid job.now places.now nest.now stores.now in
        IsUnderWay (scene_of s planned.now) visit.now }
    requires rank { visit.now.rank ≡ rank }
    ensures line { let s = setting P.triples P.ranks V.tree V.grid job.now places.now nest.now stores.now in
        IfSome result (λ (line, moving). GoesAlong (scene_of s planned.now) rank line) }
    ensures others { IfSome result (λ (line, moving). OthersStay planned.now.term.dense moving line.var) }
{
    match visit.line(job, nest, planned, stores, places) {
        Some(line) => match only_moving(&planned.term.dense, line.var) {
            Some(moving) => Some((line, moving)),
            None => None,
        },
        None => None,
    }
}

/// Whether it is known that a rank owns all of the arrays that a term reads and that the nest writes, where they are stored whole.
fn owns_term<P: Placement>(
    job: &Checked,
    nest: &Nest,
    planned: &PlannedTerm,
    rank: u32,
    places: &Items<P>,
) -> bool
    requires at { IsAtRank job.now (map P.triples places.now) (map P.ranks places.now) rank }
    ensures { IsTrue result → All (OwnsWhole job.now (map P.triples places.now) rank) (nest.now.target ∷ planned.now.term.dense) }
{
    if !owns_whole(job, places, rank, &nest.target) {
        return false;
    }
    'references: for at in 0..planned.term.dense.len() {
        if !owns_whole(job, places, rank, planned.term.dense.at(at)) {
            return false;
        }
    }
    true
}

/// Adds the hits that a visit has still to give, one by one.
fn add_hits<V: Cells, P: Placement, L: Ledger>(
    job: &Checked,
    nest: &Nest,
    planned: &PlannedTerm,
    rank: u32,
    whole: bool,
    stores: &Items<V>,
    places: &Items<P>,
    visit: &mut Visit,
    delta: &mut Delta,
    steps: &mut Steps<L>,
)
    requires can { let s = setting P.triples P.ranks V.tree V.grid job.now places.now nest.now stores.now in
        CanPass s rank (planned.now ∷ []) }
    requires sums { let s = setting P.triples P.ranks V.tree V.grid job.now places.now nest.now stores.now in
        HasSums s rank (length delta.old) }
    requires whole { IsTrue whole → All (OwnsWhole job.now (map P.triples places.now) rank) (nest.now.target ∷ planned.now.term.dense) }
    requires visit { let s = setting P.triples P.ranks V.tree V.grid job.now places.now nest.now stores.now in
        IsUnderWay (scene_of s planned.now) visit.old }
    requires sound { let s = setting P.triples P.ranks V.tree V.grid job.now places.now nest.now stores.now in
        All (IsSound s rank planned.now.term) (left_in (scene_of s planned.now) visit.old) }
    ensures grows { let s = setting P.triples P.ranks V.tree V.grid job.now places.now nest.now stores.now in
        Grow delta.old delta.new (hits_add s rank planned.now.term (left_in (scene_of s planned.now) visit.old)) }
    ensures cost { let s = setting P.triples P.ranks V.tree V.grid job.now places.now nest.now stores.now in
        steps.new ≤ steps.old + budget_in (scene_of s planned.now) visit.old }
{
    'hits: while visit.advance(job, nest, planned, stores, places, steps) {
        add_hit(
            job,
            nest,
            planned,
            rank,
            whole,
            stores,
            places,
            visit.hit(),
            delta,
        );
    }
}
