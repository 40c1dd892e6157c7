ghost use Rattle.std.specs.Prelude.{◌≡◌, ◌≢◌, ◌+◌, ◌-◌, ◌*◌, ◌%◌, ◌^◌, ◌∷◌, ◌≤◌, ◌<◌, [], ℕ, true, false, IfNone, IfSome, IsTrue, None, Some, length, map, pos, ◌-ℤ◌, slice_get};
ghost use Rattle.std.specs.List.{All};
ghost use Rattle.bern_base.specs.Affine.{IsInBox, IsWithin};
ghost use Rattle.format_model.specs.declared.limits.TheConstants.{MOST_INDEX};
ghost use Rattle.job_model.specs.Points.{spans_of};
ghost use Rattle.node_prog.specs.Visiting.{GoesAlong, IsUnderWay, budget_in, left_in};
ghost use Rattle.pass_model.specs.Interior.{is_interior, is_own};
ghost use Rattle.split_exec.specs.Hits.{Grow, IsNamed, IsSound, OwnsWhole, hit_adds, hits_add, spot};
ghost use Rattle.split_exec.specs.Passing.{CanPass, HasSums};
ghost use Rattle.split_exec.specs.Runs.{GrowWith, IsFirst, IsPieceAt, IsPieceOf, IsRunOf, IsStill, OthersStay, OwnsAt, at_or_one, cell_by, children_of, hit_at, hits_from};
ghost use Rattle.split_exec.specs.Settings.{IsAtRank, scene_of, setting, tree_in};
ghost use Rattle.plan_courses.specs.JobCourses.{ref_at};
ghost use Rattle.visits.specs.Lines.{IsDriven};
ghost use Rattle.visits.specs.Ways.{quotient};
ghost use Rattle.walks.specs.Courses.{Course, bind, driven, step_to};

use crate::delta::Delta;
use crate::own::own_element;
use crate::piece::Piece;
use crate::still::Still;
use access_joins::Cells;
use bern_base::{Checked, Items, Nest, Point, Steps, Val};
use node_prog::{RunLine, Visit};
use placement::Placement;
use std::sync::ledger::Ledger;
use term_model::PlannedTerm;
use visits::{OpenLoop, quotient_of};

/// A child of a line that binds its variable.
#[derive(Clone, Copy, Debug, PartialEq, Eq)]
struct Bound {
    place: u32,
    node: u32,
    value: i64,
}

/// The value of a run's variable at which its line has an index.
#[inline(always)]
fn solved(run: &OpenLoop, index: u64) -> Option<i64>
    requires base { IsWithin 140737488355327 run.now.base }
    requires slope { run.now.slope ≢ pos 0 }
    requires index { index ≤ MOST_INDEX }
    ensures { result ≡ quotient run.now.slope (pos index -ℤ run.now.base) }
{
    quotient_of(run.slope, index as i64 - run.base)
}

/// The value that an index of a run's line binds its variable to, where it is one of the loop's.
#[inline(always)]
fn bound_value(run: &OpenLoop, index: u64) -> Option<i64>
    requires base { IsWithin 140737488355327 run.now.base }
    requires slope { run.now.slope ≢ pos 0 }
    requires index { index ≤ MOST_INDEX }
    requires low { IsWithin 4194303 run.now.low }
    requires high { IsWithin 4194303 run.now.high }
    ensures near { IfSome result (IsWithin 4194303) }
    ensures some { IfSome result (λ x. (c : Course) (r level v node : ℕ) → IsDriven c r level v run.now →
        driven c r level v run.now.hit (index, node) ≡ Some (bind (step_to run.now.hit r node) v x)) }
    ensures none { IfNone result ((c : Course) (r level v node : ℕ) → IsDriven c r level v run.now →
        driven c r level v run.now.hit (index, node) ≡ None) }
{
    let Some(value) = solved(run, index) else {
        return None;
    };
    if value < run.low {
        return None;
    }
    if value >= run.high {
        return None;
    }
    Some(value)
}

/// The index and the node of the child at a place of a run's line.
#[inline(always)]
fn child_at<V: Cells, P: Placement>(
    job: &Checked,
    nest: &Nest,
    planned: &PlannedTerm,
    rank: u32,
    stores: &Items<V>,
    places: &Items<P>,
    line: RunLine,
    run: &OpenLoop,
    view: &V,
    place: u32,
) -> (u64, u32)
    requires run { let s = setting P.triples P.ranks V.tree V.grid job.now places.now nest.now stores.now in
        IsRunOf s planned.now rank line run.now }
    requires view { let s = setting P.triples P.ranks V.tree V.grid job.now places.now nest.now stores.now in
        V.tree view.now ≡ tree_in s (ref_at planned.now.term line.reference).array }
    requires order { run.now.place ≤ place }
    requires within { place < run.now.end }
    ensures child { let s = setting P.triples P.ranks V.tree V.grid job.now places.now nest.now stores.now in
        slice_get (children_of s planned.now rank line run.now) (place - run.now.from) ≡ Some result }
    ensures small { result.0 ≤ MOST_INDEX }
{
    view.entry(
        line.level,
        run.hit.leaves[line.reference as usize],
        run.from,
        place,
    )
}

/// The first child of a run's line that binds its variable.
fn first_bound<V: Cells, P: Placement, L: Ledger>(
    job: &Checked,
    nest: &Nest,
    planned: &PlannedTerm,
    rank: u32,
    stores: &Items<V>,
    places: &Items<P>,
    line: RunLine,
    run: &OpenLoop,
    view: &V,
    steps: &mut Steps<L>,
) -> Option<Bound>
    requires run { let s = setting P.triples P.ranks V.tree V.grid job.now places.now nest.now stores.now in
        IsRunOf s planned.now rank line run.now }
    requires view { let s = setting P.triples P.ranks V.tree V.grid job.now places.now nest.now stores.now in
        V.tree view.now ≡ tree_in s (ref_at planned.now.term line.reference).array }
    ensures some { let s = setting P.triples P.ranks V.tree V.grid job.now places.now nest.now stores.now in
        IfSome result (λ b. IsFirst s planned.now rank line run.now b.place b.node b.value) }
    ensures none { let s = setting P.triples P.ranks V.tree V.grid job.now places.now nest.now stores.now in
        IfNone result (hits_from s planned.now rank line run.now run.now.place ≡ []) }
    ensures some_cost { IfSome result (λ b. steps.new + run.now.place ≤ steps.old + b.place) }
    ensures none_cost { IfNone result (steps.new + run.now.place ≤ steps.old + run.now.end) }
{
    'places: for place in run.place..run.end {
        let (index, node) = child_at(
            job, nest, planned, rank, stores, places, line, run, view, place,
        );
        if let Some(value) = bound_value(run, index) {
            return Some(Bound { place, node, value });
        }
        steps.tick();
    }
    None
}

/// A value times the dense element of a term that does not stay along a line, at a point of it; None where another rank owns it.
#[inline(always)]
fn moving_product<V: Cells, P: Placement>(
    job: &Checked,
    nest: &Nest,
    planned: &PlannedTerm,
    rank: u32,
    whole: bool,
    stores: &Items<V>,
    places: &Items<P>,
    moving: usize,
    point: &Point,
    value: Val,
) -> Option<Val>
    requires can { let s = setting P.triples P.ranks V.tree V.grid job.now places.now nest.now stores.now in
        CanPass s rank (planned.now ∷ []) }
    requires inside { IsInBox (spans_of nest.now.vars) point.now }
    requires whole { IsTrue whole → All (OwnsWhole job.now (map P.triples places.now) rank) planned.now.term.dense }
    ensures owns { let s = setting P.triples P.ranks V.tree V.grid job.now places.now nest.now stores.now in
        IfSome result (λ v. OwnsAt s rank planned.now.term moving point.now) }
    ensures value { let s = setting P.triples P.ranks V.tree V.grid job.now places.now nest.now stores.now in
        let t = planned.now.term in
        IfSome result (λ v. v % 2 ^ 64 ≡ value * at_or_one moving (cell_by s rank t point.now) (length t.dense) % 2 ^ 64) }
    ensures lacks { let s = setting P.triples P.ranks V.tree V.grid job.now places.now nest.now stores.now in
        IfNone result (is_interior s.job s.places rank planned.now.term point.now ≡ false) }
{
    let Some(reference) = planned.term.dense.get(moving) else {
        return Some(value);
    };
    match own_element(job, places, rank, whole, reference, point) {
        Some(element) => Some(value.mul(stores.at(reference.array as usize).cell(element))),
        None => None,
    }
}

/// What the hit of a node of a run's line adds, and to which element; None where it is not an interior one.
#[inline(always)]
fn piece_of<V: Cells, P: Placement>(
    job: &Checked,
    nest: &Nest,
    planned: &PlannedTerm,
    rank: u32,
    whole: bool,
    stores: &Items<V>,
    places: &Items<P>,
    line: RunLine,
    run: &OpenLoop,
    view: &V,
    still: &Still,
    node: u32,
    x: i64,
) -> Option<Piece>
    requires can { let s = setting P.triples P.ranks V.tree V.grid job.now places.now nest.now stores.now in
        CanPass s rank (planned.now ∷ []) }
    requires run { let s = setting P.triples P.ranks V.tree V.grid job.now places.now nest.now stores.now in
        IsRunOf s planned.now rank line run.now }
    requires view { let s = setting P.triples P.ranks V.tree V.grid job.now places.now nest.now stores.now in
        V.tree view.now ≡ tree_in s (ref_at planned.now.term line.reference).array }
    requires sound { let s = setting P.triples P.ranks V.tree V.grid job.now places.now nest.now stores.now in
        IsSound s rank planned.now.term (hit_at line run.now node x) }
    requires whole { IsTrue whole → All (OwnsWhole job.now (map P.triples places.now) rank) (nest.now.target ∷ planned.now.term.dense) }
    requires still { let s = setting P.triples P.ranks V.tree V.grid job.now places.now nest.now stores.now in
        IsStill s rank planned.now.term line run.now still.now }
    ensures some { let s = setting P.triples P.ranks V.tree V.grid job.now places.now nest.now stores.now in
        IfSome result (IsPieceOf s rank planned.now.term (hit_at line run.now node x)) }
    ensures none { let s = setting P.triples P.ranks V.tree V.grid job.now places.now nest.now stores.now in
        IfNone result ((k : ℕ) → hit_adds s rank planned.now.term k (hit_at line run.now node x) ≡ 0) }
{
    let mut values = run.hit.point;
    values[line.var as usize] = x;
    let point = Point::new(values);
    let Some(value) = moving_product(
        job,
        nest,
        planned,
        rank,
        whole,
        stores,
        places,
        still.moving,
        &point,
        still.value,
    ) else {
        return None;
    };
    let Some(element) = target_at(job, nest, rank, whole, places, still, &point) else {
        return None;
    };
    Some(Piece {
        element,
        value: value.mul(view.value(node)),
    })
}

/// The element of the target at a point of a line; None where another rank owns it.
#[inline(always)]
fn target_at<P: Placement>(
    job: &Checked,
    nest: &Nest,
    rank: u32,
    whole: bool,
    places: &Items<P>,
    still: &Still,
    point: &Point,
) -> Option<u32>
    requires at { IsAtRank job.now (map P.triples places.now) (map P.ranks places.now) rank }
    requires named { IsNamed job.now nest.now.target point.now }
    requires whole { IsTrue whole → OwnsWhole job.now (map P.triples places.now) rank nest.now.target }
    requires still { still.now.goes ≡ false → still.now.start ≡ spot job.now (map P.triples places.now) rank point.now nest.now.target }
    ensures spot { IfSome result (λ l. l ≡ spot job.now (map P.triples places.now) rank point.now nest.now.target) }
    ensures none { IfNone result (is_own job.now (map P.triples places.now) rank point.now nest.now.target ≡ false) }
{
    if still.goes {
        own_element(job, places, rank, whole, &nest.target, point)
    } else {
        Some(still.start)
    }
}

/// What the child at a place of a run's line adds, and to which element; None where it adds nothing.
#[inline(always)]
fn piece_at<V: Cells, P: Placement>(
    job: &Checked,
    nest: &Nest,
    planned: &PlannedTerm,
    rank: u32,
    whole: bool,
    stores: &Items<V>,
    places: &Items<P>,
    line: RunLine,
    run: &OpenLoop,
    view: &V,
    still: &Still,
    place: u32,
) -> Option<Piece>
    requires can { let s = setting P.triples P.ranks V.tree V.grid job.now places.now nest.now stores.now in
        CanPass s rank (planned.now ∷ []) }
    requires run { let s = setting P.triples P.ranks V.tree V.grid job.now places.now nest.now stores.now in
        IsRunOf s planned.now rank line run.now }
    requires view { let s = setting P.triples P.ranks V.tree V.grid job.now places.now nest.now stores.now in
        V.tree view.now ≡ tree_in s (ref_at planned.now.term line.reference).array }
    requires whole { IsTrue whole → All (OwnsWhole job.now (map P.triples places.now) rank) (nest.now.target ∷ planned.now.term.dense) }
    requires still { let s = setting P.triples P.ranks V.tree V.grid job.now places.now nest.now stores.now in
        IsStill s rank planned.now.term line run.now still.now }
    requires order { run.now.place ≤ place }
    requires within { place < run.now.end }
    requires sound { let s = setting P.triples P.ranks V.tree V.grid job.now places.now nest.now stores.now in
        All (IsSound s rank planned.now.term) (hits_from s planned.now rank line run.now place) }
    ensures some { let s = setting P.triples P.ranks V.tree V.grid job.now places.now nest.now stores.now in
        IfSome result (IsPieceAt s planned.now rank line run.now place) }
    ensures none { let s = setting P.triples P.ranks V.tree V.grid job.now places.now nest.now stores.now in
        let p = planned.now in
        IfNone result ((k : ℕ) → hits_add s rank p.term (hits_from s p rank line run.now place) k
        ≡ hits_add s rank p.term (hits_from s p rank line run.now (place + 1)) k) }
{
    let (index, node) = child_at(
        job, nest, planned, rank, stores, places, line, run, view, place,
    );
    let Some(x) = bound_value(run, index) else {
        return None;
    };
    piece_of(
        job, nest, planned, rank, whole, stores, places, line, run, view, still, node, x,
    )
}

/// Adds the pieces of a run's line from a place on, but for the one that is held at the end.
fn add_places<V: Cells, P: Placement, L: Ledger>(
    job: &Checked,
    nest: &Nest,
    planned: &PlannedTerm,
    rank: u32,
    whole: bool,
    stores: &Items<V>,
    places: &Items<P>,
    line: RunLine,
    run: &OpenLoop,
    view: &V,
    still: &Still,
    first: u32,
    delta: &mut Delta,
    steps: &mut Steps<L>,
) -> Piece
    requires can { let s = setting P.triples P.ranks V.tree V.grid job.now places.now nest.now stores.now in
        CanPass s rank (planned.now ∷ []) }
    requires sums { let s = setting P.triples P.ranks V.tree V.grid job.now places.now nest.now stores.now in
        HasSums s rank (length delta.old) }
    requires run { let s = setting P.triples P.ranks V.tree V.grid job.now places.now nest.now stores.now in
        IsRunOf s planned.now rank line run.now }
    requires view { let s = setting P.triples P.ranks V.tree V.grid job.now places.now nest.now stores.now in
        V.tree view.now ≡ tree_in s (ref_at planned.now.term line.reference).array }
    requires whole { IsTrue whole → All (OwnsWhole job.now (map P.triples places.now) rank) (nest.now.target ∷ planned.now.term.dense) }
    requires still { let s = setting P.triples P.ranks V.tree V.grid job.now places.now nest.now stores.now in
        IsStill s rank planned.now.term line run.now still.now }
    requires start { still.now.start < length delta.old }
    requires order { run.now.place ≤ first }
    requires within { first ≤ run.now.end }
    requires sound { let s = setting P.triples P.ranks V.tree V.grid job.now places.now nest.now stores.now in
        All (IsSound s rank planned.now.term) (hits_from s planned.now rank line run.now first) }
    ensures grows { let s = setting P.triples P.ranks V.tree V.grid job.now places.now nest.now stores.now in
        GrowWith delta.old (record { element = still.now.start; value = 0 }) delta.new result
        (hits_add s rank planned.now.term (hits_from s planned.now rank line run.now first)) }
    ensures cost { steps.new + first ≤ steps.old + run.now.end }
{
    let mut held = Piece {
        element: still.start,
        value: Val::new(0),
    };
    'places: for place in first..run.end {
        steps.tick();
        let Some(piece) = piece_at(
            job, nest, planned, rank, whole, stores, places, line, run, view, still, place,
        ) else {
            continue 'places;
        };
        held = held.then(piece, delta);
    }
    held
}

/// Adds the values of a term at the interior hits of a run.
fn add_run<V: Cells, P: Placement, L: Ledger>(
    job: &Checked,
    nest: &Nest,
    planned: &PlannedTerm,
    rank: u32,
    whole: bool,
    stores: &Items<V>,
    places: &Items<P>,
    moving: usize,
    line: RunLine,
    run: &OpenLoop,
    delta: &mut Delta,
    steps: &mut Steps<L>,
)
    requires can { let s = setting P.triples P.ranks V.tree V.grid job.now places.now nest.now stores.now in
        CanPass s rank (planned.now ∷ []) }
    requires sums { let s = setting P.triples P.ranks V.tree V.grid job.now places.now nest.now stores.now in
        HasSums s rank (length delta.old) }
    requires run { let s = setting P.triples P.ranks V.tree V.grid job.now places.now nest.now stores.now in
        IsRunOf s planned.now rank line run.now }
    requires whole { IsTrue whole → All (OwnsWhole job.now (map P.triples places.now) rank) (nest.now.target ∷ planned.now.term.dense) }
    requires others { OthersStay planned.now.term.dense moving line.var }
    ensures grows { let s = setting P.triples P.ranks V.tree V.grid job.now places.now nest.now stores.now in
        Grow delta.old delta.new (hits_add s rank planned.now.term (hits_from s planned.now rank line run.now run.now.place)) }
    ensures cost { steps.new + run.now.place ≤ steps.old + run.now.end }
{
    let view = stores.at(planned.term.sparse.at(line.reference as usize).array as usize);
    let Some(first) = first_bound(
        job, nest, planned, rank, stores, places, line, run, view, steps,
    ) else {
        return;
    };
    let Some(still) = Still::at(
        job,
        nest,
        planned,
        rank,
        whole,
        stores,
        places,
        moving,
        line,
        run,
        first.node,
        first.value,
    ) else {
        return;
    };
    let held = add_places(
        job,
        nest,
        planned,
        rank,
        whole,
        stores,
        places,
        line,
        run,
        view,
        &still,
        first.place,
        delta,
        steps,
    );
    delta.add(held.element, held.value);
}

/// Adds the values of a term at the interior hits that a visit has still to give, by its runs.
pub(crate) fn add_runs<V: Cells, P: Placement, L: Ledger>(
    job: &Checked,
    nest: &Nest,
    planned: &PlannedTerm,
    rank: u32,
    whole: bool,
    stores: &Items<V>,
    places: &Items<P>,
    moving: usize,
    line: RunLine,
    visit: &mut Visit,
    delta: &mut Delta,
    steps: &mut Steps<L>,
)
    requires can { let s = setting P.triples P.ranks V.tree V.grid job.now places.now nest.now stores.now in
        CanPass s rank (planned.now ∷ []) }
    requires sums { let s = setting P.triples P.ranks V.tree V.grid job.now places.now nest.now stores.now in
        HasSums s rank (length delta.old) }
    requires whole { IsTrue whole → All (OwnsWhole job.now (map P.triples places.now) rank) (nest.now.target ∷ planned.now.term.dense) }
    requires visit { let s = setting P.triples P.ranks V.tree V.grid job.now places.now nest.now stores.now in
        IsUnderWay (scene_of s planned.now) visit.old }
    requires rank { visit.old.rank ≡ rank }
    requires line { let s = setting P.triples P.ranks V.tree V.grid job.now places.now nest.now stores.now in
        GoesAlong (scene_of s planned.now) rank line }
    requires others { OthersStay planned.now.term.dense moving line.var }
    requires sound { let s = setting P.triples P.ranks V.tree V.grid job.now places.now nest.now stores.now in
        All (IsSound s rank planned.now.term) (left_in (scene_of s planned.now) visit.old) }
    ensures grows { let s = setting P.triples P.ranks V.tree V.grid job.now places.now nest.now stores.now in
        Grow delta.old delta.new (hits_add s rank planned.now.term (left_in (scene_of s planned.now) visit.old)) }
    ensures cost { let s = setting P.triples P.ranks V.tree V.grid job.now places.now nest.now stores.now in
        steps.new ≤ steps.old + budget_in (scene_of s planned.now) visit.old }
{
    'runs: while visit.advance_run(job, nest, planned, stores, places, steps) {
        add_run(
            job,
            nest,
            planned,
            rank,
            whole,
            stores,
            places,
            moving,
            line,
            visit.run(),
            delta,
            steps,
        );
    }
}
