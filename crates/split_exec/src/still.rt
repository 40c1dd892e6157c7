ghost use Rattle.std.specs.Prelude.{◌≡◌, ◌*◌, ◌%◌, ◌^◌, ◌∷◌, ◌<◌, ◌≤◌, [], ℕ, ℤ, true, false, IfNone, IfSome, IsTrue, length, map, slice_get, Some};
ghost use Rattle.std.specs.List.{All};
ghost use Rattle.bern_base.specs.declared.job.Ref.{Ref as RefValue};
ghost use Rattle.split_exec.specs.Hits.{IsSound, OwnsWhole, leaf_at};
ghost use Rattle.split_exec.specs.Passing.{CanPass};
ghost use Rattle.split_exec.specs.Runs.{IsRunOf, IsStill, IsSum, LacksOne, OthersStay, OwnsOthers, cell_by, hit_at, product_but, stays};
ghost use Rattle.split_exec.specs.Settings.{setting};

use crate::own::own_element;
use access_joins::Cells;
use bern_base::{Checked, Items, Nest, Point, Ref, Val};
use loop_query::has_factor;
use node_prog::RunLine;
use placement::Placement;
use term_model::PlannedTerm;
use visits::OpenLoop;
use walks::Hit;

/// What stays along a line of a term's last variable, and is taken out of the loop over it.
#[derive(Clone, Copy, Debug, PartialEq, Eq)]
pub(crate) struct Still {
    /// The number of the one dense reference that does not stay; past the last where all stay.
    pub moving: usize,
    /// The product of the factor, the other dense elements, and the other leaves.
    pub value: Val,
    /// The element of the target at the line's first hit, and whether it is another one at others.
    pub start: u32,
    pub goes: bool,
}

/// Whether a reference names the same element for all values of a variable.
pub(crate) fn stays(reference: &Ref, var: u32) -> bool
    requires { var < 4 }
    ensures { result ≡ stays var reference.now }
{
    if has_factor(&reference.row, var) {
        return false;
    }
    !has_factor(&reference.col, var)
}

/// The first of these references, from a number on, that does not stay; their count where all do.
fn next_moving(references: &Items<Ref>, var: u32, from: usize) -> usize
    requires var { var < 4 }
    requires from { from ≤ length references.now }
    ensures stay { (k : ℕ) (ref : RefValue) → slice_get references.now k ≡ Some ref → from ≤ k → k < result → stays var ref ≡ true }
    ensures from { from ≤ result }
    ensures within { result ≤ length references.now }
{
    'references: for at in from..references.len() {
        if !stays(references.at(at), var) {
            return at;
        }
    }
    references.len()
}

/// The number of the one reference that does not stay; their count where all do, and None where there are several.
pub(crate) fn only_moving(references: &Items<Ref>, var: u32) -> Option<usize>
    requires { var < 4 }
    ensures { IfSome result (λ moving. OthersStay references.now moving var) }
{
    let first = next_moving(references, var, 0);
    if first == references.len() {
        return Some(first);
    }
    if next_moving(references, var, first + 1) < references.len() {
        return None;
    }
    Some(first)
}

/// The factor of a term times its dense elements at a hit, without one of these; None where another rank owns one of the others.
fn dense_but<V: Cells, P: Placement>(
    job: &Checked,
    nest: &Nest,
    planned: &PlannedTerm,
    rank: u32,
    whole: bool,
    stores: &Items<V>,
    places: &Items<P>,
    moving: usize,
    hit: &Hit,
) -> Option<Val>
    requires can { let s = setting P.triples P.ranks V.tree V.grid job.now places.now nest.now stores.now in
        CanPass s rank (planned.now ∷ []) }
    requires sound { let s = setting P.triples P.ranks V.tree V.grid job.now places.now nest.now stores.now in
        IsSound s rank planned.now.term hit.now }
    requires whole { IsTrue whole → All (OwnsWhole job.now (map P.triples places.now) rank) planned.now.term.dense }
    ensures owns { let s = setting P.triples P.ranks V.tree V.grid job.now places.now nest.now stores.now in
        IfSome result (λ v. OwnsOthers s rank planned.now.term moving hit.now.point) }
    ensures value { let s = setting P.triples P.ranks V.tree V.grid job.now places.now nest.now stores.now in
        let t = planned.now.term in
        IfSome result (λ v. v % 2 ^ 64 ≡ t.factor * product_but moving (cell_by s rank t hit.now.point) (length t.dense) % 2 ^ 64) }
    ensures lacks { let s = setting P.triples P.ranks V.tree V.grid job.now places.now nest.now stores.now in
        IfNone result (LacksOne s rank planned.now.term moving hit.now.point) }
{
    let point = Point::new(hit.point);
    let mut product = planned.term.factor;
    'references: for at in 0..planned.term.dense.len() {
        if at == moving {
            continue 'references;
        }
        let reference = planned.term.dense.at(at);
        match own_element(job, places, rank, whole, reference, &point) {
            Some(element) => {
                let view = stores.at(reference.array as usize);
                product = product.mul(view.cell(element));
            }
            None => return None,
        }
    }
    Some(product)
}

/// A value times those of a term's sparse references at a hit, without one of these.
fn leaves_but<V: Cells, P: Placement>(
    job: &Checked,
    nest: &Nest,
    planned: &PlannedTerm,
    rank: u32,
    stores: &Items<V>,
    places: &Items<P>,
    reference: u32,
    hit: &Hit,
    value: Val,
) -> Val
    requires can { let s = setting P.triples P.ranks V.tree V.grid job.now places.now nest.now stores.now in
        CanPass s rank (planned.now ∷ []) }
    requires sound { let s = setting P.triples P.ranks V.tree V.grid job.now places.now nest.now stores.now in
        IsSound s rank planned.now.term hit.now }
    ensures { let s = setting P.triples P.ranks V.tree V.grid job.now places.now nest.now stores.now in
        let t = planned.now.term in
        result % 2 ^ 64 ≡ value * product_but reference (leaf_at s t hit.now) (length t.sparse) % 2 ^ 64 }
{
    let mut product = value;
    'references: for at in 0..planned.term.sparse.len() {
        if at == reference as usize {
            continue 'references;
        }
        let view = stores.at(planned.term.sparse.at(at).array as usize);
        product = product.mul(view.value(hit.leaves[at]));
    }
    product
}

impl Still {
    /// What stays along a line, by its first hit; None where another rank owns a dense element that stays.
    pub(crate) fn at<V: Cells, P: Placement>(
        job: &Checked,
        nest: &Nest,
        planned: &PlannedTerm,
        rank: u32,
        whole: bool,
        stores: &Items<V>,
        places: &Items<P>,
        moving: usize,
        line: RunLine,
        run: &OpenLoop,
        node: u32,
        x: i64,
    ) -> Option<Still>
        requires can { let s = setting P.triples P.ranks V.tree V.grid job.now places.now nest.now stores.now in
            CanPass s rank (planned.now ∷ []) }
        requires run { let s = setting P.triples P.ranks V.tree V.grid job.now places.now nest.now stores.now in
            IsRunOf s planned.now rank line run.now }
        requires sound { let s = setting P.triples P.ranks V.tree V.grid job.now places.now nest.now stores.now in
            IsSound s rank planned.now.term (hit_at line run.now node x) }
        requires whole { IsTrue whole → All (OwnsWhole job.now (map P.triples places.now) rank) (nest.now.target ∷ planned.now.term.dense) }
        requires others { OthersStay planned.now.term.dense moving line.var }
        ensures still { let s = setting P.triples P.ranks V.tree V.grid job.now places.now nest.now stores.now in
            IfSome result (IsStill s rank planned.now.term line run.now) }
        ensures start { let s = setting P.triples P.ranks V.tree V.grid job.now places.now nest.now stores.now in
            IfSome result (λ still. IsSum s rank still.start) }
        ensures moving { IfSome result (λ still. still.moving ≡ moving) }
        ensures lacks { let s = setting P.triples P.ranks V.tree V.grid job.now places.now nest.now stores.now in
            IfNone result (LacksOne s rank planned.now.term moving (hit_at line run.now node x).point) }
    {
        let mut hit = run.hit;
        hit.point[line.var as usize] = x;
        hit.leaves[line.reference as usize] = node;
        let Some(product) = dense_but(
            job, nest, planned, rank, whole, stores, places, moving, &hit,
        ) else {
            return None;
        };
        let point = Point::new(hit.point);
        let Some(start) = own_element(job, places, rank, whole, &nest.target, &point) else {
            return None;
        };
        Some(Still {
            moving,
            value: leaves_but(
                job,
                nest,
                planned,
                rank,
                stores,
                places,
                line.reference,
                &hit,
                product,
            ),
            start,
            goes: !stays(&nest.target, line.var),
        })
    }
}
