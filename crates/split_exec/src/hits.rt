ghost use Rattle.std.specs.Prelude.{◌≡◌, ◌*◌, ◌%◌, ◌^◌, ◌∷◌, [], false, true, IfNone, IfSome, IsTrue, length, map};
ghost use Rattle.std.specs.List.{All};
ghost use Rattle.job_model.specs.Values.{product_of};
ghost use Rattle.pass_model.specs.Interior.{is_interior};
ghost use Rattle.split_exec.specs.Hits.{Grow, IsSound, OwnsWhole, dense_value, hit_adds, leaves_at};
ghost use Rattle.split_exec.specs.Passing.{CanPass, HasSums};
ghost use Rattle.split_exec.specs.Settings.{setting};

use crate::delta::Delta;
use crate::own::own_element;
use access_joins::Cells;
use bern_base::{Checked, Items, Nest, Point, Val};
use placement::Placement;
use term_model::PlannedTerm;
use walks::Hit;

/// The factor of a term times its dense elements at a hit; None where another rank owns one of these.
pub(crate) fn dense_product<V: Cells, P: Placement>(
    job: &Checked,
    nest: &Nest,
    planned: &PlannedTerm,
    rank: u32,
    whole: bool,
    stores: &Items<V>,
    places: &Items<P>,
    hit: &Hit,
) -> Option<Val>
    requires can { let s = setting P.triples P.ranks V.tree V.grid job.now places.now nest.now stores.now in
        CanPass s rank (planned.now ∷ []) }
    requires sound { let s = setting P.triples P.ranks V.tree V.grid job.now places.now nest.now stores.now in
        IsSound s rank planned.now.term hit.now }
    requires whole { IsTrue whole → All (OwnsWhole job.now (map P.triples places.now) rank) planned.now.term.dense }
    ensures interior { IfSome result (λ v. is_interior job.now (map P.triples places.now) rank planned.now.term hit.now.point ≡ true) }
    ensures value { let s = setting P.triples P.ranks V.tree V.grid job.now places.now nest.now stores.now in
        IfSome result (λ v. v % 2 ^ 64 ≡ dense_value s rank planned.now.term hit.now.point % 2 ^ 64) }
    ensures boundary { IfNone result (is_interior job.now (map P.triples places.now) rank planned.now.term hit.now.point ≡ false) }
{
    let point = Point::new(hit.point);
    let mut product = planned.term.factor;
    'references: for at in 0..planned.term.dense.len() {
        let reference = planned.term.dense.at(at);
        match own_element(job, places, rank, whole, reference, &point) {
            Some(element) => {
                let view = stores.at(reference.array as usize);
                product = product.mul(view.cell(element));
            }
            None => return None,
        }
    }
    Some(product)
}

/// A value times those of a term's sparse references at a hit.
pub(crate) fn leaf_product<V: Cells, P: Placement>(
    job: &Checked,
    nest: &Nest,
    planned: &PlannedTerm,
    rank: u32,
    stores: &Items<V>,
    places: &Items<P>,
    hit: &Hit,
    value: Val,
) -> Val
    requires can { let s = setting P.triples P.ranks V.tree V.grid job.now places.now nest.now stores.now in
        CanPass s rank (planned.now ∷ []) }
    requires sound { let s = setting P.triples P.ranks V.tree V.grid job.now places.now nest.now stores.now in
        IsSound s rank planned.now.term hit.now }
    ensures { let s = setting P.triples P.ranks V.tree V.grid job.now places.now nest.now stores.now in
        result % 2 ^ 64 ≡ value * product_of (leaves_at s planned.now.term hit.now) % 2 ^ 64 }
{
    let mut product = value;
    'references: for at in 0..planned.term.sparse.len() {
        let view = stores.at(planned.term.sparse.at(at).array as usize);
        product = product.mul(view.value(hit.leaves[at]));
    }
    product
}

/// Adds the value of a term at a hit to the sum of the hit's target, where the hit is an interior one.
pub(crate) fn add_hit<V: Cells, P: Placement>(
    job: &Checked,
    nest: &Nest,
    planned: &PlannedTerm,
    rank: u32,
    whole: bool,
    stores: &Items<V>,
    places: &Items<P>,
    hit: &Hit,
    delta: &mut Delta,
)
    requires can { let s = setting P.triples P.ranks V.tree V.grid job.now places.now nest.now stores.now in
        CanPass s rank (planned.now ∷ []) }
    requires sums { let s = setting P.triples P.ranks V.tree V.grid job.now places.now nest.now stores.now in
        HasSums s rank (length delta.old) }
    requires sound { let s = setting P.triples P.ranks V.tree V.grid job.now places.now nest.now stores.now in
        IsSound s rank planned.now.term hit.now }
    requires whole { IsTrue whole → All (OwnsWhole job.now (map P.triples places.now) rank) (nest.now.target ∷ planned.now.term.dense) }
    ensures { let s = setting P.triples P.ranks V.tree V.grid job.now places.now nest.now stores.now in
        Grow delta.old delta.new (λ k. hit_adds s rank planned.now.term k hit.now) }
{
    let Some(product) = dense_product(job, nest, planned, rank, whole, stores, places, hit) else {
        return;
    };
    let point = Point::new(hit.point);
    let Some(element) = own_element(job, places, rank, whole, &nest.target, &point) else {
        return;
    };
    let value = leaf_product(job, nest, planned, rank, stores, places, hit, product);
    delta.add(element, value);
}
