ghost use Rattle.std.specs.Prelude.{◌≡◌, ◌<◌, length, map, replicate, IfOk};
ghost use Rattle.std.specs.List.{All};
ghost use Rattle.bern_base.specs.Matrix.{IsInside};
ghost use Rattle.bern_base.specs.Matrix.{matrix_values};
ghost use Rattle.placement.specs.Placement.{owned_of};
ghost use Rattle.rank_node.specs.Sums.{HaveGrown, inner_term, outer_term, sums_of};

use bern_base::{Entry, Items, Matrix, NoMemory, Val};
use placement::Placement;
use std::alloc::Global;

/// So many values 0.
pub(crate) fn zeros(alloc: Global, count: usize) -> Result<Vec<Val>, NoMemory>
    ensures { IfOk result (λ zeros. zeros.items ≡ replicate count 0) }
{
    let zeros = vec![in alloc; Val::new(0); count]?;
    Ok(zeros)
}

/// The values of all elements of a matrix, by element number; 0 where there is no entry.
pub fn dense_values(alloc: Global, matrix: &Matrix) -> Result<Items<Val>, NoMemory>
    requires { All (IsInside matrix.now.rows matrix.now.cols) matrix.now.entries }
    ensures { IfOk result (λ values. values ≡ matrix_values matrix.now.rows matrix.now.cols matrix.now.entries) }
{
    let count = matrix.rows as usize * matrix.cols as usize;
    let mut values = zeros(alloc, count)?;
    for entry in matrix.entries.as_slice() {
        let at = entry.row as usize * matrix.cols as usize + entry.col as usize;
        values[at] = values[at].add(entry.value);
    }
    Ok(Items::from_vec(values))
}

/// Adds to each sum its products at the points that read an element of the rank itself.
pub(crate) fn add_inner<P: Placement>(
    entries: &[Entry],
    place: &P,
    rank: u32,
    own: &[Val],
    sums: &mut Vec<Val>,
)
    requires rows { All (λ e. e.row < length sums.old.items) entries.now }
    requires cols { All (λ e. e.col < length (P.triples place.now)) entries.now }
    requires own { length own.now ≡ owned_of (P.triples place.now) rank }
    ensures { HaveGrown (inner_term (P.triples place.now) rank own.now) entries.now sums.old.items sums.new.items }
{
    for entry in entries {
        if place.owner(entry.col) == rank {
            let at = entry.row as usize;
            let value = own[place.local(entry.col) as usize];
            sums[at] = sums[at].add(entry.value.mul(value));
        }
    }
}

/// Adds to each sum its products at the other points, with the values of the elements that they read.
pub(crate) fn add_outer<P: Placement>(
    entries: &[Entry],
    place: &P,
    rank: u32,
    known: &[Val],
    sums: &mut Vec<Val>,
)
    requires rows { All (λ e. e.row < length sums.old.items) entries.now }
    requires cols { All (λ e. e.col < length (P.triples place.now)) entries.now }
    requires known { length known.now ≡ length (P.triples place.now) }
    ensures { HaveGrown (outer_term (P.triples place.now) rank known.now) entries.now sums.old.items sums.new.items }
{
    for entry in entries {
        if place.owner(entry.col) != rank {
            let at = entry.row as usize;
            let value = known[entry.col as usize];
            sums[at] = sums[at].add(entry.value.mul(value));
        }
    }
}

/// The values, each grown by the sum at its place.
pub(crate) fn applied(alloc: Global, values: &[Val], sums: &[Val]) -> Result<Items<Val>, NoMemory>
    requires { length sums.now ≡ length values.now }
    ensures { IfOk result (λ new. new ≡ sums_of values.now sums.now) }
{
    let mut new = Vec::with_capacity(alloc, values.len())?;
    for at in 0..values.len() {
        new.push(values[at].add(sums[at]))?;
    }
    Ok(Items::from_vec(new))
}
