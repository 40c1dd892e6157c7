ghost use Rattle.std.specs.Prelude.{◌≡◌, ◌<◌, length, IfOk};
ghost use Rattle.std.specs.List.{All};
ghost use Rattle.bern_base.specs.Matrix.{IsMatrix};
ghost use Rattle.rank_product.specs.Runs.{parts_at};

use bern_base::{Axis, Items, Matrix, NoMemory};
use placement::{Cyclic, Part, Placement, split};
use std::alloc::Global;

/// The part that a rank has of each array, by their rows.
///
/// It takes time linear in the entries of all arrays, and memory for those of the rank.
pub(crate) fn parts_of(
    alloc: Global,
    matrices: &Items<Matrix>,
    place: &Cyclic,
    rank: u32,
) -> Result<Items<Part>, NoMemory>
    requires matrices { All IsMatrix matrices.now }
    requires rows { All (λ m. m.rows ≡ length (⟦<Cyclic as Placement>⟧.triples place.now)) matrices.now }
    requires rank { rank < ⟦<Cyclic as Placement>⟧.ranks place.now }
    ensures { IfOk result (λ parts. parts ≡ parts_at (⟦<Cyclic as Placement>⟧.triples place.now) rank matrices.now) }
{
    let mut parts = Vec::with_capacity(alloc, matrices.len())?;
    for matrix in matrices.as_slice() {
        parts.push(split(alloc, matrix, place, Axis::Row, rank)?)?;
    }
    Ok(Items::from_vec(parts))
}
