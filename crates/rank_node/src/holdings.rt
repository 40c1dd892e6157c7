ghost use Rattle.std.specs.Prelude.{◌≡◌, ◌<◌, length, slice_get, Some, true, IfOk};
ghost use Rattle.std.specs.List.{All};
ghost use Rattle.bern_base.specs.Matrix.{IsInside, matrix_values};
ghost use Rattle.placement.specs.declared.part.Part.{Part};
ghost use Rattle.rank_node.specs.Holdings.{AreHeld, AreInside};

use crate::job::is_whole;
use crate::sums::dense_values;
use bern_base::{Checked, Entry, Items, Matrix, NoMemory, Val};
use placement::Part;
use std::alloc::Global;

/// The values of each array that is stored whole, by the rank's own numbers of the elements; none for the others.
pub(crate) fn all_values(
    alloc: Global,
    job: &Checked,
    parts: &[Part],
) -> Result<Items<Items<Val>>, NoMemory>
    requires { AreInside job.now parts.now }
    ensures { IfOk result (λ values. AreHeld job.now parts.now (length parts.now) values) }
{
    let mut values = Vec::with_capacity(alloc, parts.len())?;
    for at in 0..parts.len() {
        let held = held_values(alloc, is_whole(job, at), &parts[at].matrix)?;
        values.push(held)?;
    }
    Ok(Items::from_vec(values))
}

/// The values of the part of an array, if it is stored whole.
fn held_values(alloc: Global, whole: bool, matrix: &Matrix) -> Result<Items<Val>, NoMemory>
    requires { whole ≡ true → All (IsInside matrix.now.rows matrix.now.cols) matrix.now.entries }
    ensures { IfOk result (λ values. whole ≡ true → values ≡ matrix_values matrix.now.rows matrix.now.cols matrix.now.entries) }
{
    if whole {
        dense_values(alloc, matrix)
    } else {
        Ok(Items::new(alloc))
    }
}

/// The entries of the part with this number.
pub(crate) fn stored_entries(parts: Items<Part>, stored: u32) -> Items<Entry>
    requires { stored < length parts }
    ensures { (part : Part) → slice_get parts stored ≡ Some part → result ≡ part.matrix.entries }
{
    let mut parts = parts.into_vec();
    let part = parts.swap_remove(stored as usize);
    part.matrix.entries
}
