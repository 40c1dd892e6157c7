ghost use Rattle.std.specs.Prelude.{◌≡◌, ◌++◌, ◌+◌, ◌<◌, length, slice_get, OnOk};
ghost use Rattle.term_model.specs.Terms.{is_dense_in, references_of};

use bern_base::{Checked, Items, NoMemory, Ref};
use term_model::Term;

/// Whether all levels of the format of a reference's array are dense.
pub(crate) fn is_dense(job: &Checked, reference: &Ref) -> bool
    ensures { result ≡ is_dense_in job.now reference.now }
{
    let Some(array) = job.arrays.get(reference.array as usize) else {
        return false;
    };
    match job.formats.get(array.format as usize) {
        Some(format) => format.shape.is_all_dense(),
        None => false,
    }
}

pub(crate) fn copied(reference: &Ref) -> Ref
    ensures { result ≡ reference.now }
{
    Ref {
        array: reference.array,
        row: reference.row,
        col: reference.col,
    }
}

/// Appends a copy of each of these references.
pub(crate) fn append_copies(references: &mut Items<Ref>, more: &[Ref]) -> Result<(), NoMemory>
    ensures { OnOk result (references.new ≡ references.old ++ more.now) }
{
    for reference in more {
        references.push(copied(reference))?;
    }
    Ok(())
}

/// The reference of a term at a place: the dense ones stand first, and then the sparse ones.
pub fn reference_at(term: &Term, place: usize) -> &Ref
    requires { place < length term.now.dense + length term.now.sparse }
    ensures { slice_get (references_of term.now) place ≡ Some result.now }
{
    let dense = term.dense.len();
    if place < dense {
        term.dense.at(place)
    } else {
        term.sparse.at(place - dense)
    }
}
