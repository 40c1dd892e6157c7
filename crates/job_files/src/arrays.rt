ghost use Rattle.std.specs.Prelude.{◌≡◌, ◌≤◌, filter, length, IfOk, IfSome};
ghost use Rattle.bern_base.specs.declared.limits.TheConstants.{MOST_WEIGHT};
ghost use Rattle.std.specs.List.{All, AllZip};
ghost use Rattle.bern_ports.specs.Frames.{KeepsShelf, shelf_state};
ghost use Rattle.job_files.specs.Answers.{HasFaultCause};
ghost use Rattle.job_files.specs.FileOrder.{HasRoom, IsArrayIn, IsForUse, Loads};
ghost use Rattle.job_files.specs.PlaceLists.{AreAmong, HasListsIn, IsLineFrom, IsPlaceList};
ghost use Rattle.job_files.specs.RowOrders.{HasOrderUse, IsRowOrder, matrices_in};
ghost use Rattle.job_files.specs.Uses.{array_matrices, has_file, spread, unplaced, uses_of, with_places};
ghost use Rattle.job_files.specs.Weight.{weight_of};

use crate::lists::place_lists;
use crate::load_error::{LoadError, refusal};
use crate::mentions::uses_of;
use crate::orders::row_orders;
use crate::serving::load_uses;
use crate::uses::Use;
use crate::weights::weight_within;
use bern_base::{ArrayDecl, Checked, Items, Matrix, NoMemory, PlaceDecl, Rule, Text};
use bern_ports::Shelf;
use placement::Listed;
use std::alloc::Global;

/// What the arrays of a job begin with, by their numbers.
#[derive(Debug, Drop)]
pub struct ArrayFiles {
    /// A matrix for each array, of the array's rows and columns: zeros, or what its file has.
    pub matrices: Items<Matrix>,
    /// The order of its rows for each array whose format names a file for it: at each place a row, from 0. It has no row for the
    /// others.
    pub orders: Items<Items<u32>>,
    /// For each place line that names a file the places that the file lists, and none for the others.
    pub lists: Items<Option<Listed>>,
}

/// What the arrays of the job begin with.
///
/// F7 without files, which is told of the job file `name`, stands before the files. Then each file is begun once, in the
/// order of first mention, where a listed place mentions its file, and an array the file that its permute format names right
/// before its own: first the file's own rules (M1 to M12), then those of its uses (F1 and F2 for an array, F1 and F3 for an
/// order of rows, F6, F4 and F5 for a place), then the weight with it (F7).
pub fn load_arrays<F: Shelf>(
    alloc: Global,
    name: &Text,
    job: &Checked,
    ranks: u32,
    shelf: &mut F,
) -> Result<ArrayFiles, LoadError>
    ensures keeps { KeepsShelf (shelf_state F.Shelf shelf.old) (shelf_state F.Shelf shelf.new) }
    ensures cause { HasFaultCause (shelf_state F.Shelf shelf.old) (shelf_state F.Shelf shelf.new) result }
    ensures matrices { IfOk result (λ files. AllZip (IsArrayIn job.now.formats) job.now.arrays files.matrices) }
    ensures orders { IfOk result (λ files. AllZip (IsRowOrder job.now.formats) job.now.arrays files.orders) }
    ensures light { IfOk result (λ files. weight_of job.now ranks ≤ MOST_WEIGHT) }
    ensures room { IfOk result (λ files. All (HasRoom (weight_of job.now ranks)) files.matrices) }
    ensures lists { AreAmong job.now → IfOk result (λ files. AllZip (IsPlaceList job.now.extents ranks) job.now.places files.lists) }
    ensures told { IfSome (F.files shelf.old) (λ fs. Loads fs name.now ranks job.now (matrices_in result)) }
    ensures listed { AreAmong job.now → IfSome (F.files shelf.old) (λ fs. HasListsIn fs ranks job.now result) }
{
    load_with(alloc, name, job, job.places.as_slice(), ranks, shelf)
}

/// A matrix for each array of the job, as a plan needs them: on one rank, and no place mentions a file. Which rank has an
/// index makes no plan another one, so the files of listed places are neither read nor weighed.
pub fn load_arrays_to_plan<F: Shelf>(
    alloc: Global,
    name: &Text,
    job: &Checked,
    shelf: &mut F,
) -> Result<Items<Matrix>, LoadError>
    ensures keeps { KeepsShelf (shelf_state F.Shelf shelf.old) (shelf_state F.Shelf shelf.new) }
    ensures cause { HasFaultCause (shelf_state F.Shelf shelf.old) (shelf_state F.Shelf shelf.new) result }
    ensures matrices { IfOk result (λ ms. AllZip (IsArrayIn job.now.formats) job.now.arrays ms) }
    ensures told { IfSome (F.files shelf.old) (λ fs. Loads fs name.now 1 (unplaced job.now) result) }
{
    match load_with(alloc, name, job, &[], 1, shelf) {
        Ok(files) => Ok(files.matrices),
        Err(fault) => Err(fault),
    }
}

/// What the arrays of the job begin with, where of its places these mention files.
fn load_with<F: Shelf>(
    alloc: Global,
    name: &Text,
    job: &Checked,
    places: &[PlaceDecl],
    ranks: u32,
    shelf: &mut F,
) -> Result<ArrayFiles, LoadError>
    ensures keeps { KeepsShelf (shelf_state F.Shelf shelf.old) (shelf_state F.Shelf shelf.new) }
    ensures cause { HasFaultCause (shelf_state F.Shelf shelf.old) (shelf_state F.Shelf shelf.new) result }
    ensures matrices { IfOk result (λ files. AllZip (IsArrayIn job.now.formats) job.now.arrays files.matrices) }
    ensures orders { IfOk result (λ files. AllZip (IsRowOrder job.now.formats) job.now.arrays files.orders) }
    ensures light { IfOk result (λ files. weight_of job.now ranks ≤ MOST_WEIGHT) }
    ensures room { IfOk result (λ files. All (HasRoom (weight_of job.now ranks)) files.matrices) }
    ensures lists { AreAmong (with_places places.now job.now) →
        IfOk result (λ files. AllZip (IsPlaceList job.now.extents ranks) places.now files.lists) }
    ensures told { IfSome (F.files shelf.old) (λ fs. Loads fs name.now ranks (with_places places.now job.now) (matrices_in result)) }
    ensures listed { AreAmong (with_places places.now job.now) →
        IfSome (F.files shelf.old) (λ fs. HasListsIn fs ranks (with_places places.now job.now) result) }
{
    let Some(weight) = weight_within(job, ranks) else {
        return Err(refusal(alloc, name.as_bytes(), 0, Rule::F7));
    };
    let Ok(uses) = uses_of(alloc, job, places, ranks) else {
        return Err(LoadError::NoMemory);
    };
    match load_uses(alloc, &uses, weight, shelf) {
        Ok(loaded) => match array_files(alloc, job, places, ranks, &uses, loaded) {
            Ok(files) => Ok(files),
            Err(_) => Err(LoadError::NoMemory),
        },
        Err(fault) => Err(fault),
    }
}

/// What the arrays begin with, from the matrices of all uses.
fn array_files(
    alloc: Global,
    job: &Checked,
    places: &[PlaceDecl],
    ranks: u32,
    uses: &Items<Use>,
    loaded: Items<Matrix>,
) -> Result<ArrayFiles, NoMemory>
    requires used { All (HasOrderUse job.now.formats uses.now) job.now.arrays }
    requires loaded { AllZip IsForUse uses.now loaded }
    requires own { length (array_matrices uses.now loaded) ≡ length (filter has_file job.now.arrays) }
    ensures matrices { IfOk result (λ files. files.matrices ≡ spread job.now.arrays (array_matrices uses.now loaded)) }
    ensures orders { IfOk result (λ files. AllZip (IsRowOrder job.now.formats) job.now.arrays files.orders) }
    ensures lists { IfOk result (λ files. AllZip (IsLineFrom uses.now loaded job.now.extents ranks) places.now files.lists) }
{
    let orders = row_orders(alloc, job, uses, &loaded)?;
    let lists = place_lists(alloc, job, places, ranks, uses, &loaded)?;
    let matrices = array_matrices(alloc, job.arrays.as_slice(), uses, loaded)?;
    Ok(ArrayFiles {
        matrices,
        orders,
        lists,
    })
}

/// A matrix for each array, from those of all uses: an array with `zero` has no entries, and the orders of rows and the
/// places are left out.
fn array_matrices(
    alloc: Global,
    arrays: &[ArrayDecl],
    uses: &Items<Use>,
    loaded: Items<Matrix>,
) -> Result<Items<Matrix>, NoMemory>
    requires len { length loaded ≡ length uses.now }
    requires own { length (array_matrices uses.now loaded) ≡ length (filter has_file arrays.now) }
    ensures { IfOk result (λ matrices. matrices ≡ spread arrays.now (array_matrices uses.now loaded)) }
{
    let own = own_matrices(alloc, uses.as_slice(), loaded)?;
    with_zeros(alloc, arrays, own)
}

/// Of the matrices of all uses those that arrays are read from.
fn own_matrices(
    alloc: Global,
    uses: &[Use],
    loaded: Items<Matrix>,
) -> Result<Items<Matrix>, NoMemory>
    requires { length loaded ≡ length uses.now }
    ensures { IfOk result (λ own. own ≡ array_matrices uses.now loaded) }
{
    let mut own = Items::new(alloc);
    let mut loaded = loaded.into_vec().into_iter();
    for wanted in uses {
        let matrix = match loaded.next() {
            Some(matrix) => matrix,
            None => unreachable!(),
        };
        if wanted.is_array() {
            own.push(matrix)?;
        }
    }
    Ok(own)
}

/// A matrix for each array, from those that arrays are read from: an array with `zero` has no entries.
fn with_zeros(
    alloc: Global,
    arrays: &[ArrayDecl],
    own: Items<Matrix>,
) -> Result<Items<Matrix>, NoMemory>
    requires { length own ≡ length (filter has_file arrays.now) }
    ensures { IfOk result (λ matrices. matrices ≡ spread arrays.now own) }
{
    let mut matrices = Items::new(alloc);
    let mut own = own.into_vec().into_iter();
    for array in arrays {
        let matrix = match array.file {
            None => Matrix::empty(alloc, array.rows, array.cols),
            Some(_) => match own.next() {
                Some(matrix) => matrix,
                None => unreachable!(),
            },
        };
        matrices.push(matrix)?;
    }
    Ok(matrices)
}
