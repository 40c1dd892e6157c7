ghost use Rattle.std.specs.Prelude.{◌≡◌, None, IfOk, slice_get};
ghost use Rattle.std.specs.List.{AllZip, list_any};
ghost use Rattle.bern_base.specs.Matrix.{IsMatrix};
ghost use Rattle.placement.specs.Listed.{listed_rule};
ghost use Rattle.job_files.specs.FileOrder.{IsForUse};
ghost use Rattle.job_files.specs.PlaceLists.{IsLineFrom, IsListFrom, IsListOf};

use crate::mentions::size_of;
use crate::uses::{Use, place_use};
use bern_base::{Checked, ExtentDecl, Items, Matrix, NoMemory, PlaceDecl, PlaceKind};
use placement::{Listed, ListedError};
use std::alloc::Global;

/// The places of each place line that names a file, as the file lists them, and none for the others, from the matrices of all
/// uses.
pub(crate) fn place_lists(
    alloc: Global,
    job: &Checked,
    places: &[PlaceDecl],
    ranks: u32,
    uses: &Items<Use>,
    loaded: &Items<Matrix>,
) -> Result<Items<Option<Listed>>, NoMemory>
    requires { AllZip IsForUse uses.now loaded.now }
    ensures { IfOk result (AllZip (IsLineFrom uses.now loaded.now job.now.extents ranks) places.now) }
{
    let mut lists = Items::new(alloc);
    for place in places {
        lists.push(place_list(alloc, &job.extents, place, ranks, uses, loaded)?)?;
    }
    Ok(lists)
}

/// The places that the file of a place line lists, or none.
fn place_list(
    alloc: Global,
    extents: &Items<ExtentDecl>,
    place: &PlaceDecl,
    ranks: u32,
    uses: &Items<Use>,
    loaded: &Items<Matrix>,
) -> Result<Option<Listed>, NoMemory>
    requires { AllZip IsForUse uses.now loaded.now }
    ensures { IfOk result (IsLineFrom uses.now loaded.now extents.now ranks place.now) }
{
    match &place.kind {
        PlaceKind::Listed(file) => {
            let size = size_of(extents, place.extent);
            listed_places(alloc, file.as_bytes(), size, ranks, uses, loaded)
        }
        _ => Ok(None),
    }
}

/// The places of so many indices at so many ranks that the file lists, where it is used for them.
fn listed_places(
    alloc: Global,
    file: &[u8],
    size: u32,
    ranks: u32,
    uses: &Items<Use>,
    loaded: &Items<Matrix>,
) -> Result<Option<Listed>, NoMemory>
    requires { AllZip IsForUse uses.now loaded.now }
    ensures { IfOk result (IsListFrom uses.now loaded.now file.now size ranks) }
{
    match place_use(uses, file, size, ranks) {
        Some(number) => Ok(Some(listed_by(alloc, size, ranks, loaded.at(number))?)),
        None => Ok(None),
    }
}

/// The places of so many indices at so many ranks that a matrix lists.
fn listed_by(alloc: Global, size: u32, ranks: u32, matrix: &Matrix) -> Result<Listed, NoMemory>
    requires matrix { IsMatrix matrix.now }
    requires fits { listed_rule size ranks matrix.now ≡ None }
    ensures { IfOk result (IsListOf size ranks matrix.now.entries) }
{
    match Listed::build(alloc, matrix, size, ranks) {
        Ok(list) => Ok(list),
        Err(ListedError::Broken(_)) => unreachable!(),
        Err(ListedError::NoMemory) => Err(NoMemory),
    }
}
