ghost use Rattle.std.specs.Prelude.{◌≡◌, ◌++◌, slice_get, IfOk, OnOk};
ghost use Rattle.std.specs.Option.{option_copied};
ghost use Rattle.job_files.specs.Uses.{diagonals_of, file_use, order_of, order_use, place_use, places_after, size_of, uses_of, with_places};

use crate::uses::Use;
use bern_base::{
    ArrayDecl, Checked, ExtentDecl, FormatDecl, Items, NoMemory, PlaceDecl, PlaceKind, Shape, Text,
};
use std::alloc::Global;

/// The uses of files by these places and the arrays of a job, in the order of their lines. An array mentions the file that
/// its format names right before its own.
pub fn uses_of(
    alloc: Global,
    job: &Checked,
    places: &[PlaceDecl],
    ranks: u32,
) -> Result<Items<Use>, NoMemory>
    ensures { IfOk result (λ uses. uses ≡ uses_of ranks (with_places places.now job.now)) }
{
    let mut uses = Items::new(alloc);
    for (number, array) in job.arrays.as_slice().iter().enumerate() {
        push_places(alloc, &mut uses, job, places, ranks, number)?;
        push_order(alloc, &mut uses, &job.formats, array)?;
        push_file(alloc, &mut uses, &job.formats, array)?;
    }
    push_places(alloc, &mut uses, job, places, ranks, job.arrays.len())?;
    Ok(uses)
}

/// Appends the uses of files by those of the places that are declared after so many arrays, and before the next one.
fn push_places(
    alloc: Global,
    uses: &mut Items<Use>,
    job: &Checked,
    places: &[PlaceDecl],
    ranks: u32,
    number: usize,
) -> Result<(), NoMemory>
    ensures { OnOk result (uses.new ≡ uses.old ++ places_after ranks (with_places places.now job.now) number) }
{
    for place in places {
        if place.arrays_before == number {
            push_place(alloc, uses, &job.extents, place, ranks)?;
        }
    }
    Ok(())
}

/// Appends the use of the file that lists a place, where one does.
fn push_place(
    alloc: Global,
    uses: &mut Items<Use>,
    extents: &Items<ExtentDecl>,
    place: &PlaceDecl,
    ranks: u32,
) -> Result<(), NoMemory>
    ensures { OnOk result (uses.new ≡ uses.old ++ place_use ranks extents.now place.now) }
{
    match &place.kind {
        PlaceKind::Listed(file) => uses.push(Use::Place {
            file: Text::from_bytes(alloc, file.as_bytes())?,
            extent: size_of(extents, place.extent),
            ranks,
        }),
        _ => Ok(()),
    }
}

/// How many indices an extent has.
pub(crate) fn size_of(extents: &Items<ExtentDecl>, number: u32) -> u32
    ensures { result ≡ size_of (slice_get extents.now number) }
{
    match extents.get(number as usize) {
        Some(extent) => extent.size,
        None => 0,
    }
}

/// Appends the use of the file that has the order of an array's rows, where its format names one.
fn push_order(
    alloc: Global,
    uses: &mut Items<Use>,
    formats: &Items<FormatDecl>,
    array: &ArrayDecl,
) -> Result<(), NoMemory>
    ensures { OnOk result (uses.new ≡ uses.old ++ order_use array.now (order_of formats.now array.now)) }
{
    match order_of(formats, array) {
        None => Ok(()),
        Some(file) => uses.push(Use::Order {
            file: Text::from_bytes(alloc, file.as_bytes())?,
            rows: array.rows,
        }),
    }
}

/// Appends the use of an array's own file, where it has one.
fn push_file(
    alloc: Global,
    uses: &mut Items<Use>,
    formats: &Items<FormatDecl>,
    array: &ArrayDecl,
) -> Result<(), NoMemory>
    ensures { OnOk result (uses.new ≡ uses.old ++ file_use array.now (diagonals_of formats.now array.now) array.now.file) }
{
    match &array.file {
        None => Ok(()),
        Some(file) => uses.push(Use::Array {
            file: Text::from_bytes(alloc, file.as_bytes())?,
            rows: array.rows,
            cols: array.cols,
            diagonals: diagonals_of(alloc, formats, array)?,
        }),
    }
}

/// The file that has the order of an array's rows, which its permute format names.
pub(crate) fn order_of<'a>(formats: &'a Items<FormatDecl>, array: &ArrayDecl) -> Option<&'a Text>
    ensures { option_copied result ≡ order_of formats.now array.now }
{
    match formats.get(array.format as usize) {
        Some(format) => match &format.shape {
            Shape::Permute(file) => Some(file),
            _ => None,
        },
        None => None,
    }
}

/// A copy of the offsets of the diagonals that an array's format lists.
fn diagonals_of(
    alloc: Global,
    formats: &Items<FormatDecl>,
    array: &ArrayDecl,
) -> Result<Option<Items<i64>>, NoMemory>
    ensures { IfOk result (λ offsets. offsets ≡ diagonals_of formats.now array.now) }
{
    match formats.get(array.format as usize) {
        Some(format) => match &format.shape {
            Shape::Diagonal(offsets) => { Ok(Some(Items::from_slice(alloc, offsets.as_slice())?)) }
            _ => Ok(None),
        },
        None => Ok(None),
    }
}
