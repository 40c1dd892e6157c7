ghost use Rattle.std.specs.Prelude.{◌≡◌, ◌<◌, ◌≤◌, true, false, nat_lt, unsigned_abs, IfOk, length};
ghost use Rattle.std.specs.List.{list_any, All};
ghost use Rattle.job_rules.specs.Known.{Known, lookup};
ghost use Rattle.job_rules.specs.State.{number_of, extent_size, place_extent, shape_at, axis_place};
ghost use Rattle.job_rules.specs.Rules.{is_no_size, kind_past_limit, shape_past_limit, is_unknown_in, is_no_extent_in, some_unknown, some_no_extent, fits_shape, extent_on};
ghost use Rattle.job_rules.specs.After.{kind_of, shape_of, rows_of, cols_of};

use crate::names::Names;
use crate::tables::{is_col, is_extent, number_of};
use bern_base::{
    Axis, Checked, Items, MOST_OFFSET, MOST_OFFSETS, MOST_SIDE, NoMemory, PlaceKind, RawKind,
    RawShape, Shape, Text,
};
use std::alloc::Global;

/// J15: whether this is no size, 0 or past the limit.
pub(crate) fn is_no_size(size: u64) -> bool
    ensures { result ≡ is_no_size size }
{
    size == 0 || size > MOST_SIDE as u64
}

/// J15: whether the block of a place is past its limit.
pub(crate) fn kind_past_limit(kind: &RawKind) -> bool
    ensures { result ≡ kind_past_limit kind.now }
{
    match kind {
        RawKind::Cyclic(block) => is_no_size(*block),
        _ => false,
    }
}

/// J15: whether a format has too many offsets, or one too large.
#[tactic(auto, unfolding(crate::specs::Rules::shape_past_limit))]
pub(crate) fn shape_past_limit(shape: &RawShape) -> bool
    ensures { result ≡ shape_past_limit shape.now }
{
    match shape {
        RawShape::Diagonal(offsets) => {
            offsets.len() > MOST_OFFSETS || some_far(offsets.as_slice())
        }
        _ => false,
    }
}

fn some_far(offsets: &[i128]) -> bool
    ensures { result ≡ list_any (λ offset. nat_lt MOST_OFFSET (unsigned_abs offset)) offsets.now }
{
    offsets
        .iter()
        .any(|offset| offset.unsigned_abs() > MOST_OFFSET as u128)
}

/// J4: whether a name is not known.
#[tactic(auto, unfolding(crate::specs::Rules::some_unknown))]
pub(crate) fn some_unknown(names: &Names<'_>, wanted: &[Text]) -> bool
    ensures { result ≡ some_unknown names.now wanted.now }
{
    wanted.iter().any(|name| is_unknown(names, name))
}

fn is_unknown(names: &Names<'_>, name: &Text) -> bool
    ensures { result ≡ is_unknown_in names.now name.now }
{
    names.find(name.as_bytes()).is_none()
}

/// J5: whether a name stands for no extent.
#[tactic(auto, unfolding(crate::specs::Rules::some_no_extent))]
pub(crate) fn some_no_extent(names: &Names<'_>, wanted: &[Text]) -> bool
    ensures { result ≡ some_no_extent names.now wanted.now }
{
    wanted.iter().any(|name| is_no_extent(names, name))
}

fn is_no_extent(names: &Names<'_>, name: &Text) -> bool
    ensures { result ≡ is_no_extent_in names.now name.now }
{
    !is_extent(names.find(name.as_bytes()))
}

/// J6: whether the format of a number suits an array of so many extents.
#[tactic(auto, unfolding(crate::specs::Rules::fits_shape))]
pub(crate) fn shape_fits(job: &Checked, format: u32, extents: usize, by_col: bool) -> bool
    ensures fits { result ≡ fits_shape (shape_at job.now.formats format) extents by_col }
    ensures few { result ≡ true → extents ≤ 2 }
{
    match job.formats.get(format as usize) {
        Some(decl) => suits(&decl.shape, extents, by_col),
        None => suits(&Shape::DenseOne, extents, by_col),
    }
}

#[tactic(auto, unfolding(crate::specs::Rules::fits_shape))]
fn suits(shape: &Shape, extents: usize, by_col: bool) -> bool
    ensures fits { result ≡ fits_shape shape.now extents by_col }
    ensures few { result ≡ true → extents ≤ 2 }
{
    shape.dims() as usize == extents && !(by_col && (extents == 1 || shape.is_by_row()))
}

/// J7: the number of the extent on the axis along which an array is split.
#[tactic(auto, unfolding(crate::specs::Rules::extent_on))]
pub(crate) fn extent_on(names: &Names<'_>, extents: &[Text], axis: Axis) -> u32
    ensures { result ≡ extent_on names.now extents.now axis }
{
    match extents.get(axis_place(axis)) {
        Some(name) => number_of(names.find(name.as_bytes())),
        None => number_of(names.find(&[])),
    }
}

fn axis_place(axis: Axis) -> usize
    ensures { result ≡ axis_place axis }
{
    if is_col(axis) { 1 } else { 0 }
}

/// J7: the number of the extent that a place deals.
pub(crate) fn place_extent(job: &Checked, place: u32) -> u32
    ensures { result ≡ place_extent job.now.places place }
{
    match job.places.get(place as usize) {
        Some(decl) => decl.extent,
        None => 0,
    }
}

/// The number of rows of an array with these extents.
pub(crate) fn rows_of(names: &Names<'_>, job: &Checked, extents: &[Text]) -> u32
    ensures { result ≡ rows_of (record { names = names.now; job = job.now }) extents.now }
{
    match extents {
        [] => 1,
        [rows, ..] => size_of(names, job, rows),
    }
}

/// The number of its columns: one where it has one extent.
pub(crate) fn cols_of(names: &Names<'_>, job: &Checked, extents: &[Text]) -> u32
    ensures { result ≡ cols_of (record { names = names.now; job = job.now }) extents.now }
{
    match extents {
        [_, cols, ..] => size_of(names, job, cols),
        _ => 1,
    }
}

fn size_of(names: &Names<'_>, job: &Checked, name: &Text) -> u32
    ensures { result ≡ extent_size job.now.extents (number_of (lookup name.now names.now)) }
{
    match job
        .extents
        .get(number_of(names.find(name.as_bytes())) as usize)
    {
        Some(decl) => decl.size,
        None => 0,
    }
}

/// How a place deals, with a block that is within its limit.
pub(crate) fn place_kind(alloc: Global, kind: &RawKind) -> Result<PlaceKind, NoMemory>
    requires { kind_past_limit kind.now ≡ false }
    ensures { IfOk result (λ checked. checked ≡ kind_of kind.now) }
{
    match kind {
        RawKind::Block => Ok(PlaceKind::Block),
        RawKind::Cyclic(block) => Ok(PlaceKind::Cyclic(*block as u32)),
        RawKind::Listed(file) => {
            let file = Text::from_bytes(alloc, file.as_bytes())?;
            Ok(PlaceKind::Listed(file))
        }
    }
}

/// The levels of a format, with offsets that are within their limits.
pub(crate) fn checked_shape(alloc: Global, shape: &RawShape) -> Result<Shape, NoMemory>
    requires { shape_past_limit shape.now ≡ false }
    ensures { IfOk result (λ checked. checked ≡ shape_of shape.now) }
{
    match shape {
        RawShape::DenseOne => Ok(Shape::DenseOne),
        RawShape::PackedOne => Ok(Shape::PackedOne),
        RawShape::ListOne => Ok(Shape::ListOne),
        RawShape::DenseDense(outer) => Ok(Shape::DenseDense(*outer)),
        RawShape::DensePacked(outer) => Ok(Shape::DensePacked(*outer)),
        RawShape::PackedPacked(outer) => Ok(Shape::PackedPacked(*outer)),
        RawShape::ListTwo => Ok(Shape::ListTwo),
        RawShape::Jagged => Ok(Shape::Jagged),
        RawShape::Diagonal(offsets) => {
            let offsets = checked_offsets(alloc, offsets.as_slice())?;
            Ok(Shape::Diagonal(offsets))
        }
        RawShape::Permute(file) => {
            let file = Text::from_bytes(alloc, file.as_bytes())?;
            Ok(Shape::Permute(file))
        }
    }
}

fn checked_offsets(alloc: Global, offsets: &[i128]) -> Result<Items<i64>, NoMemory>
    requires { All (λ offset. unsigned_abs offset ≤ MOST_OFFSET) offsets.now }
    ensures { IfOk result (λ checked. checked ≡ offsets.now) }
{
    let mut checked = Items::from_vec(Vec::with_capacity(alloc, offsets.len())?);
    for offset in offsets {
        checked.push(*offset as i64)?;
    }
    Ok(checked)
}

/// A copy of a file's name, if there is one.
pub(crate) fn copied_file(alloc: Global, file: &Option<Text>) -> Result<Option<Text>, NoMemory>
    ensures { IfOk result (λ copy. copy ≡ file.now) }
{
    match file {
        Some(file) => {
            let copy = Text::from_bytes(alloc, file.as_bytes())?;
            Ok(Some(copy))
        }
        None => Ok(None),
    }
}
