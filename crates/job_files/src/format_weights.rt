ghost use Rattle.std.specs.Prelude.{◌≡◌, ◌*◌};
ghost use Rattle.std.specs.List.{sum_by};
ghost use Rattle.format_model.specs.Weights.{diagonal_len, extent_on, lines_weight, shape_weight};

use bern_base::{ArrayDecl, Axis, Shape};
use format_model::{extent_of, is_same_axis};

/// What an array weighs in this format.
pub(crate) fn shape_weight(shape: &Shape, ranks: u32, array: &ArrayDecl) -> u128
    ensures { result ≡ shape_weight shape.now ranks array.now }
{
    match shape {
        Shape::DenseOne | Shape::DenseDense(_) => extent_on(Axis::Both, array) as u128,
        Shape::DensePacked(outer) => lines_weight(*outer, ranks, array),
        Shape::Diagonal(offsets) => diagonals_weight(array.rows, array.cols, offsets.as_slice()),
        Shape::Jagged | Shape::Permute(_) => array.rows as u128,
        Shape::PackedOne | Shape::ListOne | Shape::PackedPacked(_) | Shape::ListTwo => 0,
    }
}

/// How many indices an axis of an array has.
fn extent_on(axis: Axis, array: &ArrayDecl) -> u64
    ensures { result ≡ extent_on axis array.now }
{
    extent_of(axis, array.rows, array.cols)
}

/// The lines of a dense outer level: an array that is split along the packed axis has all of them at each rank.
fn lines_weight(outer: Axis, ranks: u32, array: &ArrayDecl) -> u128
    ensures { result ≡ lines_weight outer ranks array.now }
{
    let lines = extent_on(outer, array) as u128;
    if is_same_axis(array.axis, outer) {
        lines
    } else {
        lines * ranks as u128
    }
}

/// How many elements lie on the diagonals of these offsets.
fn diagonals_weight(rows: u32, cols: u32, offsets: &[i64]) -> u128
    ensures { result ≡ sum_by (diagonal_len rows cols) offsets.now }
{
    let mut weight = 0;
    'diagonals: for offset in offsets {
        weight += diagonal_len(rows, cols, *offset) as u128;
    }
    weight
}

/// How many elements lie on the diagonal of this offset, column minus row.
fn diagonal_len(rows: u32, cols: u32, offset: i64) -> u64
    ensures { result ≡ diagonal_len rows cols offset }
{
    let away = offset.unsigned_abs();
    if offset < 0 {
        (rows as u64).saturating_sub(away).min(cols as u64)
    } else {
        (cols as u64).saturating_sub(away).min(rows as u64)
    }
}
