ghost use Rattle.std.specs.Prelude.{◌≡◌, [], ◌∷◌, IfOk, length};
ghost use Rattle.bern_base.specs.Matrix.{IsMatrix};
ghost use Rattle.format_model.specs.Estimates.{rounded_up, spread_over, stat_of, stats_of};
ghost use Rattle.format_model.specs.Axes.{across, extent_of};
ghost use Rattle.format_model.specs.Levels.{Level, arranged_level, dense_level, list_level, packed_level};

use crate::digits::bits;
use crate::filled::filled_lines;
use bern_base::{Axis, FormatDecl, Items, LevelStat, Matrix, NoMemory, Shape, Stats};
use format_model::{across, extent_of};
use std::alloc::Global;

/// What is known of the levels of a whole matrix in a format, the outer level first. It takes time linear in the entries and
/// the lines of a doubly packed format, and no time to speak of in all others.
pub fn stats(alloc: Global, format: &FormatDecl, matrix: &Matrix) -> Result<Stats, NoMemory>
    requires { IsMatrix matrix.now }
    ensures { IfOk result (λ s. s.levels ≡ stats_of format.now.shape matrix.now) }
{
    let entries = matrix.entries.len() as u64;
    let rows = matrix.rows as u64;
    match &format.shape {
        Shape::DenseOne => one(alloc, dense(Axis::Row, rows)),
        Shape::PackedOne => one(alloc, packed(Axis::Row, entries)),
        Shape::ListOne => one(alloc, list(Axis::Row, entries)),
        Shape::ListTwo => one(alloc, list(Axis::Both, entries)),
        Shape::DenseDense(outer) => {
            let inner = across(*outer);
            two(
                alloc,
                dense(*outer, extent_on(*outer, matrix)),
                dense(inner, extent_on(inner, matrix)),
            )
        }
        Shape::DensePacked(outer) => {
            let lines = extent_on(*outer, matrix);
            two(
                alloc,
                dense(*outer, lines),
                spread(across(*outer), entries, lines),
            )
        }
        Shape::PackedPacked(outer) => {
            let lines = filled_lines(alloc, *outer, matrix)?;
            two(
                alloc,
                packed(*outer, lines),
                spread(across(*outer), entries, lines),
            )
        }
        Shape::Jagged | Shape::Permute(_) => {
            two(alloc, arranged(rows), spread(Axis::Col, entries, rows))
        }
        Shape::Diagonal(offsets) => two(
            alloc,
            dense(Axis::Row, rows),
            packed(Axis::Col, offsets.len() as u64),
        ),
    }
}

fn extent_on(axis: Axis, matrix: &Matrix) -> u64
    ensures { result ≡ extent_of axis matrix.now.rows matrix.now.cols }
{
    extent_of(axis, matrix.rows, matrix.cols)
}

fn one(alloc: Global, level: LevelStat) -> Result<Stats, NoMemory>
    ensures { IfOk result (λ s. s.levels ≡ level ∷ []) }
{
    let mut levels = Items::new(alloc);
    levels.push(level)?;
    Ok(Stats { levels })
}

fn two(alloc: Global, outer: LevelStat, inner: LevelStat) -> Result<Stats, NoMemory>
    ensures { IfOk result (λ s. s.levels ≡ outer ∷ inner ∷ []) }
{
    let mut levels = Items::new(alloc);
    levels.push(outer)?;
    levels.push(inner)?;
    Ok(Stats { levels })
}

/// A level with all indices of its axis, each found at its place.
fn dense(axis: Axis, extent: u64) -> LevelStat
    ensures { result ≡ stat_of (dense_level axis, extent) }
{
    LevelStat {
        axis,
        ordered: true,
        estimate: extent,
        weight: 1,
    }
}

/// A level with some indices, rising, found by halving.
fn packed(axis: Axis, estimate: u64) -> LevelStat
    ensures { result ≡ stat_of (packed_level axis, estimate) }
{
    LevelStat {
        axis,
        ordered: true,
        estimate,
        weight: bits(estimate),
    }
}

/// The packed level of entries that are spread evenly over so many lines.
fn spread(axis: Axis, entries: u64, lines: u64) -> LevelStat
    ensures { result ≡ stat_of (packed_level axis, rounded_up entries lines) }
{
    packed(axis, rounded_up(entries, lines))
}

/// A level with some indices in any order, looked at from the first.
fn list(axis: Axis, entries: u64) -> LevelStat
    ensures { result ≡ stat_of (list_level axis, entries) }
{
    LevelStat {
        axis,
        ordered: false,
        estimate: entries,
        weight: entries,
    }
}

/// The rows in an order of their own, each found at its place.
fn arranged(rows: u64) -> LevelStat
    ensures { result ≡ stat_of (arranged_level, rows) }
{
    LevelStat {
        axis: Axis::Row,
        ordered: false,
        estimate: rows,
        weight: 1,
    }
}

/// A quotient rounded up, and 0 where the divisor is 0.
fn rounded_up(dividend: u64, divisor: u64) -> u64
    ensures { result ≡ rounded_up dividend divisor }
{
    if divisor == 0 {
        0
    } else {
        dividend.div_ceil(divisor)
    }
}
