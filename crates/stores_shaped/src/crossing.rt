ghost use Rattle.std.specs.Prelude.{◌≡◌, ◌+◌, ◌*◌, ◌^◌, ◌<◌, ◌++◌, IfOk, OnOk, length, map, pos, ◌+ℤ◌, ◌<ℤ◌, ◌≤ℤ◌};
ghost use Rattle.std.specs.List.{AllPairs};
ghost use Rattle.bern_base.specs.Matrix.{IsMatrix, element};
ghost use Rattle.bern_base.specs.declared.axes.Axis.TheVariants as axis;
ghost use Rattle.format_model.specs.Axes.{value_on};
ghost use Rattle.stores_shaped.specs.Diagonals.{column_on, diagonal_count};
ghost use Rattle.stores_shaped.specs.Crossings.{AreWindows, Crosses, IsBelow, IsSeen};

use bern_base::{Items, Matrix, NoMemory, Val};
use std::alloc::Global;

/// The diagonals that each row crosses: the first of them, and where the row's elements begin among all.
#[derive(Debug, Drop)]
pub struct Windows {
    pub firsts: Vec<u32>,
    pub starts: Vec<u32>,
}

/// Finds them by halving among the offsets.
pub fn find_windows(
    alloc: Global,
    globals: &Items<u32>,
    offsets: &Items<i64>,
    cols: u32,
) -> Result<Windows, NoMemory>
    requires rise { AllPairs (λ a b. a <ℤ b) offsets.now }
    requires listed { length offsets.now < 2 ^ 32 }
    requires rows { length globals.now < 2 ^ 32 }
    requires few { diagonal_count cols offsets.now globals.now < 2 ^ 32 }
    ensures { IfOk result (λ w. AreWindows cols offsets.now globals.now (length globals.now) w.firsts.items w.starts.items) }
{
    let rows = globals.as_slice();
    let listed = offsets.as_slice();
    let mut firsts = Vec::with_capacity(alloc, rows.len())?;
    let mut starts = Vec::with_capacity(alloc, rows.len() + 1)?;
    let mut total = 0;
    starts.push(0)?;
    'crossing: for row in 0..rows.len() {
        let global = rows[row] as i64;
        let first = below(listed, -global);
        let end = below(listed, cols as i64 - global);
        total += end - first;
        firsts.push(first)?;
        starts.push(total)?;
    }
    Ok(Windows { firsts, starts })
}

/// How many of the rising offsets lie below a bound.
fn below(offsets: &[i64], bound: i64) -> u32
    requires rise { AllPairs (λ a b. a <ℤ b) offsets.now }
    requires listed { length offsets.now < 2 ^ 32 }
    ensures { IsBelow offsets.now bound result }
{
    let mut low = 0;
    let mut high = offsets.len();
    'halving: while low < high {
        let middle = low + (high - low) / 2;
        if offsets[middle] < bound {
            low = middle + 1;
        } else {
            high = middle;
        }
    }
    low as u32
}

/// Appends the values of the elements of a row on these diagonals. `at` is past the entries of the rows before it, and then past
/// those of this row.
pub fn push_crossing(
    part: &Matrix,
    row: u32,
    global: u32,
    offsets: &[i64],
    at: &mut usize,
    values: &mut Vec<Val>,
) -> Result<(), NoMemory>
    requires part { IsMatrix part.now }
    requires row { row < part.now.rows }
    requires crosses { Crosses part.now.cols global offsets.now }
    requires seen { IsSeen part.now (row * part.now.cols) at.old }
    ensures values { OnOk result (values.new.items ≡ values.old.items ++
        map (λ offset. value_on axis.Row part.now row (column_on global offset)) offsets.now) }
    ensures seen { OnOk result (IsSeen part.now ((row + 1) * part.now.cols) at.new) }
{
    let first = row as u64 * part.cols as u64;
    'crossing: for offset in offsets {
        values.push(value_from(part, first + column_of(global, *offset), at))?;
    }
    Ok(())
}

/// The column in which a row of the array crosses the diagonal of an offset.
pub fn column_of(global: u32, offset: i64) -> u64
    requires low { pos 0 ≤ℤ (pos global +ℤ offset) }
    requires high { (pos global +ℤ offset) <ℤ pos (2 ^ 32) }
    ensures { result ≡ column_on global offset }
{
    (global as i64 + offset) as u64
}

/// The value of an element, 0 where it has no entry. `at` goes on to the first entry that does not stand before the element.
fn value_from(part: &Matrix, number: u64, at: &mut usize) -> Val
    requires part { IsMatrix part.now }
    requires seen { IsSeen part.now number at.old }
    ensures value { result ≡ element part.now.cols part.now.entries number }
    ensures seen { IsSeen part.now number at.new }
{
    let entries = part.entries.as_slice();
    'passing: while *at < entries.len() {
        let entry = &entries[*at];
        let here = entry.number(part.cols);
        if here == number {
            return Val::new(entry.value.bits());
        }
        if here > number {
            return Val::new(0);
        }
        *at += 1;
    }
    Val::new(0)
}
