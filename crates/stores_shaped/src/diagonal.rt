ghost use Rattle.std.specs.Prelude.{◌≡◌, ℕ, ◌+◌, ◌-◌, ◌^◌, ◌<◌, ◌≤◌, IfOk, List, length, slice_index, ◌<ℤ◌};
ghost use Rattle.std.specs.List.{All, AllPairs};
ghost use Rattle.bern_base.specs.Matrix.{IsMatrix};
ghost use Rattle.bern_base.specs.declared.shape.Shape.TheVariants as shape;
ghost use Rattle.format_model.specs.Trees.{Describes};
ghost use Rattle.stores_shaped.specs.Crossings.{AreWindows, HasValues};
ghost use Rattle.stores_shaped.specs.Diagonals.{IsDiagonal, IsOffset, diagonal_count, diagonal_index, diagonal_tree};
ghost use Rattle.stores_shaped.specs.DiagonalLaws.{columns_rise, diagonal_is_tree};

use crate::crossing::{Windows, column_of, find_windows, push_crossing};
use crate::halving::{RisingLines, search};
use access_joins::{Access, Line};
use bern_base::{Axis, Items, Matrix, NoMemory, Steps, Val};
use std::alloc::Global;
use std::sync::ledger::Ledger;

/// The elements of a part on listed diagonals, row by row, and those of a row by rising column.
///
/// An element takes 8 bytes, a row 12, an offset 8. An element on a listed diagonal is stored also where it has no entry, with 0;
/// places of a diagonal outside the matrix take nothing.
#[derive(Debug, Drop)]
pub struct DiagonalStore {
    cols: u32,
    /// Column minus row of each listed diagonal, rising.
    offsets: Items<i64>,
    /// The row of the array for each row of the part.
    globals: Items<u32>,
    /// The first diagonal that each row crosses.
    firsts: Vec<u32>,
    /// Where the elements of each row begin; their end is where those of the next one begin.
    starts: Vec<u32>,
    /// The values of the leaves.
    values: Vec<Val>,
    ghost diagonal: { IsDiagonal cols offsets globals firsts.items starts.items values.items },
}

impl DiagonalStore {
    /// Stores the elements of a part on the diagonals with these offsets, column minus row, which rise. `globals` has the row of
    /// the array for each row of the part. Entries off the diagonals, which have the value 0, are left out.
    ///
    /// It goes once over the entries and the elements, and looks among the offsets by halving, twice a row.
    pub fn build(
        alloc: Global,
        part: &Matrix,
        globals: &Items<u32>,
        offsets: &Items<i64>,
    ) -> Result<DiagonalStore, NoMemory>
        requires part { IsMatrix part.now }
        requires rows { length globals.now ≡ part.now.rows }
        requires rise { AllPairs (λ a b. a <ℤ b) offsets.now }
        requires small { All IsOffset offsets.now }
        requires few { diagonal_count part.now.cols offsets.now globals.now < 2 ^ 32 }
        ensures { IfOk result (λ s. (order : List ℕ) →
            Describes (⟦<DiagonalStore as Access>⟧.tree s) (shape.Diagonal offsets.now) globals.now order part.now) }
    {
        let cols = part.cols;
        let _rows = part.rows;
        let found = find_windows(alloc, globals, offsets, cols)?;
        let values = fill(alloc, part, globals, offsets, &found)?;
        Ok(DiagonalStore {
            cols,
            offsets: Items::from_slice(alloc, offsets.as_slice())?,
            globals: Items::from_slice(alloc, globals.as_slice())?,
            firsts: found.firsts,
            starts: found.starts,
            values,
        })
    }
}

impl RisingLines for DiagonalStore {
    ghost lines = { λ s. length s.globals };

    ghost first = { λ s. λ row. slice_index s.starts.items row };

    ghost end = { λ s. λ row. slice_index s.starts.items (row + 1) };

    ghost index = { λ s. λ row. λ place. diagonal_index s.offsets s.globals s.firsts.items s.starts.items row place };

    fn column(&self, row: u32, from: u32, place: u32) -> u64 {
        let diagonal = self.firsts[row as usize] + (place - from);
        let offset = self.offsets.as_slice()[diagonal as usize];
        column_of(self.globals.as_slice()[row as usize], offset)
    }

    ghost rises = { λ s. λ row. λ low. columns_rise s.cols s.offsets s.globals s.firsts.items s.starts.items s.values.items s.diagonal row low };
}

/// The values of the elements, row by row.
fn fill(
    alloc: Global,
    part: &Matrix,
    globals: &Items<u32>,
    offsets: &Items<i64>,
    found: &Windows,
) -> Result<Vec<Val>, NoMemory>
    requires part { IsMatrix part.now }
    requires rows { length globals.now ≡ part.now.rows }
    requires rise { AllPairs (λ a b. a <ℤ b) offsets.now }
    requires found { AreWindows part.now.cols offsets.now globals.now (length globals.now)
        found.now.firsts.items found.now.starts.items }
    ensures { IfOk result (λ values.
        HasValues part.now offsets.now globals.now found.now.firsts.items found.now.starts.items values.items) }
{
    let rows = globals.as_slice();
    let listed = offsets.as_slice();
    let mut values = Vec::with_capacity(alloc, found.starts[rows.len()] as usize)?;
    let mut at = 0;
    'rows: for row in 0..part.rows {
        let place = row as usize;
        let first = found.firsts[place] as usize;
        let count = (found.starts[place + 1] - found.starts[place]) as usize;
        let crossed = &listed[first..first + count];
        push_crossing(part, row, rows[place], crossed, &mut at, &mut values)?;
    }
    Ok(values)
}

impl Access for DiagonalStore {
    ghost tree = { λ s. diagonal_tree s.offsets s.globals s.firsts.items s.starts.items s.values.items };

    fn levels(&self) -> u32 {
        2
    }

    fn axis(&self, level: u32) -> Axis {
        if level == 0 { Axis::Row } else { Axis::Col }
    }

    fn ordered(&self, _level: u32) -> bool {
        true
    }

    fn count(&self, level: u32, parent: u32) -> u32 {
        let line = self.line(level, parent);
        line.to - line.from
    }

    fn at(&self, level: u32, parent: u32, k: u32) -> (u64, u32) {
        let from = self.line(level, parent).from;
        self.entry(level, parent, from, from + k)
    }

    fn find<L: Ledger>(
        &self,
        level: u32,
        parent: u32,
        index: u64,
        steps: &mut Steps<L>,
    ) -> Option<u32> {
        if level > 0 {
            return search(self, parent, self.line(level, parent), index, steps);
        }
        steps.tick();
        if index < self.globals.len() as u64 {
            Some(index as u32)
        } else {
            None
        }
    }

    fn value(&self, leaf: u32) -> Val {
        self.values[leaf as usize]
    }

    fn line(&self, level: u32, parent: u32) -> Line {
        if level > 0 {
            Line {
                from: self.starts[parent as usize],
                to: self.starts[parent as usize + 1],
            }
        } else {
            Line {
                from: 0,
                to: self.globals.len() as u32,
            }
        }
    }

    fn entry(&self, level: u32, parent: u32, from: u32, place: u32) -> (u64, u32) {
        if level > 0 {
            (self.column(parent, from, place), place)
        } else {
            (place as u64, place)
        }
    }

    ghost lawful = { λ s. diagonal_is_tree s.cols s.offsets s.globals s.firsts.items s.starts.items s.values.items s.diagonal };
}
