ghost use Rattle.std.specs.Prelude.{◌≡◌, ℕ, ◌+◌, ◌^◌, ◌<◌, IfOk, List, length, map, slice_index};
ghost use Rattle.bern_base.specs.Matrix.{IsMatrix};
ghost use Rattle.bern_base.specs.declared.shape.Shape.TheVariants as shape;
ghost use Rattle.format_model.specs.Trees.{Describes};
ghost use Rattle.stores_shaped.specs.Jagged.{IsJagged, jagged_index, jagged_leaf, jagged_tree};
ghost use Rattle.stores_shaped.specs.JaggedLaws.{jagged_is_tree};

use crate::counts::{RowCount, rows_by_count};
use crate::dealing::deal;
use crate::halving::{RisingLines, search};
use crate::orders::order_inverse;
use access_joins::{Access, Line};
use bern_base::{Axis, Items, Matrix, NoMemory, Steps, Val};
use std::alloc::Global;
use std::sync::ledger::Ledger;
use stores_packed::fill;

/// The rows of a part by falling count of entries, those of one count by rising row. Their first entries stand together on the
/// first jagged diagonal, their second ones on the next, and so on: each diagonal has one entry for each of the first rows.
///
/// An entry takes 12 bytes, a row 12, a jagged diagonal 4.
#[derive(Debug, Drop)]
pub struct JaggedStore {
    /// The row at each place.
    order: Items<u32>,
    /// The place of each row.
    inverse: Items<u32>,
    /// How many entries the row at each place has.
    counts: Vec<u32>,
    /// Where each jagged diagonal begins.
    starts: Vec<u32>,
    /// The columns, diagonal after diagonal.
    indices: Vec<u32>,
    /// The values of the leaves.
    values: Vec<Val>,
    ghost jagged: { IsJagged order inverse counts.items starts.items indices.items values.items },
}

impl JaggedStore {
    /// Stores a part by its entries, on jagged diagonals.
    ///
    /// It takes time linear in the entries and rows, but for one sort of the rows by count.
    pub fn build(alloc: Global, part: &Matrix) -> Result<JaggedStore, NoMemory>
        requires part { IsMatrix part.now }
        requires few { length part.now.entries < 2 ^ 32 }
        ensures { IfOk result (λ s. (globals order : List ℕ) →
            Describes (⟦<JaggedStore as Access>⟧.tree s) shape.Jagged globals order part.now) }
    {
        let filled = fill(alloc, part, Axis::Row)?;
        let sorted = rows_by_count(alloc, part, &filled)?;
        let rows = sorted.as_slice();
        let order = numbers_of(alloc, rows)?;
        let counts = counts_of(alloc, rows)?;
        let inverse = order_inverse(alloc, &order)?;
        let dealt = deal(alloc, &filled, rows)?;
        Ok(JaggedStore {
            order,
            inverse,
            counts,
            starts: dealt.starts,
            indices: dealt.indices,
            values: dealt.values,
        })
    }

    /// The leaf of the d-th entry of the row at a place.
    fn leaf(&self, place: u32, d: u32) -> u32
        requires place { place < length self.now.order }
        requires within { d < slice_index self.now.counts.items place }
        ensures leaf { result ≡ jagged_leaf self.now.starts.items place d }
        ensures there { result < length self.now.indices.items }
    {
        self.starts[d as usize] + place
    }
}

/// The numbers of these rows.
fn numbers_of(alloc: Global, rows: &[RowCount]) -> Result<Items<u32>, NoMemory>
    ensures { IfOk result (λ order. order ≡ map (λ r. r.row) rows.now) }
{
    let mut order = Vec::with_capacity(alloc, rows.len())?;
    'rows: for row in rows {
        order.push(row.row)?;
    }
    Ok(Items::from_vec(order))
}

/// Their counts.
fn counts_of(alloc: Global, rows: &[RowCount]) -> Result<Vec<u32>, NoMemory>
    ensures { IfOk result (λ counts. counts.items ≡ map (λ r. r.count) rows.now) }
{
    let mut counts = Vec::with_capacity(alloc, rows.len())?;
    'rows: for row in rows {
        counts.push(row.count)?;
    }
    Ok(counts)
}

impl RisingLines for JaggedStore {
    ghost lines = { λ s. length s.order };

    ghost first = { λ s. λ place. 0 };

    ghost end = { λ s. λ place. slice_index s.counts.items place };

    ghost index = { λ s. λ place. λ d. jagged_index s.starts.items s.indices.items place d };

    fn column(&self, row: u32, _from: u32, place: u32) -> u64 {
        self.indices[self.leaf(row, place) as usize] as u64
    }

    ghost rises = { λ s. λ place. λ low. s.jagged.rises place low };
}

impl Access for JaggedStore {
    ghost tree = { λ s. jagged_tree s.order s.counts.items s.starts.items s.indices.items s.values.items };

    fn levels(&self) -> u32 {
        2
    }

    fn axis(&self, level: u32) -> Axis {
        if level == 0 { Axis::Row } else { Axis::Col }
    }

    fn ordered(&self, level: u32) -> bool {
        level > 0
    }

    fn count(&self, level: u32, parent: u32) -> u32 {
        self.line(level, parent).to
    }

    fn at(&self, level: u32, parent: u32, k: u32) -> (u64, u32) {
        self.entry(level, parent, 0, k)
    }

    fn find<L: Ledger>(
        &self,
        level: u32,
        parent: u32,
        index: u64,
        steps: &mut Steps<L>,
    ) -> Option<u32> {
        if level > 0 {
            return match search(self, parent, self.line(level, parent), index, steps) {
                Some(d) => Some(self.leaf(parent, d)),
                None => None,
            };
        }
        steps.tick();
        if index < self.inverse.len() as u64 {
            Some(*self.inverse.at(index as usize))
        } else {
            None
        }
    }

    fn value(&self, leaf: u32) -> Val {
        self.values[leaf as usize]
    }

    fn line(&self, level: u32, parent: u32) -> Line {
        if level > 0 {
            Line {
                from: 0,
                to: self.counts[parent as usize],
            }
        } else {
            Line {
                from: 0,
                to: self.order.len() as u32,
            }
        }
    }

    fn entry(&self, level: u32, parent: u32, from: u32, place: u32) -> (u64, u32) {
        if level > 0 {
            (self.column(parent, from, place), self.leaf(parent, place))
        } else {
            (*self.order.at(place as usize) as u64, place)
        }
    }

    ghost lawful = { λ s. jagged_is_tree s.order s.inverse s.counts.items s.starts.items s.indices.items s.values.items s.jagged };
}
