ghost use Rattle.std.specs.Prelude.{◌≡◌, ℕ, ◌^◌, ◌<◌, IfOk, List, length};
ghost use Rattle.bern_base.specs.Matrix.{IsMatrix};
ghost use Rattle.bern_base.specs.declared.matrix.Matrix.{Matrix};
ghost use Rattle.bern_base.specs.declared.shape.Shape.TheVariants as shape;
ghost use Rattle.format_model.specs.Laws.{OrdersRows};
ghost use Rattle.format_model.specs.Trees.{Describes};
ghost use Rattle.stores_shaped.specs.Orders.{IsInverse};
ghost use Rattle.stores_shaped.specs.Permuted.{HasDenseRows, HoldsInOrder, permuted_tree};
ghost use Rattle.stores_shaped.specs.PermutedLaws.{permuted_is_tree};

use crate::arranging::rows_in_order;
use crate::orders::{local_order, order_inverse};
use access_joins::{Access, Line};
use bern_base::{Axis, Items, Matrix, NoMemory, Steps, Val};
use std::alloc::Global;
use std::sync::ledger::Ledger;
use stores_packed::PackedStore;

/// The rows of a store in an order: its place q has row `order[q]` of the part.
#[derive(Debug, Drop)]
pub struct PermutedStore<S: Access> {
    inner: S,
    /// The row at each place.
    order: Items<u32>,
    /// The place of each row.
    inverse: Items<u32>,
    ghost dense: { HasDenseRows (S.tree inner) (length order) },
    ghost undo: { IsInverse order inverse },
}

impl<S: Access> PermutedStore<S> {
    /// Reads the rows of a store in an order. `inner` has a dense outer level of rows, and its row q is the part's row
    /// `order[q]`; `inverse` has the place of each row. It takes no memory.
    pub fn wrap(inner: S, order: Items<u32>, inverse: Items<u32>) -> PermutedStore<S>
        requires dense { HasDenseRows (S.tree inner) (length order) }
        requires undo { IsInverse order inverse }
        ensures tree { ⟦<PermutedStore<S> as Access>⟧.tree result ≡ permuted_tree (S.tree inner) order }
        ensures describes { (file globals whole : List ℕ) (part arranged : Matrix) →
            HoldsInOrder (S.tree inner) order globals whole part arranged →
            Describes (⟦<PermutedStore<S> as Access>⟧.tree result) (shape.Permute file) globals whole part }
    {
        PermutedStore {
            inner,
            order,
            inverse,
        }
    }
}

impl PermutedStore<PackedStore> {
    /// Stores the rows of a part in the order in which the whole `order` has them, each by its entries. `globals` has the row
    /// of the array for each row of the part. It takes time linear in the entries and in the rows of the array.
    pub fn build(
        alloc: Global,
        part: &Matrix,
        globals: &Items<u32>,
        order: &Items<u32>,
    ) -> Result<PermutedStore<PackedStore>, NoMemory>
        requires part { IsMatrix part.now }
        requires few { length part.now.entries < 2 ^ 32 }
        requires orders { OrdersRows globals.now order.now part.now (length order.now) }
        ensures { IfOk result (λ s. (file : List ℕ) →
            Describes (⟦<PermutedStore<PackedStore> as Access>⟧.tree s) (shape.Permute file) globals.now order.now part.now) }
    {
        // The rows of a part are counted in 32 bits, so its local numbers fit.
        let _rows = part.rows;
        let local = local_order(alloc, globals, order)?;
        let inverse = order_inverse(alloc, &local)?;
        let arranged = rows_in_order(alloc, part, &local)?;
        let inner = PackedStore::build(alloc, &arranged, Axis::Row, true, false)?;
        Ok(PermutedStore::wrap(inner, local, inverse))
    }
}

impl<S: Access> Access for PermutedStore<S> {
    ghost tree = { λ s. permuted_tree (S.tree s.inner) s.order };

    fn levels(&self) -> u32 {
        self.inner.levels()
    }

    fn axis(&self, level: u32) -> Axis {
        self.inner.axis(level)
    }

    fn ordered(&self, level: u32) -> bool {
        level > 0 && self.inner.ordered(level)
    }

    fn count(&self, level: u32, parent: u32) -> u32 {
        self.inner.count(level, parent)
    }

    fn at(&self, level: u32, parent: u32, k: u32) -> (u64, u32) {
        let (index, child) = self.inner.at(level, parent, k);
        if level > 0 {
            (index, child)
        } else {
            (*self.order.at(k as usize) as u64, child)
        }
    }

    fn find<L: Ledger>(
        &self,
        level: u32,
        parent: u32,
        index: u64,
        steps: &mut Steps<L>,
    ) -> Option<u32> {
        if level > 0 {
            return self.inner.find(level, parent, index, steps);
        }
        steps.tick();
        if index < self.inverse.len() as u64 {
            let place = *self.inverse.at(index as usize);
            Some(self.inner.at(level, parent, place).1)
        } else {
            None
        }
    }

    fn value(&self, leaf: u32) -> Val {
        self.inner.value(leaf)
    }

    fn line(&self, level: u32, parent: u32) -> Line {
        self.inner.line(level, parent)
    }

    fn entry(&self, level: u32, parent: u32, from: u32, place: u32) -> (u64, u32) {
        let (index, child) = self.inner.entry(level, parent, from, place);
        if level > 0 {
            (index, child)
        } else {
            (*self.order.at((place - from) as usize) as u64, child)
        }
    }

    ghost lawful = { λ s. permuted_is_tree (S.tree s.inner) s.order s.inverse (S.lawful s.inner) s.dense s.undo };
}
