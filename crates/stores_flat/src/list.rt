ghost use Rattle.std.specs.Prelude.{◌≡◌, ◌≢◌, ◌*◌, ◌^◌, ◌<◌, ◌≤◌, ℕ, List, false, true, length, map, IfOk};
ghost use Rattle.std.specs.List.{All, AllPairs};
ghost use Rattle.bern_base.specs.Matrix.{IsMatrix};
ghost use Rattle.format_model.specs.declared.limits.TheConstants.{MOST_INDEX};
ghost use Rattle.format_model.specs.Trees.{Describes};
ghost use Rattle.stores_flat.specs.Lists.{flat_shape, index_list, list_axis, list_tree};
ghost use Rattle.stores_flat.specs.ListLaws.{list_is_tree};

use crate::indices::Indices;
use access_joins::{Access, Line};
use bern_base::{Axis, Items, Matrix, NoMemory, Steps, Val};
use std::alloc::Global;
use std::sync::ledger::Ledger;

/// The entries of a part in one level, in the order in which the part has them. A search goes through them from the first.
#[derive(Debug, Drop)]
pub struct ListStore {
    indices: Indices,
    values: Items<Val>,
    ghost few: { length values < 2 ^ 32 },
    ghost full: { length (index_list indices) ≡ length values },
    ghost apart: { AllPairs (λ a b. a ≢ b) (index_list indices) },
    ghost small: { All (λ index. index ≤ MOST_INDEX) (index_list indices) },
}

impl ListStore {
    /// The entries of a part by row; or, flat, by the element number row * cols + col in the part's own sizes. Every part
    /// of an array within the limits of sides can be stored.
    ///
    /// An entry takes 12 bytes by row and 16 flat.
    pub fn build(alloc: Global, part: &Matrix, flat: bool) -> Result<ListStore, NoMemory>
        requires part { IsMatrix part.now }
        requires few { length part.now.entries < 2 ^ 32 }
        requires small { part.now.rows * part.now.cols ≤ MOST_INDEX }
        requires single { flat ≡ false → part.now.cols ≡ 1 }
        ensures { IfOk result (λ s. (globals order : List ℕ) →
            Describes (⟦<ListStore as Access>⟧.tree s) (flat_shape flat) globals order part.now) }
    {
        let indices = Indices::of(alloc, part, flat)?;
        let values = values(alloc, part)?;
        Ok(ListStore { indices, values })
    }
}

fn values(alloc: Global, part: &Matrix) -> Result<Items<Val>, NoMemory>
    ensures { IfOk result (λ values. values ≡ map (λ e. e.value) part.now.entries) }
{
    let values = part.entries.as_slice().iter().map(|e| e.value);
    Ok(Items::from_vec(values.collect(alloc)?))
}

impl Access for ListStore {
    ghost tree = { λ s. list_tree (list_axis s.indices) (index_list s.indices) s.values };

    ghost lawful = { λ s. list_is_tree (list_axis s.indices) (index_list s.indices) s.values s.apart s.small };

    fn levels(&self) -> u32 {
        1
    }

    fn axis(&self, level: u32) -> Axis {
        self.indices.axis()
    }

    fn ordered(&self, level: u32) -> bool {
        false
    }

    fn count(&self, level: u32, parent: u32) -> u32 {
        self.values.len() as u32
    }

    fn at(&self, level: u32, parent: u32, k: u32) -> (u64, u32) {
        (self.indices.at(k), k)
    }

    fn find<L: Ledger>(
        &self,
        level: u32,
        parent: u32,
        index: u64,
        steps: &mut Steps<L>,
    ) -> Option<u32> {
        for place in 0..self.values.len() as u32 {
            steps.tick();
            if self.indices.at(place) == index {
                return Some(place);
            }
        }
        None
    }

    fn value(&self, leaf: u32) -> Val {
        *self.values.at(leaf as usize)
    }

    fn line(&self, level: u32, parent: u32) -> Line {
        Line {
            from: 0,
            to: self.values.len() as u32,
        }
    }

    fn entry(&self, level: u32, parent: u32, from: u32, place: u32) -> (u64, u32) {
        (self.indices.at(place), place)
    }
}
