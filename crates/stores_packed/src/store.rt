ghost use Rattle.std.specs.Prelude.{◌≡◌, ℕ, ◌+◌, ◌^◌, ◌<◌, ◌≤◌, IfOk, IsTrue, List, length};
ghost use Rattle.bern_base.specs.Matrix.{IsMatrix};
ghost use Rattle.bern_base.specs.declared.shape.Shape.TheVariants as shape;
ghost use Rattle.format_model.specs.Laws.{IsSide};
ghost use Rattle.stores_packed.specs.Packed.{IsPacked, outer_index, packed_tree, packed_shape, level_0, root_weight, width_of};
ghost use Rattle.format_model.specs.Trees.{Describes, child_at};
ghost use Rattle.stores_packed.specs.PackedLaws.{packed_is_tree};

use crate::filling::fill;
use crate::form::Form;
use crate::halving::search;
use crate::lines::lines_in;
use crate::squeezing::squeeze;
use access_joins::{Access, Line};
use bern_base::{Axis, Matrix, NoMemory, Steps, Val};
use format_model::across;
use std::alloc::Global;
use std::sync::ledger::Ledger;

/// A part by its entries, line by line, and those of a line by rising index.
///
/// An entry takes 12 bytes, a line of a dense level 4, and one of a packed level 8.
#[derive(Debug, Drop)]
pub struct PackedStore {
    form: Form,
    /// The indices of a packed level 0.
    outers: Vec<u32>,
    /// Where each line begins among the entries; its end is where the next one begins.
    starts: Vec<u32>,
    /// The indices within the lines.
    indices: Vec<u32>,
    /// The values of the leaves.
    values: Vec<Val>,
    ghost packed: { IsPacked form outers.items starts.items indices.items values.items },
}

impl PackedStore {
    /// Stores a part by its entries: a vector in one packed level of rows (`single`), or a level of lines on the `outer` axis,
    /// all of them (`outer_dense`) or those that have an entry, over a packed level of the indices within each.
    ///
    /// It takes time linear in the entries and, with two levels, in the lines; nothing is sorted.
    pub fn build(
        alloc: Global,
        part: &Matrix,
        outer: Axis,
        outer_dense: bool,
        single: bool,
    ) -> Result<PackedStore, NoMemory>
        requires part { IsMatrix part.now }
        requires few { length part.now.entries < 2 ^ 32 }
        requires outer { IsSide outer }
        requires column { IsTrue single → part.now.cols ≡ 1 }
        ensures { IfOk result (λ s. (globals order : List ℕ) →
            Describes (⟦<PackedStore as Access>⟧.tree s) (packed_shape outer outer_dense single) globals order part.now) }
    {
        if single {
            PackedStore::vector(alloc, part)
        } else if outer_dense {
            PackedStore::under_dense(alloc, part, outer)
        } else {
            PackedStore::under_packed(alloc, part, outer)
        }
    }

    /// A vector: its rows are the indices.
    fn vector(alloc: Global, part: &Matrix) -> Result<PackedStore, NoMemory>
        requires part { IsMatrix part.now }
        requires few { length part.now.entries < 2 ^ 32 }
        requires column { part.now.cols ≡ 1 }
        ensures { IfOk result (λ s. (globals order : List ℕ) →
            Describes (⟦<PackedStore as Access>⟧.tree s) shape.PackedOne globals order part.now) }
    {
        let entries = part.entries.as_slice();
        let mut outers = Vec::with_capacity(alloc, entries.len())?;
        let mut values = Vec::with_capacity(alloc, entries.len())?;
        'rows: for entry in entries {
            outers.push(entry.row)?;
            values.push(entry.value)?;
        }
        Ok(PackedStore {
            form: Form::PackedOne,
            outers,
            starts: Vec::new(alloc),
            indices: Vec::new(alloc),
            values,
        })
    }

    /// All lines, also those without an entry.
    fn under_dense(alloc: Global, part: &Matrix, outer: Axis) -> Result<PackedStore, NoMemory>
        requires part { IsMatrix part.now }
        requires few { length part.now.entries < 2 ^ 32 }
        requires outer { IsSide outer }
        ensures { IfOk result (λ s. (globals order : List ℕ) →
            Describes (⟦<PackedStore as Access>⟧.tree s) (shape.DensePacked outer) globals order part.now) }
    {
        let lines = lines_in(outer, part);
        let filled = fill(alloc, part, outer)?;
        Ok(PackedStore {
            form: Form::DensePacked { outer, lines },
            outers: Vec::new(alloc),
            starts: filled.starts,
            indices: filled.indices,
            values: filled.values,
        })
    }

    /// The lines that have an entry.
    fn under_packed(alloc: Global, part: &Matrix, outer: Axis) -> Result<PackedStore, NoMemory>
        requires part { IsMatrix part.now }
        requires few { length part.now.entries < 2 ^ 32 }
        requires outer { IsSide outer }
        ensures { IfOk result (λ s. (globals order : List ℕ) →
            Describes (⟦<PackedStore as Access>⟧.tree s) (shape.PackedPacked outer) globals order part.now) }
    {
        let filled = fill(alloc, part, outer)?;
        let kept = squeeze(alloc, &filled.starts)?;
        Ok(PackedStore {
            form: Form::PackedPacked { outer },
            outers: kept.outers,
            starts: kept.starts,
            indices: filled.indices,
            values: filled.values,
        })
    }

    /// How many nodes level 0 has.
    fn width(&self) -> u32
        ensures { result ≡ width_of self.now.form self.now.outers.items }
    {
        match self.form {
            Form::DensePacked { lines, .. } => lines,
            Form::PackedOne | Form::PackedPacked { .. } => self.outers.len() as u32,
        }
    }

    /// The index of a node of level 0.
    fn outer_at(&self, node: u32) -> u32
        requires { node < width_of self.now.form self.now.outers.items }
        ensures { result ≡ outer_index self.now.form self.now.outers.items node }
    {
        match self.form {
            Form::DensePacked { .. } => node,
            Form::PackedOne | Form::PackedPacked { .. } => self.outers[node as usize],
        }
    }

    /// The node of an index in level 0.
    fn find_outer<L: Ledger>(&self, index: u64, steps: &mut Steps<L>) -> Option<u32>
        ensures found { result ≡ child_at (level_0 self.now.form self.now.outers.items) index }
        ensures cost { steps.new ≤ steps.old + root_weight self.now.form self.now.outers.items }
    {
        match self.form {
            Form::DensePacked { lines, .. } => {
                steps.tick();
                if index < lines as u64 {
                    Some(index as u32)
                } else {
                    None
                }
            }
            Form::PackedOne | Form::PackedPacked { .. } => {
                let line = Line {
                    from: 0,
                    to: self.outers.len() as u32,
                };
                search(&self.outers, line, index, steps)
            }
        }
    }
}

impl Access for PackedStore {
    ghost tree = { λ s. packed_tree s.form s.outers.items s.starts.items s.indices.items s.values.items };

    fn levels(&self) -> u32 {
        match self.form {
            Form::PackedOne => 1,
            Form::DensePacked { .. } | Form::PackedPacked { .. } => 2,
        }
    }

    fn axis(&self, level: u32) -> Axis {
        match self.form {
            Form::PackedOne => Axis::Row,
            Form::DensePacked { outer, .. } | Form::PackedPacked { outer } => {
                if level == 0 { outer } else { across(outer) }
            }
        }
    }

    fn ordered(&self, _level: u32) -> bool {
        true
    }

    fn count(&self, level: u32, parent: u32) -> u32 {
        let line = self.line(level, parent);
        line.to - line.from
    }

    fn at(&self, level: u32, parent: u32, k: u32) -> (u64, u32) {
        let from = self.line(level, parent).from;
        self.entry(level, parent, from, from + k)
    }

    fn find<L: Ledger>(
        &self,
        level: u32,
        parent: u32,
        index: u64,
        steps: &mut Steps<L>,
    ) -> Option<u32> {
        if level > 0 {
            search(&self.indices, self.line(level, parent), index, steps)
        } else {
            self.find_outer(index, steps)
        }
    }

    fn value(&self, leaf: u32) -> Val {
        self.values[leaf as usize]
    }

    fn line(&self, level: u32, parent: u32) -> Line {
        if level > 0 {
            Line {
                from: self.starts[parent as usize],
                to: self.starts[parent as usize + 1],
            }
        } else {
            Line {
                from: 0,
                to: self.width(),
            }
        }
    }

    fn entry(&self, level: u32, _parent: u32, _from: u32, place: u32) -> (u64, u32) {
        if level > 0 {
            (self.indices[place as usize] as u64, place)
        } else {
            (self.outer_at(place) as u64, place)
        }
    }

    ghost lawful = { λ s. packed_is_tree s.form s.outers.items s.starts.items s.indices.items s.values.items s.packed };
}
