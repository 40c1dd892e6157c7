ghost use Rattle.std.specs.Prelude.{◌≡◌, ◌≢◌, ◌*◌, ◌^◌, ◌<◌, ℕ, List, Some, true, length, replicate, IfOk};
ghost use Rattle.bern_base.specs.Matrix.{IsMatrix};
ghost use Rattle.bern_base.specs.declared.axes.Axis.TheVariants as axis_is;
ghost use Rattle.format_model.specs.Trees.{Describes};
ghost use Rattle.stores_flat.specs.Dense.{dense_grid, dense_shape, dense_tree, grid_of, grid_with, is_single, level_extent};
ghost use Rattle.stores_flat.specs.DenseLaws.{dense_is_tree, dense_lists};

use crate::layout::Layout;
use access_joins::{Access, Cells, Line};
use bern_base::{Axis, Items, Matrix, NoMemory, Steps, Val};
use std::alloc::Global;
use std::sync::ledger::Ledger;

/// All elements of a part, line after line: a leaf's number is its place in memory.
#[derive(Debug, Drop)]
pub struct DenseStore {
    layout: Layout,
    /// The extent of the outer level.
    lines: u32,
    /// The extent of the inner level, and 1 where there is one level.
    width: u32,
    values: Items<Val>,
    ghost few: { lines * width < 2 ^ 32 },
    ghost lines_fit: { lines < 2 ^ 32 },
    ghost width_fits: { width < 2 ^ 32 },
    ghost single: { is_single layout ≡ true → width ≡ 1 },
    ghost full: { length values ≡ lines * width },
}

impl DenseStore {
    /// All elements of a part. `axis` is that of the outer level: `Row` puts row after row, `Col` column after column.
    /// `single` is the form of one level, for a part of one column.
    ///
    /// An element takes 8 bytes.
    pub fn build(
        alloc: Global,
        part: &Matrix,
        axis: Axis,
        single: bool,
    ) -> Result<DenseStore, NoMemory>
        requires part { IsMatrix part.now }
        requires few { part.now.rows * part.now.cols < 2 ^ 32 }
        requires axis { axis ≢ axis_is.Both }
        requires single_axis { single ≡ true → axis ≡ axis_is.Row }
        requires single_cols { single ≡ true → part.now.cols ≡ 1 }
        ensures describes { IfOk result (λ s. (globals order : List ℕ) →
            Describes (⟦<DenseStore as Access>⟧.tree s) (dense_shape single axis) globals order part.now) }
        ensures grid { IfOk result (λ s. ⟦<DenseStore as Cells>⟧.grid s ≡ Some (grid_of single axis part.now)) }
    {
        let mut store = DenseStore::zeros(alloc, part.rows, part.cols, axis, single)?;
        for entry in part.entries.as_slice() {
            let element = entry.number(part.cols) as u32;
            store.set(element, Val::new(entry.value.bits()));
        }
        Ok(store)
    }

    /// A part of these sizes without entries.
    fn zeros(
        alloc: Global,
        rows: u32,
        cols: u32,
        axis: Axis,
        single: bool,
    ) -> Result<DenseStore, NoMemory>
        requires few { rows * cols < 2 ^ 32 }
        requires axis { axis ≢ axis_is.Both }
        requires single_axis { single ≡ true → axis ≡ axis_is.Row }
        requires single_cols { single ≡ true → cols ≡ 1 }
        ensures { IfOk result (λ s. ⟦<DenseStore as Cells>⟧.grid s ≡ Some (grid_with single axis rows cols (replicate (rows * cols) 0))) }
    {
        let layout = Layout::of(axis, single);
        let (lines, width) = layout.extents(rows, cols);
        let values = vec![in alloc; Val::new(0); lines as usize * width as usize]?;
        Ok(DenseStore {
            layout,
            lines,
            width,
            values: Items::from_vec(values),
        })
    }

    /// How many children a parent of a level has.
    fn extent(&self, level: u32) -> u32
        ensures { result ≡ level_extent self.now.lines self.now.width level }
    {
        if level == 0 { self.lines } else { self.width }
    }
}

impl Access for DenseStore {
    ghost tree = { λ s. dense_tree s.layout s.lines s.width s.values };

    ghost lawful = { λ s. dense_is_tree s.layout s.lines s.width s.values s.lines_fit s.width_fits };

    fn levels(&self) -> u32 {
        match self.layout {
            Layout::Single => 1,
            _ => 2,
        }
    }

    fn axis(&self, level: u32) -> Axis {
        match (self.layout, level) {
            (Layout::Single, _) | (Layout::RowMajor, 0) => Axis::Row,
            (Layout::RowMajor, _) | (Layout::ColMajor, 0) => Axis::Col,
            (Layout::ColMajor, _) => Axis::Row,
        }
    }

    fn ordered(&self, level: u32) -> bool {
        true
    }

    fn count(&self, level: u32, parent: u32) -> u32 {
        self.extent(level)
    }

    fn at(&self, level: u32, parent: u32, k: u32) -> (u64, u32) {
        (k as u64, parent * self.extent(level) + k)
    }

    fn find<L: Ledger>(
        &self,
        level: u32,
        parent: u32,
        index: u64,
        steps: &mut Steps<L>,
    ) -> Option<u32> {
        steps.tick();
        let extent = self.extent(level);
        if index < extent as u64 {
            Some(parent * extent + index as u32)
        } else {
            None
        }
    }

    fn value(&self, leaf: u32) -> Val {
        *self.values.at(leaf as usize)
    }

    fn line(&self, level: u32, parent: u32) -> Line {
        let extent = self.extent(level);
        let from = parent * extent;
        Line {
            from,
            to: from + extent,
        }
    }

    fn entry(&self, level: u32, parent: u32, from: u32, place: u32) -> (u64, u32) {
        ((place - from) as u64, place)
    }
}

impl Cells for DenseStore {
    ghost grid = { λ s. Some (dense_grid s.layout s.lines s.width s.values) };

    ghost listed = { λ s. dense_lists s.layout s.lines s.width s.values s.single };

    fn cell(&self, element: u32) -> Val {
        let place = self.layout.place(self.lines, self.width, element);
        *self.values.at(place as usize)
    }

    fn set(&mut self, element: u32, value: Val) {
        let place = self.layout.place(self.lines, self.width, element);
        self.values.set(place as usize, value);
    }
}
