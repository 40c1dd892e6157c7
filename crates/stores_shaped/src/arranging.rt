ghost use Rattle.std.specs.Prelude.{◌≡◌, ◌+◌, ◌-◌, ◌^◌, ◌<◌, ◌≤◌, ◌++◌, IfOk, OnOk, length, map, slice_index};
ghost use Rattle.bern_base.specs.Matrix.{IsMatrix};
ghost use Rattle.bern_base.specs.declared.axes.Axis.TheVariants as axis;
ghost use Rattle.format_model.specs.Elements.{line_element};
ghost use Rattle.stores_packed.specs.Lines.{stretch};
ghost use Rattle.stores_shaped.specs.Orders.{IsOrder};
ghost use Rattle.stores_shaped.specs.Permuted.{HasRowsInOrder};

use bern_base::{Axis, Entry, Items, Matrix, NoMemory};
use std::alloc::Global;
use stores_packed::{Filled, fill};

/// The rows of a part in an order: row q of the result is row `order[q]` of the part. Two passes over the entries and one over
/// the rows.
pub fn rows_in_order(alloc: Global, part: &Matrix, order: &Items<u32>) -> Result<Matrix, NoMemory>
    requires part { IsMatrix part.now }
    requires few { length part.now.entries < 2 ^ 32 }
    requires order { IsOrder order.now }
    requires long { length order.now ≡ part.now.rows }
    ensures matrix { IfOk result IsMatrix }
    ensures count { IfOk result (λ arranged. length arranged.entries ≡ length part.now.entries) }
    ensures rows { IfOk result (HasRowsInOrder order.now part.now) }
{
    let filled = fill(alloc, part, Axis::Row)?;
    let mut entries = Vec::with_capacity(alloc, part.entries.len())?;
    let rows = order.as_slice();
    'placing: for place in 0..rows.len() {
        push_row(&filled, rows[place], place as u32, &mut entries)?;
    }
    Ok(Matrix {
        rows: part.rows,
        cols: part.cols,
        entries: Items::from_vec(entries),
    })
}

/// Appends the entries of a row, as those of the row `place`.
fn push_row(filled: &Filled, row: u32, place: u32, entries: &mut Vec<Entry>) -> Result<(), NoMemory>
    requires row { row + 1 < length filled.now.starts.items }
    requires order { slice_index filled.now.starts.items row ≤ slice_index filled.now.starts.items (row + 1) }
    requires within { slice_index filled.now.starts.items (row + 1) ≤ length filled.now.indices.items }
    requires values { length filled.now.indices.items ≤ length filled.now.values.items }
    ensures { OnOk result (entries.new.items ≡ entries.old.items ++
        map (line_element axis.Row place) (stretch filled.now.indices.items filled.now.values.items
        (slice_index filled.now.starts.items row)
        (slice_index filled.now.starts.items (row + 1) - slice_index filled.now.starts.items row))) }
{
    let from = filled.starts[row as usize];
    let to = filled.starts[row as usize + 1];
    'copying: for k in from..to {
        entries.push(Entry {
            row: place,
            col: filled.indices[k as usize],
            value: filled.values[k as usize],
        })?;
    }
    Ok(())
}
