ghost use Rattle.std.specs.Prelude.{◌≡◌, ℕ, ◌+◌, ◌^◌, ◌<◌, ◌≤◌, ◌++◌, IfOk, length, map, slice_index, take};
ghost use Rattle.std.specs.List.{All, sum_by};
ghost use Rattle.stores_shaped.specs.Counts.{AreDealt, CountsFall, HasWidth, LiesIn, entry_of, row_at};

use crate::counts::RowCount;
use bern_base::{NoMemory, Val};
use std::alloc::Global;
use stores_packed::Filled;

/// Entries diagonal after diagonal: where each diagonal begins, and the column and value of each entry.
#[derive(Debug, Drop)]
pub struct Dealt {
    pub starts: Vec<u32>,
    pub indices: Vec<u32>,
    pub values: Vec<Val>,
}

/// Deals the entries of the rows out: diagonal d has the d-th entry of each row that has so many. One pass over the entries.
pub fn deal(alloc: Global, filled: &Filled, rows: &[RowCount]) -> Result<Dealt, NoMemory>
    requires fall { CountsFall rows.now }
    requires lie { All (LiesIn filled.now.starts.items (length filled.now.indices.items)) rows.now }
    requires small { length filled.now.indices.items < 2 ^ 32 }
    requires few { sum_by (λ r. r.count) rows.now < 2 ^ 32 }
    requires values { length filled.now.values.items ≡ length filled.now.indices.items }
    ensures long { IfOk result (λ dealt. (place : ℕ) → place < length rows.now → (row_at rows.now place).count ≤ length dealt.starts.items) }
    ensures indices { IfOk result (λ dealt.
        AreDealt rows.now filled.now.indices.items filled.now.starts.items (length dealt.starts.items) dealt.starts.items dealt.indices.items) }
    ensures values { IfOk result (λ dealt.
        AreDealt rows.now filled.now.values.items filled.now.starts.items (length dealt.starts.items) dealt.starts.items dealt.values.items) }
    ensures alike { IfOk result (λ dealt. length dealt.values.items ≡ length dealt.indices.items) }
{
    let depth = depth_of(rows);
    let room = filled.indices.len();
    let mut starts = Vec::with_capacity(alloc, depth as usize)?;
    let mut indices = Vec::with_capacity(alloc, room)?;
    let mut values = Vec::with_capacity(alloc, room)?;
    'diagonals: for diagonal in 0..depth {
        starts.push(indices.len() as u32)?;
        push_diagonal(filled, rows, diagonal, &mut indices, &mut values)?;
    }
    Ok(Dealt {
        starts,
        indices,
        values,
    })
}

/// The greatest count of a row, which the first one has.
fn depth_of(rows: &[RowCount]) -> u32
    requires { CountsFall rows.now }
    ensures { (place : ℕ) → place < length rows.now → (row_at rows.now place).count ≤ result }
{
    match rows.first() {
        Some(row) => row.count,
        None => 0,
    }
}

/// Appends the entries of a diagonal, and says how many rows have one there: they are the first ones.
fn push_diagonal(
    filled: &Filled,
    rows: &[RowCount],
    diagonal: u32,
    indices: &mut Vec<u32>,
    values: &mut Vec<Val>,
) -> Result<usize, NoMemory>
    requires fall { CountsFall rows.now }
    requires lie { All (LiesIn filled.now.starts.items (length filled.now.indices.items)) rows.now }
    requires small { length filled.now.indices.items < 2 ^ 32 }
    requires values { length filled.now.values.items ≡ length filled.now.indices.items }
    ensures width { IfOk result (HasWidth rows.now diagonal) }
    ensures indices { IfOk result (λ width. indices.new.items ≡ indices.old.items ++
        map (λ r. slice_index filled.now.indices.items (entry_of filled.now.starts.items diagonal r)) (take width rows.now)) }
    ensures values { IfOk result (λ width. values.new.items ≡ values.old.items ++
        map (λ r. slice_index filled.now.values.items (entry_of filled.now.starts.items diagonal r)) (take width rows.now)) }
{
    let mut width = 0;
    'rows: while width < rows.len() {
        let row = rows[width];
        if row.count <= diagonal {
            return Ok(width);
        }
        let entry = (filled.starts[row.row as usize] + diagonal) as usize;
        indices.push(filled.indices[entry])?;
        values.push(filled.values[entry])?;
        width += 1;
    }
    Ok(width)
}
