ghost use Rattle.std.specs.Prelude.{◌≡◌, ◌^◌, ◌<◌, IfOk, map};
ghost use Rattle.std.specs.List.{All, range_with_len};
ghost use Rattle.whole_runs.specs.Engine.{BuildsStore, CanRun, IsForArray, entries_in, first_state};
ghost use Rattle.whole_laws.specs.HeldArrays.{HoldsState};

use bern_base::{Checked, Items, Matrix, NoMemory};
use formats::{AnyStore, build};
use placement::Part;
use std::alloc::Global;

/// A store for each array of a job, of its whole matrix. Each matrix is given up as soon as its store stands.
pub fn whole_stores(
    alloc: Global,
    job: &Checked,
    matrices: Items<Matrix>,
    orders: &Items<Items<u32>>,
) -> Result<Items<AnyStore>, NoMemory>
    requires { CanRun job.now matrices orders.now }
    ensures { IfOk result (HoldsState job.now (entries_in matrices) (first_state matrices)) }
{
    let mut stores = Items::new(alloc);
    for matrix in matrices.into_vec() {
        let number = stores.len();
        stores.push(whole_store(alloc, job, number, matrix, orders.at(number))?)?;
    }
    Ok(stores)
}

/// The store of the whole matrix of an array.
fn whole_store(
    alloc: Global,
    job: &Checked,
    number: usize,
    matrix: Matrix,
    order: &Items<u32>,
) -> Result<AnyStore, NoMemory>
    requires { IsForArray job.now number matrix order.now }
    ensures { IfOk result (BuildsStore job.now number matrix) }
{
    let array = job.arrays.at(number);
    let format = job.formats.at(array.format as usize);
    values_fit(&matrix);
    let globals = all_rows(alloc, matrix.rows)?;
    build(alloc, format, &Part { matrix, globals }, order)
}

/// The rows of a whole matrix, by their numbers.
fn all_rows(alloc: Global, rows: u32) -> Result<Items<u32>, NoMemory>
    ensures { IfOk result (λ all. all ≡ range_with_len 0 rows) }
{
    let mut all = Items::new(alloc);
    for row in 0..rows {
        all.push(row)?;
    }
    Ok(all)
}

/// Does nothing: each value of a matrix fits 64 bits, which contracts learn from the bits alone.
pub fn values_fit(matrix: &Matrix)
    ensures { All (λ e. e.value < 2 ^ 64) matrix.now.entries }
{
    for entry in matrix.entries.as_slice() {
        let _bits = entry.value.bits();
    }
}
