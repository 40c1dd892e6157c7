ghost use Rattle.std.specs.Prelude.{◌≡◌, true, None, IfOk, IsNone, IfSome, ◌<◌, length};
ghost use Rattle.std.specs.List.{All, AllZip, list_any, position, range_with_len};
ghost use Rattle.std.specs.List.Sorted.{IsPermutation};
ghost use Rattle.bern_base.specs.Matrix.{IsMatrix};
ghost use Rattle.formats.specs.FileRules.{order_rule};
ghost use Rattle.job_files.specs.FileOrder.{IsForUse};
ghost use Rattle.job_files.specs.RowOrders.{HasOrderUse, IsRowOrder, is_order_of};

use crate::mentions::order_of;
use crate::uses::{Use, order_use};
use bern_base::{ArrayDecl, Checked, FormatDecl, Items, Matrix, NoMemory};
use formats::{OrderError, check_order};
use std::alloc::Global;

/// The order of its rows for each array whose format names a file for it, and no row for the others, from the matrices of all
/// uses.
pub(crate) fn row_orders(
    alloc: Global,
    job: &Checked,
    uses: &Items<Use>,
    loaded: &Items<Matrix>,
) -> Result<Items<Items<u32>>, NoMemory>
    requires used { All (HasOrderUse job.now.formats uses.now) job.now.arrays }
    requires loaded { AllZip IsForUse uses.now loaded.now }
    ensures { IfOk result (AllZip (IsRowOrder job.now.formats) job.now.arrays) }
{
    let mut orders = Items::new(alloc);
    for array in job.arrays.as_slice() {
        orders.push(row_order(alloc, &job.formats, array, uses, loaded)?)?;
    }
    Ok(orders)
}

/// The order of an array's rows, or no row.
fn row_order(
    alloc: Global,
    formats: &Items<FormatDecl>,
    array: &ArrayDecl,
    uses: &Items<Use>,
    loaded: &Items<Matrix>,
) -> Result<Items<u32>, NoMemory>
    requires used { HasOrderUse formats.now uses.now array.now }
    requires loaded { AllZip IsForUse uses.now loaded.now }
    ensures { IfOk result (IsRowOrder formats.now array.now) }
{
    match order_of(formats, array) {
        None => Ok(Items::new(alloc)),
        Some(file) => listed_rows(alloc, file.as_bytes(), array.rows, uses, loaded),
    }
}

/// The order of so many rows that the file lists.
fn listed_rows(
    alloc: Global,
    file: &[u8],
    rows: u32,
    uses: &Items<Use>,
    loaded: &Items<Matrix>,
) -> Result<Items<u32>, NoMemory>
    requires used { list_any (is_order_of file.now rows) uses.now ≡ true }
    requires loaded { AllZip IsForUse uses.now loaded.now }
    ensures { IfOk result (IsPermutation (range_with_len 0 rows)) }
{
    match order_use(uses, file, rows) {
        Some(number) => listed_by(alloc, rows, loaded.at(number)),
        None => unreachable!(),
    }
}

/// The order of so many rows that a matrix lists.
fn listed_by(alloc: Global, rows: u32, matrix: &Matrix) -> Result<Items<u32>, NoMemory>
    requires matrix { IsMatrix matrix.now }
    requires fits { order_rule rows matrix.now ≡ None }
    ensures { IfOk result (IsPermutation (range_with_len 0 rows)) }
{
    match check_order(alloc, rows, matrix) {
        Ok(order) => Ok(order),
        Err(OrderError::Broken(_)) => unreachable!(),
        Err(OrderError::NoMemory) => Err(NoMemory),
    }
}
