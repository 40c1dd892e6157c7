ghost use Rattle.std.specs.Prelude.{◌≡◌, ◌+◌, ◌-◌, ◌≤◌, length, IfOk, IsNone, IfSome};
ghost use Rattle.std.specs.List.{range_with_len};
ghost use Rattle.std.specs.List.Sorted.{IsPermutation};
ghost use Rattle.bern_base.specs.Matrix.{IsMatrix, values_of};
ghost use Rattle.formats.specs.FileRules.{order_in};
ghost use Rattle.formats.specs.Orders.{IsListed, IsOrder};

use crate::checks::check_sizes;
use bern_base::{Items, Matrix, NoMemory, Rule, Val};
use std::alloc::Global;
use thiserror::Error;

/// Why a matrix gives no order of rows.
#[derive(Debug, Drop, Error)]
pub enum OrderError {
    #[error("a rule is broken")]
    Broken(Rule),
    #[error("out of memory")]
    NoMemory,
}

/// The order of the rows of a permute format: for each position the row that stands there, from 0. The matrix has the rows
/// in one column, numbered from 1.
///
/// F1 where it is not `rows` by 1, else F3 where its values, 0 where there is no entry, are not each of 1 to `rows` once.
/// One pass over the entries and one over the rows, with 8 bytes and a mark for each row.
pub fn check_order(alloc: Global, rows: u32, matrix: &Matrix) -> Result<Items<u32>, OrderError>
    requires { IsMatrix matrix.now }
    ensures order { IsOrder rows matrix.now result }
    ensures each_once { IfOk result (λ order. IsPermutation (range_with_len 0 rows) order) }
{
    match check_sizes(rows, 1, matrix) {
        Ok(()) => match matrix.values(alloc) {
            Ok(values) => listed_order(alloc, rows, values.as_slice()),
            Err(NoMemory) => Err(OrderError::NoMemory),
        },
        Err(rule) => Err(OrderError::Broken(rule)),
    }
}

/// The order that is listed by these values, which number the rows from 1.
fn listed_order(alloc: Global, rows: u32, values: &[Val]) -> Result<Items<u32>, OrderError>
    requires { length values.now ≡ rows }
    ensures order { IsListed rows values.now result }
    ensures each_once { IfOk result (λ order. IsPermutation (range_with_len 0 rows) order) }
{
    let Ok(mut listed) = vec![in alloc; false; rows as usize] else {
        return Err(OrderError::NoMemory);
    };
    let mut order = Items::new(alloc);
    'positions: for value in values {
        let Some(row) = row_of(rows, *value) else {
            return Err(OrderError::Broken(Rule::F3));
        };
        if listed[row as usize] {
            return Err(OrderError::Broken(Rule::F3));
        }
        listed[row as usize] = true;
        match order.push(row) {
            Ok(()) => {}
            Err(NoMemory) => return Err(OrderError::NoMemory),
        }
    }
    Ok(order)
}

/// The row that this value names; rows are numbered from 1 there.
fn row_of(rows: u32, value: Val) -> Option<u32>
    ensures some { IfSome result (λ row. (value ≡ row + 1) × (row + 1 ≤ rows)) }
    ensures none { IsNone result → 1 ≤ value → value ≤ rows → ⊥ }
{
    let number = value.bits();
    if number == 0 || number > rows as u64 {
        None
    } else {
        Some((number - 1) as u32)
    }
}
