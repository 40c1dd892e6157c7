ghost use Rattle.std.specs.Prelude.{◌≡◌, ℕ, ◌^◌, ◌<◌, ◌==◌, ◌++◌, [], IfOk, OnOk, length, None, slice_index_or, position};
ghost use Rattle.std.specs.List.{All, cons_option};
ghost use Rattle.format_model.specs.Content.{local_rows};
ghost use Rattle.stores_shaped.specs.Orders.{IsInverse, IsOrder};

use bern_base::{Items, NoMemory};
use std::alloc::Global;

/// The inverse of an order: for each row the place that it has there. One pass.
pub fn order_inverse(alloc: Global, order: &Items<u32>) -> Result<Items<u32>, NoMemory>
    requires { IsOrder order.now }
    ensures { IfOk result (λ inverse. IsInverse order.now inverse) }
{
    let rows = order.as_slice();
    let mut inverse = vec![in alloc; 0; rows.len()]?;
    'placing: for place in 0..rows.len() {
        inverse[rows[place] as usize] = place as u32;
    }
    Ok(Items::from_vec(inverse))
}

/// The rows of a part by their local numbers, in the order in which the whole `order` has them. `globals` has the row of the
/// array for each local row. One pass over each.
pub fn local_order(
    alloc: Global,
    globals: &Items<u32>,
    order: &Items<u32>,
) -> Result<Items<u32>, NoMemory>
    requires few { length globals.now < 2 ^ 32 }
    requires within { All (λ g. g < length order.now) globals.now }
    requires order { All (λ row. row < length order.now) order.now }
    ensures { IfOk result (λ local. local ≡ local_rows globals.now order.now) }
{
    let rows = order.as_slice();
    let locals = local_numbers(alloc, globals, rows.len())?;
    let mut local = Vec::with_capacity(alloc, globals.len())?;
    'keeping: for row in rows {
        push_some(&mut local, locals[*row as usize])?;
    }
    Ok(Items::from_vec(local))
}

/// Appends a number, where there is one.
fn push_some(numbers: &mut Vec<u32>, number: Option<u32>) -> Result<(), NoMemory>
    ensures { OnOk result (numbers.new.items ≡ numbers.old.items ++ cons_option number []) }
{
    if let Some(number) = number {
        numbers.push(number)?;
    }
    Ok(())
}

/// The local number of each row of the array, where the part has the row.
fn local_numbers(
    alloc: Global,
    globals: &Items<u32>,
    rows: usize,
) -> Result<Vec<Option<u32>>, NoMemory>
    requires few { length globals.now < 2 ^ 32 }
    requires within { All (λ g. g < rows) globals.now }
    ensures long { IfOk result (λ locals. length locals.items ≡ rows) }
    ensures numbers { IfOk result (λ locals. (row : ℕ) → row < rows →
        slice_index_or locals.items row None ≡ position (λ g. g == row) globals.now) }
{
    let globals = globals.as_slice();
    let mut locals = vec![in alloc; None; rows]?;
    let mut left = globals.len();
    'numbering: while left > 0 {
        left -= 1;
        locals[globals[left] as usize] = Some(left as u32);
    }
    Ok(locals)
}
