ghost use Rattle.std.specs.Prelude.{◌≡◌, ◌+◌, ◌<◌, ◌≤◌, IfSome, IsNone};
ghost use Rattle.job_files.specs.Weight.{array_weight, weight_of};

use crate::format_weights::shape_weight;
use bern_base::{ArrayDecl, Checked, FormatDecl, Items, MOST_WEIGHT};

/// What the arrays of a job weigh without files on so many ranks, or nothing where that is above `MOST_WEIGHT`. It takes
/// no memory, and time linear in the arrays and their diagonals.
pub fn weight_within(job: &Checked, ranks: u32) -> Option<u64>
    ensures some { IfSome result (λ w. (w ≡ weight_of job.now ranks) × (w ≤ MOST_WEIGHT)) }
    ensures none { IsNone result → MOST_WEIGHT < weight_of job.now ranks }
{
    let mut weight = 0;
    'arrays: for array in job.arrays.as_slice() {
        match weight_with(weight, array_weight(&job.formats, ranks, array)) {
            Some(sum) => weight = sum,
            None => return None,
        }
    }
    Some(weight)
}

/// The weight with so much more, where it is at most `MOST_WEIGHT`.
pub fn weight_with(weight: u64, more: u128) -> Option<u64>
    requires { weight ≤ MOST_WEIGHT }
    ensures some { IfSome result (λ w. (w ≡ weight + more) × (w ≤ MOST_WEIGHT)) }
    ensures none { IsNone result → MOST_WEIGHT < weight + more }
{
    if more > (MOST_WEIGHT - weight) as u128 {
        None
    } else {
        Some(weight + more as u64)
    }
}

/// What an array weighs; without a format it weighs nothing.
fn array_weight(formats: &Items<FormatDecl>, ranks: u32, array: &ArrayDecl) -> u128
    ensures { result ≡ array_weight formats.now ranks array.now }
{
    match formats.get(array.format as usize) {
        Some(format) => shape_weight(&format.shape, ranks, array),
        None => 0,
    }
}
