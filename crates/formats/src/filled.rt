ghost use Rattle.std.specs.Prelude.{◌≡◌, IfOk, length, map};
ghost use Rattle.std.specs.List.{filter};
ghost use Rattle.bern_base.specs.Matrix.{IsMatrix};
ghost use Rattle.format_model.specs.Content.{all_lines, filled_lines, is_filled};

use bern_base::{Axis, Matrix, NoMemory};
use format_model::{extent_of, index_of};
use std::alloc::Global;

/// How many lines of an axis have an entry. One pass over the entries and one over the lines, with a byte for each line.
pub fn filled_lines(alloc: Global, axis: Axis, matrix: &Matrix) -> Result<u64, NoMemory>
    requires { IsMatrix matrix.now }
    ensures { IfOk result (λ n. n ≡ length (filled_lines axis matrix.now)) }
{
    let filled = marks(alloc, axis, matrix)?;
    Ok(count_true(filled.as_slice()) as u64)
}

fn count_true(marks: &[bool]) -> usize
    ensures { result ≡ length (filter (λ mark. mark) marks.now) }
{
    marks.iter().filter(|mark| **mark).count()
}

/// For each line of an axis whether it has an entry.
fn marks(alloc: Global, axis: Axis, matrix: &Matrix) -> Result<Vec<bool>, NoMemory>
    requires { IsMatrix matrix.now }
    ensures { IfOk result (λ marks. marks.items ≡ map (is_filled axis matrix.now.cols matrix.now.entries) (all_lines axis matrix.now)) }
{
    let lines = extent_of(axis, matrix.rows, matrix.cols);
    let mut filled = vec![in alloc; false; lines as usize]?;
    for entry in matrix.entries.as_slice() {
        let line = index_of(axis, matrix.cols, entry) as usize;
        filled[line] = true;
    }
    Ok(filled)
}
