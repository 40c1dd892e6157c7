ghost use Rattle.std.specs.Prelude.{◌≡◌};
ghost use Rattle.std.specs.List.{list_any};
ghost use Rattle.std.specs.Result.{result_err};
ghost use Rattle.format_model.specs.Checks.{is_astray, shape_rule, sizes_rule};
ghost use Rattle.formats.specs.FileRules.{diagonals_rule};
ghost use Rattle.format_model.specs.Stored.{is_on_diagonal};

use bern_base::{ArrayDecl, Entry, FormatDecl, Matrix, Rule, Shape};

/// Whether a matrix has an array's form: F1 where its sizes are not the array's rows and columns, else F2 where the format
/// is diagonal and an entry off the listed diagonals has a value that is not 0. It takes no memory.
pub fn check_shape(decl: &ArrayDecl, format: &FormatDecl, matrix: &Matrix) -> Result<(), Rule>
    ensures { result_err result ≡ shape_rule decl.now format.now matrix.now }
{
    check_sizes(decl.rows, decl.cols, matrix)?;
    match &format.shape {
        Shape::Diagonal(offsets) => check_astray(offsets.as_slice(), matrix),
        _ => Ok(()),
    }
}

/// F1 where a matrix has other sizes than these. It takes no memory.
pub fn check_sizes(rows: u32, cols: u32, matrix: &Matrix) -> Result<(), Rule>
    ensures { result_err result ≡ sizes_rule rows cols matrix.now }
{
    if matrix.rows == rows && matrix.cols == cols {
        Ok(())
    } else {
        Err(Rule::F1)
    }
}

/// F2 where an entry off the diagonals of these offsets has a value that is not 0. It takes no memory.
pub fn check_astray(offsets: &[i64], matrix: &Matrix) -> Result<(), Rule>
    ensures { result_err result ≡ diagonals_rule offsets.now matrix.now }
{
    if any_astray(offsets, matrix.entries.as_slice()) {
        Err(Rule::F2)
    } else {
        Ok(())
    }
}

fn any_astray(offsets: &[i64], entries: &[Entry]) -> bool
    ensures { result ≡ list_any (is_astray offsets.now) entries.now }
{
    entries.iter().any(|entry| is_astray(offsets, entry))
}

/// Whether an entry off the diagonals of these offsets has a value that is not 0.
fn is_astray(offsets: &[i64], entry: &Entry) -> bool
    ensures { result ≡ is_astray offsets.now entry.now }
{
    entry.value.bits() != 0 && !is_on_diagonal(offsets, entry.row, entry.col)
}

fn is_on_diagonal(offsets: &[i64], row: u32, col: u32) -> bool
    ensures { result ≡ is_on_diagonal offsets.now row col }
{
    let offset = col as i64 - row as i64;
    offsets.iter().any(|listed| offset == *listed)
}
