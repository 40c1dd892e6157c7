ghost use Rattle.std.specs.Prelude.{◌≡◌, ℕ};
ghost use Rattle.format_model.specs.Axes.{extent_of, index_of};
ghost use Rattle.format_model.specs.Laws.{IsSide};

use bern_base::{Axis, Entry, Matrix};

/// How many lines a matrix has.
pub fn lines_in(axis: Axis, part: &Matrix) -> u32
    requires { IsSide axis }
    ensures { result ≡ extent_of axis part.now.rows part.now.cols }
{
    match axis {
        Axis::Row => part.rows,
        Axis::Col => part.cols,
        Axis::Both => unreachable!(),
    }
}

/// The index of an entry on an axis: its row or its column.
pub fn index_on(axis: Axis, entry: &Entry) -> u32
    requires { IsSide axis }
    ensures { (cols : ℕ) → result ≡ index_of axis cols entry.now }
{
    match axis {
        Axis::Row => entry.row,
        Axis::Col => entry.col,
        Axis::Both => unreachable!(),
    }
}
