ghost use Rattle.std.specs.Prelude.{◌≡◌};
ghost use Rattle.format_model.specs.Axes.{across, extent_of, index_of, same_axis};

use bern_base::{Axis, Entry};

/// The axis across this one: columns across rows, and rows across columns.
pub fn across(axis: Axis) -> Axis
    ensures { result ≡ across axis }
{
    match axis {
        Axis::Row => Axis::Col,
        Axis::Col => Axis::Row,
        Axis::Both => Axis::Both,
    }
}

pub fn is_same_axis(one: Axis, other: Axis) -> bool
    ensures { result ≡ same_axis one other }
{
    one == other
}

/// How many indices an axis has in an array of so many rows and columns.
pub fn extent_of(axis: Axis, rows: u32, cols: u32) -> u64
    ensures { result ≡ extent_of axis rows cols }
{
    match axis {
        Axis::Row => rows as u64,
        Axis::Col => cols as u64,
        Axis::Both => rows as u64 * cols as u64,
    }
}

/// The index of an entry on an axis, in a matrix with this many columns.
pub fn index_of(axis: Axis, cols: u32, entry: &Entry) -> u64
    ensures { result ≡ index_of axis cols entry.now }
{
    match axis {
        Axis::Row => entry.row as u64,
        Axis::Col => entry.col as u64,
        Axis::Both => entry.number(cols),
    }
}
