ghost use Rattle.std.specs.Prelude.{◌≡◌, ◌+◌, ◌-◌, ◌^◌, ◌<◌, ◌++◌, IsTrue};
ghost use Rattle.mm_profile.specs.Places.{first_row, column_from, columns, places};
ghost use Rattle.mm_text.specs.Cursor.{due_list, is_due};

use mm_profile::{Format, Head, Symmetry};

/// The places for which entry lines are due.
#[derive(Clone, Copy)]
pub(crate) enum Due {
    /// So many lines that name their places.
    Lines(u32),
    /// This place and all listed ones after it.
    Listed { row: u32, col: u32 },
}

/// The first row that an array file lists of a column.
fn first_row(symmetry: Symmetry, col: u32) -> u32
    requires { col + 1 < 2 ^ 32 }
    ensures { result ≡ first_row symmetry col }
{
    match symmetry {
        Symmetry::General => 0,
        Symmetry::Symmetric => col,
        Symmetry::Skew => col + 1,
    }
}

/// The places of the columns from this one on.
fn due_from(head: &Head, col: u32) -> Due
    ensures places { due_list head.now result ≡ columns head.now col (head.now.cols - col) }
    ensures within { IsTrue (is_due head.now result) }
{
    if col >= head.cols {
        return Due::Lines(0);
    }
    let row = first_row(head.kind.symmetry, col);
    if row >= head.rows {
        // First rows never fall, so no later column lists a place either.
        return Due::Lines(0);
    }
    Due::Listed { row, col }
}

/// The places after a listed one.
pub(crate) fn due_after(head: &Head, row: u32, col: u32) -> Due
    requires row { row < head.now.rows }
    requires col { col < head.now.cols }
    ensures places { due_list head.now result ≡
        column_from head.now.rows (row + 1) col ++ columns head.now (col + 1) (head.now.cols - (col + 1)) }
    ensures within { IsTrue (is_due head.now result) }
{
    let (rows, _cols) = (head.rows, head.cols);
    if row + 1 < rows {
        return Due::Listed { row: row + 1, col };
    }
    due_from(head, col + 1)
}

/// All places of a file.
pub(crate) fn all_due(head: &Head) -> Due
    ensures places { due_list head.now result ≡ places head.now }
    ensures within { IsTrue (is_due head.now result) }
{
    match head.kind.format {
        Format::Coordinate => Due::Lines(head.stated),
        Format::Array => due_from(head, 0),
    }
}
