ghost use Rattle.std.specs.Prelude.{◌≡◌, ◌≢◌, ◌<◌, ◌*◌, ◌^◌, true};
ghost use Rattle.bern_base.specs.declared.axes.Axis.TheVariants as axis_is;
ghost use Rattle.stores_flat.specs.Dense.{is_single, outer_of, place_of, rows_of, cols_of};

use bern_base::Axis;

/// How the elements of a part lie in memory: one to a line, row after row, or column after column.
#[derive(Clone, Copy, Debug, PartialEq, Eq)]
pub enum Layout {
    Single,
    RowMajor,
    ColMajor,
}

impl Layout {
    /// The layout whose lines lie on this axis.
    pub fn of(axis: Axis, single: bool) -> Layout
        requires axis { axis ≢ axis_is.Both }
        requires single { single ≡ true → axis ≡ axis_is.Row }
        ensures single { is_single result ≡ single }
        ensures outer { outer_of result ≡ axis }
    {
        match axis {
            Axis::Col => Layout::ColMajor,
            _ if single => Layout::Single,
            _ => Layout::RowMajor,
        }
    }

    /// How many lines a part of these sizes has, and of how many elements.
    pub fn extents(self, rows: u32, cols: u32) -> (u32, u32)
        ensures rows { rows_of self result.0 result.1 ≡ rows }
        ensures cols { cols_of self result.0 result.1 ≡ cols }
    {
        match self {
            Layout::ColMajor => (cols, rows),
            _ => (rows, cols),
        }
    }

    /// Where the element of a number lies among `lines` lines of `width` elements.
    pub fn place(self, lines: u32, width: u32, element: u32) -> u32
        requires few { lines * width < 2 ^ 32 }
        requires within { element < lines * width }
        ensures place { result ≡ place_of self lines width element }
        ensures within { result < lines * width }
    {
        match self {
            Layout::ColMajor => element % lines * width + element / lines,
            _ => element,
        }
    }
}
