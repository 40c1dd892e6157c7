use bern_base::Axis;

/// Which levels a packed store has.
#[derive(Clone, Copy, Debug, PartialEq, Eq)]
pub enum Form {
    /// One packed level, of rows.
    PackedOne,
    /// A dense level of so many lines over a packed one.
    DensePacked { outer: Axis, lines: u32 },
    /// A packed level over a packed one: the lines that have an entry.
    PackedPacked { outer: Axis },
}
