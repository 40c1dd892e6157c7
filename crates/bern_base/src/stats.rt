use crate::axes::Axis;
use crate::items::Items;

/// What a join order is chosen by at one level of a stored array.
#[derive(Clone, Copy, Debug, PartialEq, Eq)]
pub struct LevelStat {
    /// What the indices of the level are: rows, columns, or both as the element number.
    pub axis: Axis,
    /// Whether the indices below each parent rise.
    pub ordered: bool,
    /// About how many children a parent has.
    pub estimate: u64,
    /// About how many steps a search below a parent takes.
    pub weight: u64,
}

/// The levels of a stored array, the outer one first. They are those of the whole matrix, so all ranks choose alike.
#[derive(Debug, Drop)]
pub struct Stats {
    pub levels: Items<LevelStat>,
}
