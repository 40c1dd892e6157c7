use crate::kinds::Kind;

/// What line 1 and the size line say of a file.
#[derive(Clone, Copy, Debug, PartialEq, Eq)]
pub struct Head {
    pub kind: Kind,
    pub rows: u32,
    pub cols: u32,
    /// The stated number of entries; of an array file the number of its elements.
    pub stated: u32,
}
