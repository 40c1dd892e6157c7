/// Where the value of a dense reference at a boundary point stands.
#[derive(Clone, Copy, Debug, PartialEq, Eq)]
pub enum Slot {
    /// An element of the rank's own part of the array, by its number in the part.
    Own { element: u32 },
    /// A place in one of the receive sets of the nest, which are counted by owner and then array.
    Came { set: u32, place: u32 },
}

/// What the pass over boundary points needs of one of them: 68 bytes.
#[derive(Clone, Copy, Debug, PartialEq, Eq)]
pub struct Recorded {
    /// The element of the target, by its number in the rank's part.
    pub target: u32,
    /// The value of each dense reference of the term; unused ones are `Own { element: 0 }`.
    pub slots: [Slot; 4],
    /// The leaf of each sparse reference of the term.
    pub leaves: [u32; 4],
}
