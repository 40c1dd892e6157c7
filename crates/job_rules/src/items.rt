use crate::names::Named;

/// What the name of an item stands for.
#[derive(Clone, Copy, Debug, PartialEq, Eq)]
pub(crate) enum Meaning {
    /// The item has no name.
    Number,
    Unknown,
    Name(Named),
}

/// An item of a sum, its name looked up: a signed number, where an extent's size is multiplied in, or so many of a variable.
#[derive(Clone, Copy, Debug, PartialEq, Eq)]
pub(crate) struct Item {
    pub(crate) number: i128,
    pub(crate) meaning: Meaning,
}
