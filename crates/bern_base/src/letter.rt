use crate::items::Items;
use crate::val::Val;

/// The elements of one array that a rank needs from one owner for one nest.
#[derive(Debug, Drop)]
pub struct NeedSet {
    /// The nest, from 0.
    pub nest: u32,
    /// The rank that owns the elements.
    pub owner: u32,
    /// The array, by its place among the declared arrays.
    pub array: u32,
    /// The element numbers, rising.
    pub elements: Items<u32>,
}

/// All that a rank needs from others, by nest, owner and array; no set is empty.
#[derive(Debug, Drop)]
pub struct Needs {
    pub sets: Items<NeedSet>,
}

/// What one rank sends to another.
#[derive(Debug, Drop)]
pub enum Letter {
    /// Which elements the sender needs from the receiver.
    Request(Needs),
    /// The values that the receiver asked for, in one turn, in the order of the request. A turn is one execution of a nest;
    /// its number is its place in the job's `turns`, from 0.
    Values { turn: u32, values: Items<Val> },
}
