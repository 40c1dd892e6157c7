use bern_base::{Items, Val};

/// The elements of one array that came from one owner for one nest.
#[derive(Debug, Drop)]
pub struct InSet {
    /// The array, by its place among the declared arrays.
    pub array: u32,
    /// The element numbers in the array, rising.
    pub elements: Items<u32>,
    /// The value of each of these elements, in their order.
    pub values: Items<Val>,
}

/// The receive sets of a nest at a rank with their values, by owner and then array.
#[derive(Debug, Drop)]
pub struct Inbox {
    pub sets: Items<InSet>,
}
