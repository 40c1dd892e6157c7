use bern_base::{Items, Ref, Val};

/// A product of an expression that was multiplied out: a factor, and the references that are read.
#[derive(Debug, Drop)]
pub struct Term {
    /// The product of its numbers, negated where an odd number of its products have a minus.
    pub factor: Val,
    /// The references to arrays that are stored whole, in order.
    pub dense: Items<Ref>,
    /// The other references, in order.
    pub sparse: Items<Ref>,
}
