use crate::names::Named;
use crate::sums::Sum;
use bern_base::Items;

/// A loop variable's bounds.
#[derive(Drop)]
pub(crate) struct ResolvedSpan {
    pub(crate) lo: Sum,
    pub(crate) hi: Sum,
}

/// The two sides of a guard.
#[derive(Drop)]
pub(crate) struct ResolvedGuard {
    pub(crate) left: Sum,
    pub(crate) right: Sum,
}

/// A reference with what its array's name stands for.
#[derive(Drop)]
pub(crate) struct ResolvedRef {
    pub(crate) array: Option<Named>,
    /// How many subscripts it has.
    pub(crate) subs: usize,
    pub(crate) row: Sum,
    /// 0 where there is one subscript.
    pub(crate) col: Sum,
}

/// A nest with its names looked up, before any limit is known.
#[derive(Drop)]
pub(crate) struct ResolvedNest {
    /// How many names its variables have.
    pub(crate) names: usize,
    pub(crate) spans: Items<ResolvedSpan>,
    pub(crate) guards: Items<ResolvedGuard>,
    pub(crate) target: ResolvedRef,
    /// The references of its body, in order.
    pub(crate) reads: Items<ResolvedRef>,
}
