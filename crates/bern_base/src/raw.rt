use crate::axes::Axis;
use crate::items::Items;
use crate::text::Text;

/// The lines of a job up to the first one that has no form.
#[derive(Debug, Drop)]
pub struct JobText {
    /// The forms before the broken line, or all; lines without words are left out.
    pub lines: Items<JobLine>,
    /// The number of the first line without a form, if there is one.
    pub broken: Option<u64>,
}

/// A line of a job and its form.
#[derive(Debug, Drop)]
pub struct JobLine {
    /// The line's number, from 1, among all lines of the text.
    pub number: u64,
    pub form: Form,
}

/// What a line of a job says, before any name is looked up.
#[derive(Debug, Drop)]
pub enum Form {
    Extent {
        name: Text,
        size: u64,
    },
    Place {
        name: Text,
        extent: Text,
        kind: RawKind,
    },
    Format {
        name: Text,
        shape: RawShape,
    },
    /// An array of one or two extents, its format, the axis by which its place splits it, and its file, or none for zeros.
    Array {
        name: Text,
        extents: Items<Text>,
        format: Text,
        axis: Axis,
        place: Text,
        file: Option<Text>,
    },
    Nest(RawNest),
    Print {
        name: Text,
    },
}

/// How a place deals the indices of its extent to the ranks.
#[derive(Debug, Drop)]
pub enum RawKind {
    Block,
    /// Round after round, this many indices at a time.
    Cyclic(u64),
    /// As the file of this name lists it.
    Listed(Text),
}

/// The levels of a format; an axis is that of the outer level, `Row` or `Col`.
#[derive(Debug, Drop)]
pub enum RawShape {
    DenseOne,
    PackedOne,
    ListOne,
    DenseDense(Axis),
    DensePacked(Axis),
    PackedPacked(Axis),
    ListTwo,
    Jagged,
    /// The offsets (column minus row) of the stored diagonals, rising.
    Diagonal(Items<i128>),
    /// Rows in the order that the file of this name lists.
    Permute(Text),
}

/// A loop nest: `doany vars where guards : target = body`, or with `+=`.
#[derive(Debug, Drop)]
pub struct RawNest {
    pub vars: Items<RawVar>,
    pub guards: Items<RawGuard>,
    pub target: RawRef,
    /// Whether the sign is `=`.
    pub replace: bool,
    pub body: RawExpr,
}

/// A loop variable, from its first bound to one below its second.
#[derive(Debug, Drop)]
pub struct RawVar {
    pub name: Text,
    pub lo: RawSum,
    pub hi: RawSum,
}

/// A comparison that a point must meet to be visited.
#[derive(Debug, Drop)]
pub struct RawGuard {
    pub left: RawSum,
    pub rel: Rel,
    pub right: RawSum,
}

/// How two sums are compared.
#[derive(Clone, Copy, Debug, PartialEq, Eq)]
pub enum Rel {
    Lt,
    Le,
    Gt,
    Ge,
    Eq,
    Ne,
}

/// A sum of items, as bounds, guards and subscripts have it.
#[derive(Debug, Drop)]
pub struct RawSum {
    pub items: Items<RawItem>,
}

/// A signed number, or a signed multiple of a name: of a variable, or of an extent, which stands for its size.
#[derive(Debug, Drop)]
pub struct RawItem {
    pub minus: bool,
    /// 1 where the name stands alone.
    pub number: u64,
    pub name: Option<Text>,
}

/// An element of an array, by one subscript or two.
#[derive(Debug, Drop)]
pub struct RawRef {
    pub name: Text,
    pub subs: Items<RawSum>,
}

/// A sum of signed products of values.
#[derive(Debug, Drop)]
#[cycle(expr)]
pub struct RawExpr {
    pub sums: Items<RawProduct>,
}

/// A product with its sign.
#[derive(Debug, Drop)]
#[cycle(expr)]
pub struct RawProduct {
    pub minus: bool,
    pub factors: Items<RawFactor>,
}

#[derive(Debug, Drop)]
#[cycle(expr)]
pub enum RawFactor {
    Num(u64),
    Read(RawRef),
    Group(RawExpr),
}
