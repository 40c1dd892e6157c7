use crate::affine::Affine;
use crate::axes::Axis;
use crate::items::Items;
use crate::raw::Rel;
use crate::shape::Shape;
use crate::text::Text;
use crate::val::Val;

/// A job that keeps all rules, with numbers for names. Each number is a place in one of its own lists, from 0.
#[derive(Debug, Drop)]
pub struct Checked {
    pub extents: Items<ExtentDecl>,
    pub places: Items<PlaceDecl>,
    pub formats: Items<FormatDecl>,
    pub arrays: Items<ArrayDecl>,
    /// The loop nests in the order of their lines.
    pub nests: Items<Nest>,
    /// The turns: the numbers of the nests in the order in which they are done.
    pub turns: Items<u32>,
    /// The arrays to print.
    pub prints: Items<u32>,
}

/// An extent: how many indices an axis has.
#[derive(Debug, Drop)]
pub struct ExtentDecl {
    pub name: Text,
    pub size: u32,
}

/// A place deals the indices of an extent to the ranks.
#[derive(Debug, Drop)]
pub struct PlaceDecl {
    pub name: Text,
    /// The extent, by its number.
    pub extent: u32,
    pub kind: PlaceKind,
    /// How many arrays are declared before it: the job mentions their files before the file of the place.
    pub arrays_before: usize,
}

/// How a place deals indices.
#[derive(Debug, Drop)]
pub enum PlaceKind {
    /// One block for each rank, all of the least length for which they cover the extent.
    Block,
    /// Round after round, this many indices at a time.
    Cyclic(u32),
    /// As the file of this name lists it.
    Listed(Text),
}

/// A format: how an array is stored.
#[derive(Debug, Drop)]
pub struct FormatDecl {
    pub name: Text,
    pub shape: Shape,
}

/// An array. One of a single extent has one column.
#[derive(Debug, Drop)]
pub struct ArrayDecl {
    pub name: Text,
    /// 1 or 2.
    pub dims: u32,
    pub rows: u32,
    pub cols: u32,
    /// The format, by its number.
    pub format: u32,
    /// The axis along which the place splits the array, `Row` or `Col`.
    pub axis: Axis,
    /// The place, by its number.
    pub place: u32,
    /// The file with the first values; without one they are 0.
    pub file: Option<Text>,
}

/// An element of an array, by its row and its column at a point. In an array of one extent `col` is 0 everywhere.
#[derive(Debug, Drop)]
pub struct Ref {
    pub array: u32,
    pub row: Affine,
    pub col: Affine,
}

/// A comparison that a point must meet to be visited: `left`, which is the left sum minus the right sum, with 0.
#[derive(Debug, Drop)]
pub struct Guard {
    pub left: Affine,
    pub rel: Rel,
}

/// A loop variable and its values, `lo` to `hi - 1`.
#[derive(Debug, Drop)]
pub struct Span {
    pub name: Text,
    pub lo: i64,
    pub hi: i64,
}

/// A sum of signed products of values.
#[derive(Debug, Drop)]
#[cycle(value_expr)]
pub struct Expr {
    pub sums: Items<Product>,
}

/// A product with its sign.
#[derive(Debug, Drop)]
#[cycle(value_expr)]
pub struct Product {
    pub minus: bool,
    pub factors: Items<Factor>,
}

#[derive(Debug, Drop)]
#[cycle(value_expr)]
pub enum Factor {
    Num(Val),
    Read(Ref),
    Group(Expr),
}

/// A loop nest. At each point of its box that meets the guards the target becomes the value of `body`, or grows by it.
#[derive(Debug, Drop)]
pub struct Nest {
    /// Its line in the job, from 1.
    pub line: u64,
    /// The loop variables, at most four, the slowest first.
    pub vars: Items<Span>,
    pub guards: Items<Guard>,
    pub target: Ref,
    /// Whether the target becomes the value; else it grows by it.
    pub replace: bool,
    pub body: Expr,
}
