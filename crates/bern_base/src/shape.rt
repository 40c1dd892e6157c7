ghost use Rattle.std.specs.Prelude.{◌≡◌};
ghost use Rattle.bern_base.specs.Shapes.{dims_of, is_all_dense, is_sparse, is_by_row};

use crate::axes::Axis;
use crate::items::Items;
use crate::text::Text;

/// The levels of a format, the outer one first; an axis is that of the outer level, `Row` or `Col`.
#[derive(Debug, Drop)]
pub enum Shape {
    /// `row dense`: a vector, every element stored.
    DenseOne,
    /// `row packed`: a sparse vector, its entries by rising index.
    PackedOne,
    /// `row list`: a sparse vector as a coordinate list, searched from its front.
    ListOne,
    /// `row dense > col dense`, or by columns: a full matrix, row-major or column-major.
    DenseDense(Axis),
    /// `row dense > col packed`, or by columns: compressed sparse rows (CSR) or columns (CSC).
    DensePacked(Axis),
    /// `row packed > col packed`, or by columns: doubly compressed rows (DCSR) or columns, empty lines left out.
    PackedPacked(Axis),
    /// `row col list`: a coordinate list (COO).
    ListTwo,
    /// `jagged`: jagged diagonals (JDS), rows by falling number of entries.
    Jagged,
    /// `diagonal`: the diagonals (DIA) of these offsets (column minus row), rising.
    Diagonal(Items<i64>),
    /// `permute`: compressed sparse rows, in the order that the file of this name lists.
    Permute(Text),
}

impl Shape {
    /// How many extents an array of the shape has: 1 or 2.
    pub fn dims(&self) -> u32
        ensures { result ≡ dims_of self.now }
    {
        match self {
            Shape::DenseOne | Shape::PackedOne | Shape::ListOne => 1,
            _ => 2,
        }
    }

    /// Whether all levels are dense, so that every element is stored.
    pub fn is_all_dense(&self) -> bool
        ensures { result ≡ is_all_dense self.now }
    {
        match self {
            Shape::DenseOne | Shape::DenseDense(_) => true,
            _ => false,
        }
    }

    /// Whether some element may be left out: not all levels are dense.
    pub fn is_sparse(&self) -> bool
        ensures { result ≡ is_sparse self.now }
    {
        !self.is_all_dense()
    }

    /// Whether an array of the shape can be dealt by rows alone: the shape is stored around its rows.
    pub fn is_by_row(&self) -> bool
        ensures { result ≡ is_by_row self.now }
    {
        match self {
            Shape::Jagged | Shape::Diagonal(_) | Shape::Permute(_) => true,
            _ => false,
        }
    }
}
