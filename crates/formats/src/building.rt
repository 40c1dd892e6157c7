ghost use Rattle.std.specs.Prelude.{◌≡◌, ℕ, List, Some, None, IfOk, false};
ghost use Rattle.bern_base.specs.declared.axes.Axis.TheVariants as axis;
ghost use Rattle.bern_base.specs.declared.shape.Shape.TheVariants as shape;
ghost use Rattle.format_model.specs.Trees.{Describes};
ghost use Rattle.formats.specs.Builds.{CanBuild, CanDense, CanDiagonal, CanList, CanPack, CanPermute, part_grid};
ghost use Rattle.stores_flat.specs.Dense.{dense_shape, grid_of};
ghost use Rattle.stores_flat.specs.Lists.{flat_shape};
ghost use Rattle.stores_packed.specs.Packed.{packed_shape};

use crate::any_store::AnyStore;
use access_joins::{Access, Cells};
use bern_base::{Axis, FormatDecl, Items, Matrix, NoMemory, Shape};
use placement::Part;
use std::alloc::Global;
use stores_flat::{DenseStore, ListStore};
use stores_packed::PackedStore;
use stores_shaped::{DiagonalStore, JaggedStore, PermutedStore};

/// The store of a part in a format, row and column indices being the part's own. `order` is the order of all rows of the
/// array for a permute format, and is not looked at otherwise.
///
/// Entries are not held twice: the store takes at most 12 bytes an entry (16 in a list of two-dimensional entries), 4 a line
/// of a dense outer level, 8 a line of a packed one, 12 a row of a jagged, diagonal or permute format, and 8 an element where
/// all levels are dense or on the listed diagonals. Linear in the entries, and in the lines or elements of dense levels, but for
/// one sort of a jagged format's rows.
pub fn build(
    alloc: Global,
    format: &FormatDecl,
    part: &Part,
    order: &Items<u32>,
) -> Result<AnyStore, NoMemory>
    requires { CanBuild format.now.shape part.now.globals order.now part.now.matrix }
    ensures describes { IfOk result (λ s.
        Describes (⟦<AnyStore as Access>⟧.tree s) format.now.shape part.now.globals order.now part.now.matrix) }
    ensures grid { IfOk result (λ s. ⟦<AnyStore as Cells>⟧.grid s ≡ part_grid format.now.shape part.now.matrix) }
{
    let matrix = &part.matrix;
    match &format.shape {
        Shape::DenseOne => dense(alloc, matrix, Axis::Row, true),
        Shape::DenseDense(outer) => dense(alloc, matrix, *outer, false),
        Shape::ListOne => list(alloc, matrix, false),
        Shape::ListTwo => list(alloc, matrix, true),
        Shape::PackedOne => packed(alloc, matrix, Axis::Row, false, true),
        Shape::DensePacked(outer) => packed(alloc, matrix, *outer, true, false),
        Shape::PackedPacked(outer) => packed(alloc, matrix, *outer, false, false),
        Shape::Jagged => jagged(alloc, matrix),
        Shape::Diagonal(offsets) => diagonal(alloc, matrix, &part.globals, offsets),
        Shape::Permute(_) => permuted(alloc, matrix, &part.globals, order),
    }
}

fn dense(alloc: Global, part: &Matrix, outer: Axis, single: bool) -> Result<AnyStore, NoMemory>
    requires can { CanDense outer single part.now }
    ensures describes { IfOk result (λ s. (globals order : List ℕ) →
        Describes (⟦<AnyStore as Access>⟧.tree s) (dense_shape single outer) globals order part.now) }
    ensures grid { IfOk result (λ s. ⟦<AnyStore as Cells>⟧.grid s ≡ Some (grid_of single outer part.now)) }
{
    match DenseStore::build(alloc, part, outer, single) {
        Ok(store) => Ok(AnyStore::Dense(store)),
        Err(NoMemory) => Err(NoMemory),
    }
}

fn list(alloc: Global, part: &Matrix, flat: bool) -> Result<AnyStore, NoMemory>
    requires can { CanList flat part.now }
    ensures describes { IfOk result (λ s. (globals order : List ℕ) →
        Describes (⟦<AnyStore as Access>⟧.tree s) (flat_shape flat) globals order part.now) }
    ensures grid { IfOk result (λ s. ⟦<AnyStore as Cells>⟧.grid s ≡ None) }
{
    match ListStore::build(alloc, part, flat) {
        Ok(store) => Ok(AnyStore::List(store)),
        Err(NoMemory) => Err(NoMemory),
    }
}

fn packed(
    alloc: Global,
    part: &Matrix,
    outer: Axis,
    outer_dense: bool,
    single: bool,
) -> Result<AnyStore, NoMemory>
    requires can { CanPack outer single part.now }
    ensures describes { IfOk result (λ s. (globals order : List ℕ) →
        Describes (⟦<AnyStore as Access>⟧.tree s) (packed_shape outer outer_dense single) globals order part.now) }
    ensures grid { IfOk result (λ s. ⟦<AnyStore as Cells>⟧.grid s ≡ None) }
{
    match PackedStore::build(alloc, part, outer, outer_dense, single) {
        Ok(store) => Ok(AnyStore::Packed(store)),
        Err(NoMemory) => Err(NoMemory),
    }
}

fn jagged(alloc: Global, part: &Matrix) -> Result<AnyStore, NoMemory>
    requires can { CanPack axis.Row false part.now }
    ensures describes { IfOk result (λ s. (globals order : List ℕ) →
        Describes (⟦<AnyStore as Access>⟧.tree s) shape.Jagged globals order part.now) }
    ensures grid { IfOk result (λ s. ⟦<AnyStore as Cells>⟧.grid s ≡ None) }
{
    match JaggedStore::build(alloc, part) {
        Ok(store) => Ok(AnyStore::Jagged(store)),
        Err(NoMemory) => Err(NoMemory),
    }
}

fn diagonal(
    alloc: Global,
    part: &Matrix,
    globals: &Items<u32>,
    offsets: &Items<i64>,
) -> Result<AnyStore, NoMemory>
    requires can { CanDiagonal offsets.now globals.now part.now }
    ensures describes { IfOk result (λ s. (order : List ℕ) →
        Describes (⟦<AnyStore as Access>⟧.tree s) (shape.Diagonal offsets.now) globals.now order part.now) }
    ensures grid { IfOk result (λ s. ⟦<AnyStore as Cells>⟧.grid s ≡ None) }
{
    match DiagonalStore::build(alloc, part, globals, offsets) {
        Ok(store) => Ok(AnyStore::Diagonal(store)),
        Err(NoMemory) => Err(NoMemory),
    }
}

fn permuted(
    alloc: Global,
    part: &Matrix,
    globals: &Items<u32>,
    order: &Items<u32>,
) -> Result<AnyStore, NoMemory>
    requires can { CanPermute globals.now order.now part.now }
    ensures describes { IfOk result (λ s. (file : List ℕ) →
        Describes (⟦<AnyStore as Access>⟧.tree s) (shape.Permute file) globals.now order.now part.now) }
    ensures grid { IfOk result (λ s. ⟦<AnyStore as Cells>⟧.grid s ≡ None) }
{
    match PermutedStore::build(alloc, part, globals, order) {
        Ok(store) => Ok(AnyStore::Permuted(store)),
        Err(NoMemory) => Err(NoMemory),
    }
}
