ghost use Rattle.std.specs.Prelude.{◌≡◌, ◌↔◌, [], ◌∷◌, IfSome, IsNone, IsTrue, Some, slice_get};
ghost use Rattle.std.specs.List.{All};
ghost use Rattle.bern_base.specs.declared.job.Factor.TheVariants.{Read};
ghost use Rattle.rank_product.specs.Shapes.{IsNestOf, IsOver, IsProduct, IsTerm, IsWhole, cols_over, extent_is, format_is, is_block, is_block_place, is_dense_level, is_sparse, is_sparse_matrix, is_vector, source_element, stored_element, target_element};
ghost use Rattle.rank_product.specs.Named.{shape_at, shape_of_nest, shape_of_term};

use bern_base::{
    Affine, ArrayDecl, Axis, Checked, Factor, Items, MOST_SIDE, Nest, PlaceKind, Product, Ref,
    Shape, Span,
};
use rank_node::{array_read, nothing, variable_v, variable_w};

/// A job of one product, `T[v] += S[v, w] * D[w]` over `0..size` for both variables.
#[derive(Clone, Copy, Debug, PartialEq, Eq)]
pub struct ProductShape {
    /// The rows of each array.
    pub size: u32,
    /// The place of all arrays, by its number.
    pub place: u32,
    /// The numbers of T, S and D among the arrays.
    pub target: u32,
    pub stored: u32,
    pub source: u32,
}

/// The product that a job does, if it is a job of one product.
///
/// Such a job does one nest once, without guards, `T[v] += S[v, w] * D[w]` over `0..size` for both variables. Its arrays are
/// over that extent and one `block` place, split by row. T and D are different arrays of `row dense`, and S is one of
/// two extents in a sparse format other than `diagonal`. It takes time linear in the arrays.
pub fn product_shape(job: &Checked) -> Option<ProductShape>
    ensures some { IfSome result (λ p. IsProduct job.now p) }
    ensures none { IsNone result → (p : ProductShape) → IsProduct job.now p → ⊥ }
{
    match named(job) {
        Some(product) => {
            if is_product(job, product) {
                Some(product)
            } else {
                None
            }
        }
        None => None,
    }
}

/// The product that a job would do, by the arrays that its first nest names.
fn named(job: &Checked) -> Option<ProductShape>
    ensures { result ≡ shape_of_nest job.now (slice_get job.now.nests 0) }
{
    match job.nests.get(0) {
        Some(nest) => named_by(job, nest),
        None => None,
    }
}

fn named_by(job: &Checked, nest: &Nest) -> Option<ProductShape>
    ensures { result ≡ shape_of_nest job.now (Some nest.now) }
{
    match nest.body.sums.get(0) {
        Some(product) => named_in(job, nest.target.array, product),
        None => None,
    }
}

fn named_in(job: &Checked, target: u32, product: &Product) -> Option<ProductShape>
    ensures { result ≡ shape_of_term job.now target (Some product.now) }
{
    let stored = array_read(&product.factors, 0);
    let source = array_read(&product.factors, 1);
    match job.arrays.get(target as usize) {
        Some(array) => shape_at(array, target, stored, source),
        None => None,
    }
}

fn shape_at(
    array: &ArrayDecl,
    target: u32,
    stored: Option<u32>,
    source: Option<u32>,
) -> Option<ProductShape>
    ensures { result ≡ shape_at target stored source (Some array.now) }
{
    match (stored, source) {
        (Some(stored), Some(source)) => Some(ProductShape {
            size: array.rows,
            place: array.place,
            target,
            stored,
            source,
        }),
        _ => None,
    }
}

/// Whether a job does this product.
fn is_product(job: &Checked, product: ProductShape) -> bool
    ensures { IsTrue result ↔ IsProduct job.now product }
{
    product.size >= 1
        && product.size <= MOST_SIDE
        && product.target != product.source
        && is_vector(job, product.target)
        && is_vector(job, product.source)
        && is_sparse_matrix(job, product.stored)
        && is_block_place(job, product.size, product.place)
        && are_over(job.arrays.as_slice(), product)
        && job.nests.len() == 1
        && is_done_once(&job.turns)
        && are_nests(job.nests.as_slice(), product)
}

/// Whether nest 0 is done once, and no other.
fn is_done_once(turns: &Items<u32>) -> bool
    ensures { IsTrue result ↔ turns.now ≡ 0 ∷ [] }
{
    turns.as_slice() == [0].as_slice()
}

fn are_nests(nests: &[Nest], product: ProductShape) -> bool
    ensures { IsTrue result ↔ All (IsNestOf product) nests.now }
{
    for nest in nests {
        if !is_nest(nest, product) {
            return false;
        }
    }
    true
}

/// Whether a nest is `T[v] += S[v, w] * D[w]` over the whole extent, without guards.
fn is_nest(nest: &Nest, product: ProductShape) -> bool
    ensures { IsTrue result ↔ IsNestOf product nest.now }
{
    nest.vars.len() == 2
        && are_whole(nest.vars.as_slice(), product.size)
        && nest.guards.is_empty()
        && is_element(&nest.target, &target_element(product))
        && !nest.replace
        && nest.body.sums.len() == 1
        && are_terms(nest.body.sums.as_slice(), product)
}

fn are_whole(vars: &[Span], size: u32) -> bool
    ensures { IsTrue result ↔ All (IsWhole size) vars.now }
{
    for span in vars {
        if !is_whole(span, size) {
            return false;
        }
    }
    true
}

fn is_whole(span: &Span, size: u32) -> bool
    ensures { IsTrue result ↔ IsWhole size span.now }
{
    span.lo == 0 && span.hi == size as i64
}

fn are_terms(products: &[Product], shape: ProductShape) -> bool
    ensures { IsTrue result ↔ All (IsTerm shape) products.now }
{
    for product in products {
        if !is_term(product, shape) {
            return false;
        }
    }
    true
}

/// Whether a product is `S[v, w] * D[w]`.
fn is_term(product: &Product, shape: ProductShape) -> bool
    ensures { IsTrue result ↔ IsTerm shape product.now }
{
    !product.minus
        && product.factors.len() == 2
        && reads(&product.factors, 0, &stored_element(shape))
        && reads(&product.factors, 1, &source_element(shape))
}

/// Whether the factor there is this element.
fn reads(factors: &Items<Factor>, at: usize, element: &Ref) -> bool
    ensures { IsTrue result ↔ slice_get factors.now at ≡ Some (Read element.now) }
{
    match factors.get(at) {
        Some(Factor::Read(reference)) => is_element(reference, element),
        _ => false,
    }
}

fn is_element(reference: &Ref, element: &Ref) -> bool
    ensures { IsTrue result ↔ reference.now ≡ element.now }
{
    if reference.array != element.array {
        return false;
    }
    is_form(reference.row, element.row) && is_form(reference.col, element.col)
}

fn is_form(form: Affine, other: Affine) -> bool
    ensures { IsTrue result ↔ form ≡ other }
{
    form == other
}

fn target_element(product: ProductShape) -> Ref
    ensures { result ≡ target_element product }
{
    Ref {
        array: product.target,
        row: variable_v(),
        col: nothing(),
    }
}

fn stored_element(product: ProductShape) -> Ref
    ensures { result ≡ stored_element product }
{
    Ref {
        array: product.stored,
        row: variable_v(),
        col: variable_w(),
    }
}

fn source_element(product: ProductShape) -> Ref
    ensures { result ≡ source_element product }
{
    Ref {
        array: product.source,
        row: variable_w(),
        col: nothing(),
    }
}

fn are_over(arrays: &[ArrayDecl], product: ProductShape) -> bool
    ensures { IsTrue result ↔ All (IsOver product) arrays.now }
{
    for array in arrays {
        if !is_over(array, product) {
            return false;
        }
    }
    true
}

/// Whether an array is over the extent, and split by row.
fn is_over(array: &ArrayDecl, product: ProductShape) -> bool
    ensures { IsTrue result ↔ IsOver product array.now }
{
    array.rows == product.size
        && array.cols == cols_over(product.size, array.dims)
        && array.axis == Axis::Row
        && array.place == product.place
}

fn cols_over(size: u32, dims: u32) -> u32
    ensures { result ≡ cols_over size dims }
{
    if dims == 2 { size } else { 1 }
}

fn is_vector(job: &Checked, number: u32) -> bool
    ensures { result ≡ is_vector job.now number }
{
    match job.arrays.get(number as usize) {
        Some(array) => array.dims == 1 && is_dense_format(job, array.format),
        None => false,
    }
}

fn is_dense_format(job: &Checked, format: u32) -> bool
    ensures { result ≡ format_is is_dense_level (slice_get job.now.formats format) }
{
    match job.formats.get(format as usize) {
        Some(format) => is_dense_level(&format.shape),
        None => false,
    }
}

fn is_dense_level(shape: &Shape) -> bool
    ensures { result ≡ is_dense_level shape.now }
{
    matches!(shape, Shape::DenseOne)
}

fn is_sparse_matrix(job: &Checked, number: u32) -> bool
    ensures { result ≡ is_sparse_matrix job.now number }
{
    match job.arrays.get(number as usize) {
        Some(array) => array.dims == 2 && is_sparse_format(job, array.format),
        None => false,
    }
}

fn is_sparse_format(job: &Checked, format: u32) -> bool
    ensures { result ≡ format_is is_sparse (slice_get job.now.formats format) }
{
    match job.formats.get(format as usize) {
        Some(format) => is_sparse(&format.shape),
        None => false,
    }
}

fn is_sparse(shape: &Shape) -> bool
    ensures { result ≡ is_sparse shape.now }
{
    match shape {
        Shape::DensePacked(_) => true,
        Shape::PackedPacked(_) => true,
        Shape::ListTwo => true,
        Shape::Jagged => true,
        Shape::Permute(_) => true,
        _ => false,
    }
}

/// Whether a place deals an extent of this size in one block for each rank.
fn is_block_place(job: &Checked, size: u32, number: u32) -> bool
    ensures { result ≡ is_block_place job.now size number }
{
    match job.places.get(number as usize) {
        Some(place) => is_block(&place.kind) && extent_is(job, size, place.extent),
        None => false,
    }
}

fn is_block(kind: &PlaceKind) -> bool
    ensures { result ≡ is_block kind.now }
{
    matches!(kind, PlaceKind::Block)
}

fn extent_is(job: &Checked, size: u32, number: u32) -> bool
    ensures { result ≡ extent_is size (slice_get job.now.extents number) }
{
    match job.extents.get(number as usize) {
        Some(extent) => extent.size == size,
        None => false,
    }
}
