use bern_base::{
    Affine, ArrayDecl, Axis, Checked, Expr, Factor, FormatDecl, Items, Nest, NoMemory, Product,
    Ref, Shape, Text, Val,
};
use loop_query::{Term, has_factor, level_axis, reference_at, subscript, terms};
use std::alloc::Global;
use std::test::Fail;

const MATRIX: u32 = 0;

const DENSE: u32 = 1;

const PACKED: u32 = 2;

fn zero() -> Affine {
    Affine::new(0, [0, 0, 0, 0])
}

fn i() -> Affine {
    Affine::new(0, [1, 0, 0, 0])
}

fn j() -> Affine {
    Affine::new(0, [0, 1, 0, 0])
}

/// A[i,j], of a sparse matrix.
fn entry() -> Factor {
    Factor::Read(Ref {
        array: MATRIX,
        row: i(),
        col: j(),
    })
}

/// An element of a vector.
fn element(array: u32, row: Affine) -> Factor {
    Factor::Read(Ref {
        array,
        row,
        col: zero(),
    })
}

fn number(n: u64) -> Factor {
    Factor::Num(Val::new(n))
}

fn product(alloc: Global, minus: bool, factor: Factor) -> Result<Product, NoMemory> {
    let factors = Items::from_vec(vec![in alloc; factor]?);
    Ok(Product { minus, factors })
}

fn product_of_two(
    alloc: Global,
    minus: bool,
    left: Factor,
    right: Factor,
) -> Result<Product, NoMemory> {
    let factors = Items::from_vec(vec![in alloc; left, right]?);
    Ok(Product { minus, factors })
}

/// What stands in parentheses.
fn group(alloc: Global, left: Product, right: Product) -> Result<Factor, NoMemory> {
    let sums = Items::from_vec(vec![in alloc; left, right]?);
    Ok(Factor::Group(Expr { sums }))
}

fn nest(alloc: Global, sums: Vec<Product>) -> Nest {
    Nest {
        line: 1,
        vars: Items::new(alloc),
        guards: Items::new(alloc),
        target: Ref {
            array: DENSE,
            row: i(),
            col: zero(),
        },
        replace: false,
        body: Expr {
            sums: Items::from_vec(sums),
        },
    }
}

fn array(alloc: Global, cols: u32, format: u32) -> Result<ArrayDecl, NoMemory> {
    Ok(ArrayDecl {
        name: Text::from_bytes(alloc, b"A")?,
        dims: 2,
        rows: 9,
        cols,
        format,
        axis: Axis::Row,
        place: 0,
        file: None,
    })
}

fn format(alloc: Global, shape: Shape) -> Result<FormatDecl, NoMemory> {
    let name = Text::from_bytes(alloc, b"f")?;
    Ok(FormatDecl { name, shape })
}

/// A matrix in compressed rows, a dense vector and a packed one.
fn job(alloc: Global) -> Result<Checked, NoMemory> {
    let rows = format(alloc, Shape::DensePacked(Axis::Row))?;
    let all = format(alloc, Shape::DenseOne)?;
    let some = format(alloc, Shape::PackedOne)?;
    let arrays = vec![in alloc;
        array(alloc, 9, 0)?,
        array(alloc, 1, 1)?,
        array(alloc, 1, 2)?,
    ]?;
    Ok(Checked {
        extents: Items::new(alloc),
        places: Items::new(alloc),
        formats: Items::from_vec(vec![in alloc; rows, all, some]?),
        arrays: Items::from_vec(arrays),
        nests: Items::new(alloc),
        turns: Items::new(alloc),
        prints: Items::new(alloc),
    })
}

/// The signed factor of a term, how many dense references it has, and how many sparse ones.
fn shape(term: &Term) -> (i64, usize, usize) {
    (term.factor.signed(), term.dense.len(), term.sparse.len())
}

fn shapes_of(alloc: Global, sums: Vec<Product>) -> Result<Vec<(i64, usize, usize)>, NoMemory> {
    let found = terms(alloc, &job(alloc)?, &nest(alloc, sums))?;
    let mut shapes = Vec::new(alloc);
    for term in found.as_slice() {
        shapes.push(shape(term))?;
    }
    Ok(shapes)
}

#[test]
fn a_product_of_a_matrix_and_a_vector_is_one_term(rt: HostRuntime) -> Result<(), Fail> {
    let alloc = rt.alloc();
    let product = product_of_two(alloc, false, entry(), element(DENSE, j()))?;
    let shapes = shapes_of(alloc, vec![in alloc; product]?)?;
    assert_eq!(&rt; shapes.as_slice(), [(1, 1, 1)].as_slice());
    Ok(())
}

/// (A[i,j] + 2) * X[j]
#[test]
fn parentheses_are_multiplied_out(rt: HostRuntime) -> Result<(), Fail> {
    let alloc = rt.alloc();
    let first = product(alloc, false, entry())?;
    let second = product(alloc, false, number(2))?;
    let left = group(alloc, first, second)?;
    let whole = product_of_two(alloc, false, left, element(DENSE, j()))?;
    let shapes = shapes_of(alloc, vec![in alloc; whole]?)?;
    assert_eq!(&rt; shapes.as_slice(), [(1, 1, 1), (2, 1, 0)].as_slice());
    Ok(())
}

/// 5 - (A[i,j] - 3*X[j]) * (X[i] - 0)
#[test]
fn the_leftmost_factor_changes_slowest_and_signs_multiply(rt: HostRuntime) -> Result<(), Fail> {
    let alloc = rt.alloc();
    let five = product(alloc, false, number(5))?;
    let first = product(alloc, false, entry())?;
    let second = product_of_two(alloc, true, number(3), element(DENSE, j()))?;
    let third = product(alloc, false, element(DENSE, i()))?;
    let nothing = product(alloc, true, number(0))?;
    let left = group(alloc, first, second)?;
    let right = group(alloc, third, nothing)?;
    let whole = product_of_two(alloc, true, left, right)?;
    let shapes = shapes_of(alloc, vec![in alloc; five, whole]?)?;
    let expected = [(5, 0, 0), (-1, 1, 1), (0, 0, 1), (3, 2, 0), (0, 1, 0)];
    assert_eq!(&rt; shapes.as_slice(), expected.as_slice());
    Ok(())
}

/// The parentheses of a sum of two, so many times around each other.
fn wrapped(alloc: Global, times: u32) -> Result<Factor, NoMemory> {
    let left = product(alloc, false, element(DENSE, i()))?;
    let right = product_of_two(alloc, true, number(2), element(PACKED, j()))?;
    let mut factor = group(alloc, left, right)?;
    for _ in 1..times {
        let sums = Items::from_vec(vec![in alloc; product(alloc, false, factor)?]?);
        factor = Factor::Group(Expr { sums });
    }
    Ok(factor)
}

#[test]
fn the_most_terms_and_references_of_a_job(rt: HostRuntime) -> Result<(), Fail> {
    let alloc = rt.alloc();
    let factors = vec![in alloc;
        wrapped(alloc, 1)?,
        wrapped(alloc, 2)?,
        wrapped(alloc, 1)?,
        wrapped(alloc, 16)?,
    ]?;
    let factors = Items::from_vec(factors);
    let minus = false;
    let shapes = shapes_of(alloc, vec![in alloc; Product { minus, factors }]?)?;
    assert_eq!(&rt; shapes.len(), 16);
    assert_eq!(&rt; shapes[0], (1, 4, 0));
    assert_eq!(&rt; shapes[1], (-2, 3, 1));
    assert_eq!(&rt; shapes[15], (16, 0, 4));
    Ok(())
}

#[test]
fn levels_have_the_axes_of_their_format(rt: HostRuntime) -> Result<(), Fail> {
    assert_eq!(&rt; level_axis(&Shape::PackedOne, 0), Some(Axis::Row));
    assert_eq!(&rt; level_axis(&Shape::PackedOne, 1), None);
    assert_eq!(&rt; level_axis(&Shape::ListTwo, 0), Some(Axis::Both));
    assert_eq!(&rt;
        level_axis(&Shape::PackedPacked(Axis::Col), 0),
        Some(Axis::Col)
    );
    assert_eq!(&rt;
        level_axis(&Shape::PackedPacked(Axis::Col), 1),
        Some(Axis::Row)
    );
    assert_eq!(&rt; level_axis(&Shape::Jagged, 1), Some(Axis::Col));
    assert_eq!(&rt; level_axis(&Shape::Jagged, 2), None);
    Ok(())
}

/// 7 * A[i,j] * X[j] * U[i] * X[i]
#[test]
fn references_stand_by_their_places_the_dense_ones_first(rt: HostRuntime) -> Result<(), Fail> {
    let alloc = rt.alloc();
    let factors = vec![in alloc;
        number(7),
        entry(),
        element(DENSE, j()),
        element(PACKED, i()),
        element(DENSE, i()),
    ]?;
    let factors = Items::from_vec(factors);
    let minus = false;
    let nest = nest(alloc, vec![in alloc; Product { minus, factors }]?);
    let found = terms(alloc, &job(alloc)?, &nest)?;
    assert_eq!(&rt; found.len(), 1);
    let term = found.get(0).ok_or("no term")?;
    assert_eq!(&rt; term.factor, Val::new(7));
    assert_eq!(&rt; term.dense.len(), 2);
    assert_eq!(&rt; term.sparse.len(), 2);
    assert_eq!(&rt; reference_at(term, 0).array, DENSE);
    assert_eq!(&rt; reference_at(term, 1).array, DENSE);
    assert_eq!(&rt; reference_at(term, 2).array, MATRIX);
    assert_eq!(&rt; reference_at(term, 3).array, PACKED);
    let row = subscript(reference_at(term, 2), Axis::Row);
    let col = subscript(reference_at(term, 2), Axis::Col);
    assert!(&rt; has_factor(row, 0) && !has_factor(row, 1));
    assert!(&rt; has_factor(col, 1) && !has_factor(col, 0));
    Ok(())
}
