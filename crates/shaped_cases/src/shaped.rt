ghost use Rattle.std.specs.Prelude.{◌≡◌, ◌≢◌, true, ◌≤◌, IfOk};
ghost use Rattle.bern_base.specs.Matrix.{IsMatrix};
ghost use Rattle.bern_base.specs.Shapes.{is_by_row};
ghost use Rattle.bern_base.specs.declared.axes.Axis.TheVariants as axis_is;
ghost use Rattle.shaped_cases.specs.Usable.{IsUsable};

use bern_base::{ArrayDecl, Axis, Entry, FormatDecl, Items, Matrix, Shape, Text, Val, is_matrix};
use formats::{AnyStore, build, check_order, check_shape};
use local_views::LocalView;
use placement::{Cyclic, split};
use std::alloc::Global;
use std::marker::Brand;
use std::sync::ledger::Blank;
use std::test::Fail;
use store_cases::{Path, reads_as};

/// A matrix of three rows.
fn matrix_of(alloc: Global, cols: u32, entries: &[(u32, u32, u64)]) -> Result<Matrix, Fail>
    ensures { IfOk result IsMatrix }
{
    let mut matrix = Matrix::empty(alloc, 3, cols);
    for (row, col, value) in entries {
        matrix.entries.push(Entry {
            row: *row,
            col: *col,
            value: Val::new(*value),
        })?;
    }
    if is_matrix(&matrix) {
        Ok(matrix)
    } else {
        Err(Fail::from("no matrix"))
    }
}

/// Whether the part of the first rank, where rows or columns are dealt one at a time, is read back by these paths, and searches
/// find these values; and whether its view in the indices of the array is read back by those that it should be `seen` by, and
/// searches find what should be `found`.
fn reads_back(
    alloc: Global,
    shape: Shape,
    order: &Items<u32>,
    matrix: &Matrix,
    axis: Axis,
    ranks: u32,
    paths: &[Path],
    values: &[u64],
    seen: &[Path],
    found: &[u64],
) -> Result<bool, Fail>
    requires usable { IsUsable shape order.now }
    requires side { axis ≢ axis_is.Both }
    requires split { is_by_row shape ≡ true → axis ≡ axis_is.Row }
    requires matrix { IsMatrix matrix.now }
    requires ranks { 1 ≤ ranks }
{
    let format = FormatDecl {
        name: Text::new(alloc),
        shape,
    };
    let decl = ArrayDecl {
        name: Text::new(alloc),
        dims: 2,
        rows: 3,
        cols: 3,
        format: 0,
        axis,
        place: 0,
        file: None,
    };
    if matrix.entries.len() > 99 {
        return Err(Fail::from("the matrix is large"));
    }
    let Ok(()) = check_shape(&decl, &format, matrix) else {
        return Err(Fail::from("the matrix does not suit the format"));
    };
    let place = Cyclic::new(3, ranks, 1);
    let part = split(alloc, matrix, &place, axis, 0)?;
    let store = build(alloc, &format, &part, order)?;
    let (rows, cols) = (part.matrix.rows, part.matrix.cols);
    let here = reads_as::<AnyStore, Brand>(
        alloc,
        &store,
        rows,
        cols,
        paths,
        values,
        Blank::new(1),
    )?;
    let view = LocalView::new(store, place, axis, 3, 0);
    let there = reads_as::<LocalView<AnyStore, Cyclic>, Brand>(
        alloc,
        &view,
        3,
        3,
        seen,
        found,
        Blank::new(1),
    )?;
    Ok(here && there)
}

const SQUARE: [(u32, u32, u64); 3] = [(0, 1, 2), (0, 2, 1), (2, 1, 5)];

const UNEVEN: [(u32, u32, u64); 4] = [(0, 2, 3), (1, 0, 4), (1, 2, 6), (2, 1, 5)];

#[test]
fn jagged_rows_stand_by_falling_count_and_then_by_row(rt: HostRuntime) -> Result<(), Fail> {
    let alloc = rt.alloc();
    let matrix = matrix_of(alloc, 3, &UNEVEN)?;
    let none = Items::new(alloc);
    let paths = [(1, 0, 4), (1, 2, 6), (0, 2, 3), (2, 1, 5)];
    let found = [9, 9, 3, 4, 9, 6, 9, 5, 9];
    assert!(&rt;
        reads_back(
            alloc,
            Shape::Jagged,
            &none,
            &matrix,
            Axis::Row,
            1,
            &paths,
            &found,
            &paths,
            &found
        )?
    );
    Ok(())
}

/// Of two ranks the first one has the rows 0 and 2.
#[test]
fn diagonals_have_zeros_and_are_those_of_the_whole_array(rt: HostRuntime) -> Result<(), Fail> {
    let alloc = rt.alloc();
    let matrix = matrix_of(alloc, 3, &SQUARE)?;
    let none = Items::new(alloc);
    let shape = Shape::Diagonal(Items::from_slice(alloc, &[-1, 1, 2])?);
    let paths = [(0, 1, 2), (0, 2, 1), (1, 0, 0), (1, 2, 0), (2, 1, 5)];
    let found = [9, 2, 1, 0, 9, 0, 9, 5, 9];
    assert!(&rt;
        reads_back(
            alloc,
            shape,
            &none,
            &matrix,
            Axis::Row,
            1,
            &paths,
            &found,
            &paths,
            &found
        )?
    );
    let shape = Shape::Diagonal(Items::from_slice(alloc, &[-1, 1, 2])?);
    let paths = [(0, 1, 2), (0, 2, 1), (1, 1, 5)];
    let values = [9, 2, 1, 9, 5, 9];
    let seen = [(0, 1, 2), (0, 2, 1), (2, 1, 5)];
    let found = [9, 2, 1, 9, 9, 9, 9, 5, 9];
    assert!(&rt;
        reads_back(
            alloc,
            shape,
            &none,
            &matrix,
            Axis::Row,
            2,
            &paths,
            &values,
            &seen,
            &found
        )?
    );
    Ok(())
}

/// Of two ranks the first one has the rows 0 and 2, which the order has as 2 and 0.
#[test]
fn permuted_rows_stand_in_the_order_of_the_file(rt: HostRuntime) -> Result<(), Fail> {
    let alloc = rt.alloc();
    let matrix = matrix_of(alloc, 3, &SQUARE)?;
    let file = matrix_of(alloc, 1, &[(0, 0, 3), (1, 0, 1), (2, 0, 2)])?;
    let Ok(order) = check_order(alloc, 3, &file) else {
        return Err(Fail::from("no order"));
    };
    let seen = [(2, 1, 5), (0, 1, 2), (0, 2, 1)];
    let found = [9, 2, 1, 9, 9, 9, 9, 5, 9];
    let shape = Shape::Permute(Text::new(alloc));
    assert!(&rt;
        reads_back(
            alloc,
            shape,
            &order,
            &matrix,
            Axis::Row,
            1,
            &seen,
            &found,
            &seen,
            &found
        )?
    );
    let shape = Shape::Permute(Text::new(alloc));
    let paths = [(1, 1, 5), (0, 1, 2), (0, 2, 1)];
    let values = [9, 2, 1, 9, 5, 9];
    assert!(&rt;
        reads_back(
            alloc,
            shape,
            &order,
            &matrix,
            Axis::Row,
            2,
            &paths,
            &values,
            &seen,
            &found
        )?
    );
    Ok(())
}

/// Of two ranks the first one has the rows, or the columns, 0 and 2.
#[test]
fn element_numbers_are_those_of_the_array_by_rows_and_by_columns(
    rt: HostRuntime,
) -> Result<(), Fail> {
    let alloc = rt.alloc();
    let matrix = matrix_of(alloc, 3, &UNEVEN)?;
    let none = Items::new(alloc);
    let paths = [(2, 0, 3), (4, 0, 5)];
    let values = [9, 9, 3, 9, 5, 9];
    let seen = [(2, 0, 3), (7, 0, 5)];
    let found = [9, 9, 3, 9, 9, 9, 9, 5, 9];
    assert!(&rt;
        reads_back(
            alloc,
            Shape::ListTwo,
            &none,
            &matrix,
            Axis::Row,
            2,
            &paths,
            &values,
            &seen,
            &found
        )?
    );
    let paths = [(1, 0, 3), (2, 0, 4), (3, 0, 6)];
    let values = [9, 3, 4, 6, 9, 9];
    let seen = [(2, 0, 3), (3, 0, 4), (5, 0, 6)];
    let found = [9, 9, 3, 4, 9, 6, 9, 9, 9];
    assert!(&rt;
        reads_back(
            alloc,
            Shape::ListTwo,
            &none,
            &matrix,
            Axis::Col,
            2,
            &paths,
            &values,
            &seen,
            &found
        )?
    );
    let shape = Shape::PackedPacked(Axis::Row);
    let paths = [(0, 1, 3), (1, 0, 4), (1, 1, 6)];
    let seen = [(0, 2, 3), (1, 0, 4), (1, 2, 6)];
    assert!(&rt;
        reads_back(
            alloc,
            shape,
            &none,
            &matrix,
            Axis::Col,
            2,
            &paths,
            &values,
            &seen,
            &found
        )?
    );
    Ok(())
}
