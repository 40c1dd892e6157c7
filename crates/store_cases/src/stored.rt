ghost use Rattle.std.specs.Prelude.{◌≡◌, ◌<◌, ℕ, List, true, IfOk};
ghost use Rattle.format_model.specs.Laws.{Suits};
ghost use Rattle.store_cases.specs.Small.{IsSmall, is_free};

use crate::reading::{Path, reads_as};
use bern_base::{Axis, Entry, FormatDecl, Items, Matrix, NoMemory, Shape, Text, Val, is_matrix};
use formats::{AnyStore, build};
use placement::Part;
use std::alloc::Global;
use std::marker::Brand;
use std::sync::ledger::Blank;
use std::test::Fail;

fn entry(row: u32, col: u32, value: u64) -> Entry {
    Entry {
        row,
        col,
        value: Val::new(value),
    }
}

/// A matrix of these entries, which rise and lie inside.
fn matrix_of(alloc: Global, rows: u32, cols: u32, entries: &[Entry]) -> Result<Matrix, Fail>
    ensures small { IfOk result IsSmall }
    ensures cols { IfOk result (λ m. m.cols ≡ cols) }
{
    let matrix = Matrix {
        rows,
        cols,
        entries: Items::from_slice(alloc, entries)?,
    };
    let fits = rows < 100 && cols < 100 && matrix.entries.len() < 100;
    if fits && is_matrix(&matrix) {
        Ok(matrix)
    } else {
        Err(Fail::from("no small matrix"))
    }
}

/// Three rows and columns with (0, 1) = 2, (0, 2) = 1 and (2, 1) = 5; row 1 and column 0 have no entry.
fn square(alloc: Global) -> Result<Matrix, Fail>
    ensures small { IfOk result IsSmall }
{
    matrix_of(
        alloc,
        3,
        3,
        &[entry(0, 1, 2), entry(0, 2, 1), entry(2, 1, 5)],
    )
}

fn store_of(alloc: Global, shape: Shape, matrix: Matrix) -> Result<AnyStore, NoMemory>
    requires free { is_free shape ≡ true }
    requires suits { (globals order : List ℕ) → Suits shape globals order matrix }
    requires small { IsSmall matrix }
{
    let format = FormatDecl {
        name: Text::new(alloc),
        shape,
    };
    let globals = Items::from_slice(alloc, &[])?;
    let part = Part { matrix, globals };
    build(alloc, &format, &part, &Items::new(alloc))
}

/// Whether a matrix in a format is read back by these paths, by `at` as by `entry`, and searches find these values.
fn reads_back(
    alloc: Global,
    shape: Shape,
    matrix: Matrix,
    expected: &[Path],
    values: &[u64],
) -> Result<bool, NoMemory>
    requires free { is_free shape ≡ true }
    requires suits { (globals order : List ℕ) → Suits shape globals order matrix }
    requires small { IsSmall matrix }
{
    let (rows, cols) = (matrix.rows, matrix.cols);
    let store = store_of(alloc, shape, matrix)?;
    reads_as::<AnyStore, Brand>(alloc, &store, rows, cols, expected, values, Blank::new(1))
}

const STORED: [u64; 9] = [9, 2, 1, 9, 9, 9, 9, 5, 9];

const BY_ROW: [Path; 3] = [(0, 1, 2), (0, 2, 1), (2, 1, 5)];

const BY_COL: [Path; 3] = [(1, 0, 2), (1, 2, 5), (2, 0, 1)];

#[test]
fn compressed_rows_and_columns_are_read_back(rt: HostRuntime) -> Result<(), Fail> {
    let alloc = rt.alloc();
    let rows = Shape::DensePacked(Axis::Row);
    let cols = Shape::DensePacked(Axis::Col);
    assert!(&rt; reads_back(alloc, rows, square(alloc)?, &BY_ROW, &STORED)?);
    assert!(&rt; reads_back(alloc, cols, square(alloc)?, &BY_COL, &STORED)?);
    Ok(())
}

#[test]
fn doubly_compressed_rows_and_columns_are_read_back(rt: HostRuntime) -> Result<(), Fail> {
    let alloc = rt.alloc();
    let rows = Shape::PackedPacked(Axis::Row);
    let cols = Shape::PackedPacked(Axis::Col);
    assert!(&rt; reads_back(alloc, rows, square(alloc)?, &BY_ROW, &STORED)?);
    assert!(&rt; reads_back(alloc, cols, square(alloc)?, &BY_COL, &STORED)?);
    Ok(())
}

#[test]
fn full_matrices_are_read_back_row_by_row_and_column_by_column(
    rt: HostRuntime,
) -> Result<(), Fail> {
    let alloc = rt.alloc();
    let all = [0, 2, 1, 0, 0, 0, 0, 5, 0];
    let by_row = [
        (0, 0, 0),
        (0, 1, 2),
        (0, 2, 1),
        (1, 0, 0),
        (1, 1, 0),
        (1, 2, 0),
        (2, 0, 0),
        (2, 1, 5),
        (2, 2, 0),
    ];
    let by_col = [
        (0, 0, 0),
        (0, 1, 0),
        (0, 2, 0),
        (1, 0, 2),
        (1, 1, 0),
        (1, 2, 5),
        (2, 0, 1),
        (2, 1, 0),
        (2, 2, 0),
    ];
    let rows = Shape::DenseDense(Axis::Row);
    let cols = Shape::DenseDense(Axis::Col);
    assert!(&rt; reads_back(alloc, rows, square(alloc)?, &by_row, &all)?);
    assert!(&rt; reads_back(alloc, cols, square(alloc)?, &by_col, &all)?);
    Ok(())
}

#[test]
fn a_coordinate_list_is_read_back_by_element_numbers(rt: HostRuntime) -> Result<(), Fail> {
    let alloc = rt.alloc();
    let numbers = [(1, 0, 2), (2, 0, 1), (7, 0, 5)];
    assert!(&rt; reads_back(alloc, Shape::ListTwo, square(alloc)?, &numbers, &STORED)?);
    Ok(())
}

/// Four rows with 7 in row 1 and an entry of value 0 in row 3.
fn vector(alloc: Global) -> Result<Matrix, Fail>
    ensures small { IfOk result IsSmall }
    ensures cols { IfOk result (λ m. m.cols ≡ 1) }
{
    matrix_of(alloc, 4, 1, &[entry(1, 0, 7), entry(3, 0, 0)])
}

#[test]
fn vectors_are_read_back(rt: HostRuntime) -> Result<(), Fail> {
    let alloc = rt.alloc();
    let some = [(1, 0, 7), (3, 0, 0)];
    let all = [(0, 0, 0), (1, 0, 7), (2, 0, 0), (3, 0, 0)];
    assert!(&rt;
        reads_back(
            alloc,
            Shape::PackedOne,
            vector(alloc)?,
            &some,
            &[9, 7, 9, 0]
        )?
    );
    assert!(&rt; reads_back(alloc, Shape::ListOne, vector(alloc)?, &some, &[9, 7, 9, 0])?);
    assert!(&rt; reads_back(alloc, Shape::DenseOne, vector(alloc)?, &all, &[0, 7, 0, 0])?);
    Ok(())
}
