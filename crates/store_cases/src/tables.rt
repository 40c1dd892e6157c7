use bern_base::{
    ArrayDecl, Axis, Entry, FormatDecl, Items, LevelStat, Matrix, NoMemory, Rule, Shape, Text, Val,
    is_matrix,
};
use formats::{check_shape, stats};
use std::alloc::Global;
use std::test::Fail;

fn format_of(alloc: Global, shape: Shape) -> FormatDecl {
    FormatDecl {
        name: Text::new(alloc),
        shape,
    }
}

fn array_of(alloc: Global, rows: u32, cols: u32) -> ArrayDecl {
    ArrayDecl {
        name: Text::new(alloc),
        dims: 2,
        rows,
        cols,
        format: 0,
        axis: Axis::Row,
        place: 0,
        file: None,
    }
}

/// Three rows and four columns with (0, 1) = 2, (0, 2) = 0 and (2, 1) = 5.
fn wide(alloc: Global) -> Result<Matrix, NoMemory> {
    let entries = [(0, 1, 2), (0, 2, 0), (2, 1, 5)];
    let mut matrix = Matrix::empty(alloc, 3, 4);
    for (row, col, value) in entries {
        matrix.entries.push(Entry {
            row,
            col,
            value: Val::new(value),
        })?;
    }
    Ok(matrix)
}

fn level(axis: Axis, ordered: bool, estimate: u64, weight: u64) -> LevelStat {
    LevelStat {
        axis,
        ordered,
        estimate,
        weight,
    }
}

fn has_stats(alloc: Global, shape: Shape, levels: &[LevelStat]) -> Result<bool, Fail> {
    let matrix = wide(alloc)?;
    if !is_matrix(&matrix) {
        return Err(Fail::from("no matrix"));
    }
    let found = stats(alloc, &format_of(alloc, shape), &matrix)?;
    Ok(found.levels.as_slice() == levels)
}

#[test]
fn levels_of_rows_and_columns_have_their_numbers(rt: HostRuntime) -> Result<(), Fail> {
    let alloc = rt.alloc();
    let rows = [level(Axis::Row, true, 3, 1), level(Axis::Col, true, 1, 1)];
    assert!(&rt; has_stats(alloc, Shape::DensePacked(Axis::Row), &rows)?);
    let cols = [level(Axis::Col, true, 4, 1), level(Axis::Row, true, 1, 1)];
    assert!(&rt; has_stats(alloc, Shape::DensePacked(Axis::Col), &cols)?);
    let filled = [level(Axis::Col, true, 2, 2), level(Axis::Row, true, 2, 2)];
    assert!(&rt; has_stats(alloc, Shape::PackedPacked(Axis::Col), &filled)?);
    let list = [level(Axis::Both, false, 3, 3)];
    assert!(&rt; has_stats(alloc, Shape::ListTwo, &list)?);
    let arranged = [level(Axis::Row, false, 3, 1), level(Axis::Col, true, 1, 1)];
    assert!(&rt; has_stats(alloc, Shape::Jagged, &arranged)?);
    let offsets = Items::from_slice(alloc, &[-1, 1, 2])?;
    let diagonals = [level(Axis::Row, true, 3, 1), level(Axis::Col, true, 3, 2)];
    assert!(&rt; has_stats(alloc, Shape::Diagonal(offsets), &diagonals)?);
    Ok(())
}

#[test]
fn sizes_come_before_diagonals(rt: HostRuntime) -> Result<(), Fail> {
    let alloc = rt.alloc();
    let matrix = wide(alloc)?;
    let all = Items::from_slice(alloc, &[-1, 1])?;
    let listed = format_of(alloc, Shape::Diagonal(all));
    let one = Items::from_slice(alloc, &[1])?;
    let main = format_of(alloc, Shape::Diagonal(one));
    // The entry (0, 2) lies off the diagonals -1 and 1, and has the value 0.
    assert_eq!(&rt;
        check_shape(&array_of(alloc, 3, 4), &listed, &matrix),
        Ok(())
    );
    assert_eq!(&rt;
        check_shape(&array_of(alloc, 3, 4), &main, &matrix),
        Err(Rule::F2)
    );
    assert_eq!(&rt;
        check_shape(&array_of(alloc, 4, 3), &main, &matrix),
        Err(Rule::F1)
    );
    Ok(())
}
