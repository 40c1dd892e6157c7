ghost use Rattle.std.specs.Prelude.{◌≡◌, ◌≢◌, ℕ, ◌*◌, ◌<◌, IfOk};
ghost use Rattle.bern_base.specs.Matrix.{IsMatrix};
ghost use Rattle.bern_base.specs.declared.axes.Axis.TheVariants as axis_is;
ghost use Rattle.format_model.specs.Grids.{HasElement};

use access_joins::Cells;
use bern_base::{
    ArrayDecl, Axis, Entry, FormatDecl, Items, Matrix, NoMemory, Shape, Text, Val, is_matrix,
};
use formats::{AnyStore, build, check_shape};
use local_views::LocalView;
use placement::{Cyclic, split};
use std::alloc::Global;
use std::marker::Brand;
use std::sync::ledger::Blank;
use std::test::Fail;
use store_cases::{Path, reads_as};
use view_laws::a_set_view_describes_the_changed_part;

/// A matrix of three rows and three columns with the elements
/// `. . 3 / 4 . 6 / . 5 .`
fn square(alloc: Global) -> Result<Matrix, Fail>
    ensures { IfOk result IsMatrix }
{
    let mut matrix = Matrix::empty(alloc, 3, 3);
    for (row, col, value) in [(0, 2, 3), (1, 0, 4), (1, 2, 6), (2, 1, 5)] {
        matrix.entries.push(Entry {
            row,
            col,
            value: Val::new(value),
        })?;
    }
    if is_matrix(&matrix) {
        Ok(matrix)
    } else {
        Err(Fail::from("no matrix"))
    }
}

/// The elements of a part that is stored whole, by their numbers.
fn cells<C: Cells>(alloc: Global, part: &C, count: u32) -> Result<Vec<u64>, NoMemory>
    requires { (k : ℕ) → k < count → HasElement (C.grid part.now) k }
{
    let mut values = Vec::new(alloc);
    for element in 0..count {
        values.push(part.cell(element).bits())?;
    }
    Ok(values)
}

/// The view of the part of the first of two ranks, where rows or columns are dealt one at a time.
fn view_of(alloc: Global, outer: Axis, axis: Axis) -> Result<LocalView<AnyStore, Cyclic>, Fail>
    requires outer { outer ≢ axis_is.Both }
    requires side { axis ≢ axis_is.Both }
    ensures { IfOk result (λ v. (k : ℕ) → k < 6 → HasElement (⟦<LocalView<AnyStore, Cyclic> as Cells>⟧.grid v) k) }
{
    let format = FormatDecl {
        name: Text::new(alloc),
        shape: Shape::DenseDense(outer),
    };
    let decl = ArrayDecl {
        name: Text::new(alloc),
        dims: 2,
        rows: 3,
        cols: 3,
        format: 0,
        axis,
        place: 0,
        file: None,
    };
    let matrix = square(alloc)?;
    if matrix.entries.len() > 99 {
        return Err(Fail::from("the matrix is large"));
    }
    let Ok(()) = check_shape(&decl, &format, &matrix) else {
        return Err(Fail::from("the matrix does not suit the format"));
    };
    let place = Cyclic::new(3, 2, 1);
    let part = split(alloc, &matrix, &place, axis, 0)?;
    if part.matrix.rows as u64 * part.matrix.cols as u64 != 6 {
        return Err(Fail::from("the part has not six elements"));
    }
    let store = build(alloc, &format, &part, &Items::new(alloc))?;
    let view = LocalView::new(store, place, axis, 3, 0);
    Ok(view)
}

/// What a view of six elements and its store should be after an element is set.
#[derive(Drop)]
struct Expected<'a> {
    /// The elements of the part before and after, by number.
    before: &'a [u64],
    after: &'a [u64],
    /// The paths of the view, and what searches find in it.
    seen: &'a [Path],
    found: &'a [u64],
    /// The rows and columns of the part, the paths of its store, and what searches find there.
    rows: u32,
    cols: u32,
    paths: &'a [Path],
    values: &'a [u64],
}

/// Whether all is as expected before and after an element is set by its number in the part.
fn sets(
    alloc: Global,
    mut view: LocalView<AnyStore, Cyclic>,
    element: u32,
    value: u64,
    expected: &Expected,
) -> Result<bool, Fail>
    requires within { element < 6 }
    requires cells { (k : ℕ) → k < 6 → HasElement (⟦<LocalView<AnyStore, Cyclic> as Cells>⟧.grid view) k }
{
    let before = cells(alloc, &view, 6)?;
    view.set(element, Val::new(value));
    let there = reads_as::<LocalView<AnyStore, Cyclic>, Brand>(
        alloc,
        &view,
        3,
        3,
        expected.seen,
        expected.found,
        Blank::new(1),
    )?;
    let after = cells(alloc, &view, 6)?;
    let here = reads_as::<AnyStore, Brand>(
        alloc,
        &view.into_store(),
        expected.rows,
        expected.cols,
        expected.paths,
        expected.values,
        Blank::new(1),
    )?;
    Ok(before.as_slice() == expected.before && after.as_slice() == expected.after && there && here)
}

/// The first rank has the rows 0 and 2. Element 4 of its part is (1, 1) there, and (2, 1) of the array.
#[test]
fn by_rows_an_element_is_read_and_set_by_its_number_in_the_part(
    rt: HostRuntime,
) -> Result<(), Fail> {
    let expected = Expected {
        before: &[0, 0, 3, 0, 5, 0],
        after: &[0, 0, 3, 0, 7, 0],
        seen: &[
            (0, 0, 0),
            (0, 1, 0),
            (0, 2, 3),
            (2, 0, 0),
            (2, 1, 7),
            (2, 2, 0),
        ],
        found: &[0, 0, 3, 9, 9, 9, 0, 7, 0],
        rows: 2,
        cols: 3,
        paths: &[
            (0, 0, 0),
            (0, 1, 0),
            (0, 2, 3),
            (1, 0, 0),
            (1, 1, 7),
            (1, 2, 0),
        ],
        values: &[0, 0, 3, 0, 7, 0],
    };
    let view = view_of(rt.alloc(), Axis::Row, Axis::Row)?;
    assert!(&rt; sets(rt.alloc(), view, 4, 7, &expected)?);
    Ok(())
}

/// The first rank has the columns 0 and 2. Element 3 of its part is (1, 1) there, and (1, 2) of the array; the store has the
/// columns one after another.
#[test]
fn by_columns_an_element_is_read_and_set_by_its_number_in_the_part(
    rt: HostRuntime,
) -> Result<(), Fail> {
    let expected = Expected {
        before: &[0, 3, 4, 6, 0, 0],
        after: &[0, 3, 4, 8, 0, 0],
        seen: &[
            (0, 0, 0),
            (0, 1, 4),
            (0, 2, 0),
            (2, 0, 3),
            (2, 1, 8),
            (2, 2, 0),
        ],
        found: &[0, 9, 3, 4, 9, 8, 0, 9, 0],
        rows: 3,
        cols: 2,
        paths: &[
            (0, 0, 0),
            (0, 1, 4),
            (0, 2, 0),
            (1, 0, 3),
            (1, 1, 8),
            (1, 2, 0),
        ],
        values: &[0, 3, 4, 8, 0, 0],
    };
    a_set_view_describes_the_changed_part::<Cyclic>();
    let view = view_of(rt.alloc(), Axis::Col, Axis::Col)?;
    assert!(&rt; sets(rt.alloc(), view, 3, 8, &expected)?);
    Ok(())
}
