ghost use Rattle.std.specs.Prelude.{◌≡◌, ◌<◌, true, IfOk, length, map};
ghost use Rattle.bern_base.specs.Matrix.{IsMatrix};
ghost use Rattle.format_model.specs.Trees.{depth_of, ordered_at};
ghost use Rattle.visits.specs.Ways.{IsWay};
ghost use Rattle.visit_cases.specs.Plans.{entries_way, grid_way, pair_way, rows_way};

use crate::entries::EntriesRoute;
use crate::grid::GridRoute;
use crate::pair::PairRoute;
use crate::probe::Probe;
use crate::rows::RowsRoute;
use access_joins::Access;
use bern_base::{Axis, Entry, Items, Matrix, NoMemory, Steps, Val, is_matrix};
use std::alloc::Global;
use std::cell::Cell;
use std::marker::Brand;
use std::sync::ledger::{Blank, Ledger};
use std::test::Fail;
use stores_packed::PackedStore;
use visits::{Route, Visit, all_points, all_points_by_runs};
use walks::Hit;

fn entry(row: u32, col: u32) -> Entry {
    Entry {
        row,
        col,
        value: Val::new(1),
    }
}

/// A matrix of these entries, which rise and lie inside.
fn matrix_of(alloc: Global, rows: u32, cols: u32, entries: &[Entry]) -> Result<Matrix, Fail>
    ensures matrix { IfOk result IsMatrix }
    ensures few { IfOk result (λ m. length m.entries < 100) }
    ensures cols { IfOk result (λ m. m.cols ≡ cols) }
{
    let matrix = Matrix {
        rows,
        cols,
        entries: Items::from_slice(alloc, entries)?,
    };
    if matrix.entries.len() < 100 && is_matrix(&matrix) {
        Ok(matrix)
    } else {
        Err(Fail::from("no small matrix"))
    }
}

/// The view of a store with two levels.
fn one_view<V: Access + Drop>(alloc: Global, store: V) -> Result<Items<V>, NoMemory>
    requires { depth_of (V.tree store) ≡ 2 }
    ensures { IfOk result (λ views. IsWay rows_way (map V.tree views)) }
{
    let mut views = Items::new(alloc);
    match views.push(store) {
        Ok(()) => Ok(views),
        Err(error) => Err(error),
    }
}

/// The view of a store with two levels, both driven.
fn entries_view<V: Access + Drop>(alloc: Global, store: V) -> Result<Items<V>, NoMemory>
    requires { depth_of (V.tree store) ≡ 2 }
    ensures { IfOk result (λ views. IsWay entries_way (map V.tree views)) }
{
    let mut views = Items::new(alloc);
    match views.push(store) {
        Ok(()) => Ok(views),
        Err(error) => Err(error),
    }
}

/// The view of a store with one level.
fn grid_view<V: Access + Drop>(alloc: Global, store: V) -> Result<Items<V>, NoMemory>
    requires { depth_of (V.tree store) ≡ 1 }
    ensures { IfOk result (λ views. IsWay grid_way (map V.tree views)) }
{
    let mut views = Items::new(alloc);
    match views.push(store) {
        Ok(()) => Ok(views),
        Err(error) => Err(error),
    }
}

/// The views of two stores with one ordered level.
fn two_views<V: Access + Drop>(alloc: Global, left: V, right: V) -> Result<Items<V>, NoMemory>
    requires left_depth { depth_of (V.tree left) ≡ 1 }
    requires right_depth { depth_of (V.tree right) ≡ 1 }
    requires left_ordered { ordered_at (V.tree left) 0 ≡ true }
    requires right_ordered { ordered_at (V.tree right) 0 ≡ true }
    ensures { IfOk result (λ views. IsWay pair_way (map V.tree views)) }
{
    let mut views = Items::new(alloc);
    match views.push(left) {
        Ok(()) => {}
        Err(error) => return Err(error),
    }
    match views.push(right) {
        Ok(()) => Ok(views),
        Err(error) => Err(error),
    }
}

/// Whether a visit gives these hits, one by one as by runs, and the first of them first.
fn visited<R: Route, V: Access, L: Ledger>(
    alloc: Global,
    route: &R,
    views: &Items<V>,
    expected: &[Hit],
    blank: Blank,
) -> Result<bool, NoMemory>
    requires way { IsWay (R.way route.now) (map V.tree views.now) }
    requires name { blank.name ≡ L.name }
    requires parts { blank.parts ≡ L.parts }
    requires some { 0 < blank.parts }
{
    let mut steps: Steps<L> = Steps::start(blank);
    let points = all_points(alloc, route, views, &mut steps)?;
    let by_runs = all_points_by_runs(alloc, route, views, &mut steps)?;
    let mut visit = Visit::new(route, views, &mut steps);
    let first = visit.next(route, views, &mut steps);
    Ok(
        points.as_slice() == expected
            && by_runs.as_slice() == expected
            && first == expected.first().copied(),
    )
}

/// Three rows and columns, where row 1 and column 0 have no entry.
fn square(alloc: Global) -> Result<Items<PackedStore>, Fail>
    ensures { IfOk result (λ views. IsWay rows_way (map ⟦<PackedStore as Access>⟧.tree views)) }
{
    let matrix = matrix_of(alloc, 3, 3, &[entry(0, 1), entry(0, 2), entry(2, 1)])?;
    let store = PackedStore::build(alloc, &matrix, Axis::Row, true, false)?;
    Ok(one_view(alloc, store)?)
}

/// Two vectors, with entries in the rows 0, 2, 4 and 1, 3, 4.
fn pair(alloc: Global) -> Result<Items<PackedStore>, Fail>
    ensures { IfOk result (λ views. IsWay pair_way (map ⟦<PackedStore as Access>⟧.tree views)) }
{
    let left = matrix_of(alloc, 6, 1, &[entry(0, 0), entry(2, 0), entry(4, 0)])?;
    let right = matrix_of(alloc, 6, 1, &[entry(1, 0), entry(3, 0), entry(4, 0)])?;
    let left_store = PackedStore::build(alloc, &left, Axis::Row, false, true)?;
    let right_store = PackedStore::build(alloc, &right, Axis::Row, false, true)?;
    Ok(two_views(alloc, left_store, right_store)?)
}

/// A vector with entries in the rows 1, 2 and 7.
fn grid(alloc: Global) -> Result<Items<PackedStore>, Fail>
    ensures { IfOk result (λ views. IsWay grid_way (map ⟦<PackedStore as Access>⟧.tree views)) }
{
    let matrix = matrix_of(alloc, 9, 1, &[entry(1, 0), entry(2, 0), entry(7, 0)])?;
    let store = PackedStore::build(alloc, &matrix, Axis::Row, false, true)?;
    Ok(grid_view(alloc, store)?)
}

/// What the entries (0,1), (0,2) and (2,1) give, with the leaves 0, 1 and 2.
const ENTRIES: [Hit; 3] = [
    Hit {
        point: [0, 1, 0, 0],
        leaves: [0, 0, 0, 0],
    },
    Hit {
        point: [0, 2, 0, 0],
        leaves: [1, 0, 0, 0],
    },
    Hit {
        point: [2, 1, 0, 0],
        leaves: [2, 0, 0, 0],
    },
];

#[test]
fn each_entry_is_given_once_with_its_leaf(rt: HostRuntime) -> Result<(), Fail> {
    let alloc = rt.alloc();
    let views = square(alloc)?;
    assert!(&rt;
        visited::<RowsRoute, PackedStore, Brand>(
            alloc,
            &RowsRoute,
            &views,
            &ENTRIES,
            Blank::new(1)
        )?
    );
    Ok(())
}

#[test]
fn a_merge_gives_the_rows_that_both_vectors_have(rt: HostRuntime) -> Result<(), Fail> {
    let alloc = rt.alloc();
    let expected = [
        Hit {
            point: [0, 0, 0, 0],
            leaves: [0, 0, 0, 0],
        },
        Hit {
            point: [2, 0, 0, 0],
            leaves: [1, 1, 0, 0],
        },
    ];
    let views = pair(alloc)?;
    assert!(&rt;
        visited::<PairRoute, PackedStore, Brand>(
            alloc,
            &PairRoute,
            &views,
            &expected,
            Blank::new(1)
        )?
    );
    Ok(())
}

#[test]
fn a_flat_step_gives_both_variables_of_an_index(rt: HostRuntime) -> Result<(), Fail> {
    let alloc = rt.alloc();
    let views = grid(alloc)?;
    assert!(&rt;
        visited::<GridRoute, PackedStore, Brand>(
            alloc,
            &GridRoute,
            &views,
            &ENTRIES,
            Blank::new(1)
        )?
    );
    Ok(())
}

/// The entries (0,0), (0,2) and (2,1) in compressed rows, in a store that counts calls.
fn probed(alloc: Global) -> Result<Items<Probe<PackedStore>>, Fail>
    ensures { IfOk result (λ views. IsWay entries_way (map ⟦<Probe<PackedStore> as Access>⟧.tree views)) }
{
    let matrix = matrix_of(alloc, 3, 3, &[entry(0, 0), entry(0, 2), entry(2, 1)])?;
    let store = PackedStore::build(alloc, &matrix, Axis::Row, true, false)?;
    let calls = Cell::new(0);
    Ok(entries_view(alloc, Probe { store, calls })?)
}

/// How often a whole visit reads a child; none where it gives other points than those of the three entries.
fn reads<L: Ledger>(
    alloc: Global,
    views: &Items<Probe<PackedStore>>,
    blank: Blank,
) -> Result<Option<u32>, NoMemory>
    requires way { IsWay entries_way (map ⟦<Probe<PackedStore> as Access>⟧.tree views.now) }
    requires name { blank.name ≡ L.name }
    requires parts { blank.parts ≡ L.parts }
    requires some { 0 < blank.parts }
{
    let mut steps: Steps<L> = Steps::start(blank);
    let points = all_points(alloc, &EntriesRoute, views, &mut steps)?;
    let expected = [
        Hit {
            point: [0, 0, 0, 0],
            leaves: [0, 0, 0, 0],
        },
        Hit {
            point: [0, 2, 0, 0],
            leaves: [1, 0, 0, 0],
        },
        Hit {
            point: [2, 1, 0, 0],
            leaves: [2, 0, 0, 0],
        },
    ];
    if points.as_slice() != expected.as_slice() {
        return Ok(None);
    }
    match views.get(0) {
        Some(view) => Ok(Some(view.calls.get())),
        None => Ok(None),
    }
}

#[test]
fn a_visit_of_three_entries_reads_six_children(rt: HostRuntime) -> Result<(), Fail> {
    let alloc = rt.alloc();
    let views = probed(alloc)?;
    assert_eq!(&rt; reads::<Brand>(alloc, &views, Blank::new(1))?, Some(6));
    Ok(())
}
