ghost use Rattle.std.specs.Prelude.{◌≡◌, ◌<◌};
ghost use Rattle.format_model.specs.Trees.{IsParent};

use access_joins::Access;
use bern_base::{Axis, NoMemory, Steps};
use std::alloc::Global;
use std::sync::ledger::{Blank, Ledger};

/// An outer index, an inner one (0 in a store of one level) and the value there.
pub type Path = (u64, u64, u64);

/// All paths of a store, in its order, by `at`.
fn paths<A: Access>(alloc: Global, store: &A) -> Result<Vec<Path>, NoMemory> {
    let mut paths = Vec::new(alloc);
    for k in 0..store.count(0, 0) {
        let (outer, node) = store.at(0, 0, k);
        if store.levels() == 1 {
            paths.push((outer, 0, store.value(node).bits()))?;
        } else {
            add_line(&mut paths, store, outer, node)?;
        }
    }
    Ok(paths)
}

fn add_line<A: Access>(
    paths: &mut Vec<Path>,
    store: &A,
    outer: u64,
    node: u32,
) -> Result<(), NoMemory>
    requires { IsParent (A.tree store.now) 1 node }
{
    for k in 0..store.count(1, node) {
        let (inner, leaf) = store.at(1, node, k);
        paths.push((outer, inner, store.value(leaf).bits()))?;
    }
    Ok(())
}

/// The same paths, by `line` and `entry`.
fn entries<A: Access>(alloc: Global, store: &A) -> Result<Vec<Path>, NoMemory> {
    let mut paths = Vec::new(alloc);
    let line = store.line(0, 0);
    for place in line.from..line.to {
        let (outer, node) = store.entry(0, 0, line.from, place);
        if store.levels() == 1 {
            paths.push((outer, 0, store.value(node).bits()))?;
        } else {
            add_entries(&mut paths, store, outer, node)?;
        }
    }
    Ok(paths)
}

fn add_entries<A: Access>(
    paths: &mut Vec<Path>,
    store: &A,
    outer: u64,
    node: u32,
) -> Result<(), NoMemory>
    requires { IsParent (A.tree store.now) 1 node }
{
    let line = store.line(1, node);
    for place in line.from..line.to {
        let (inner, leaf) = store.entry(1, node, line.from, place);
        paths.push((outer, inner, store.value(leaf).bits()))?;
    }
    Ok(())
}

/// The value that searches find at a row and a column, in a part with so many columns.
fn found<A: Access, L: Ledger>(
    store: &A,
    row: u32,
    col: u32,
    cols: u32,
    steps: &mut Steps<L>,
) -> Option<u64> {
    let outer = index_on(store.axis(0), row, col, cols);
    let node = store.find(0, 0, outer, steps)?;
    if store.levels() == 1 {
        return Some(store.value(node).bits());
    }
    let inner = index_on(store.axis(1), row, col, cols);
    let leaf = store.find(1, node, inner, steps)?;
    Some(store.value(leaf).bits())
}

fn index_on(axis: Axis, row: u32, col: u32, cols: u32) -> u64 {
    match axis {
        Axis::Row => row as u64,
        Axis::Col => col as u64,
        Axis::Both => row as u64 * cols as u64 + col as u64,
    }
}

/// What searches find at each element, row after row; 9 where nothing is stored.
fn searched<A: Access, L: Ledger>(
    alloc: Global,
    store: &A,
    rows: u32,
    cols: u32,
    blank: Blank,
) -> Result<Vec<u64>, NoMemory>
    requires name { blank.name ≡ L.name }
    requires parts { blank.parts ≡ L.parts }
    requires some { 0 < blank.parts }
{
    let mut steps: Steps<L> = Steps::start(blank);
    let mut values = Vec::new(alloc);
    for row in 0..rows {
        for col in 0..cols {
            values.push(found(store, row, col, cols, &mut steps).unwrap_or(9))?;
        }
    }
    Ok(values)
}

/// Whether a store of so many rows and columns is read back by these paths, by `at` as by `entry`, and searches find these values,
/// row after row, with 9 where nothing is stored.
pub fn reads_as<A: Access, L: Ledger>(
    alloc: Global,
    store: &A,
    rows: u32,
    cols: u32,
    expected: &[Path],
    values: &[u64],
    blank: Blank,
) -> Result<bool, NoMemory>
    requires name { blank.name ≡ L.name }
    requires parts { blank.parts ≡ L.parts }
    requires some { 0 < blank.parts }
{
    let by_places = paths(alloc, store)?;
    let by_lines = entries(alloc, store)?;
    let by_searches = searched::<A, L>(alloc, store, rows, cols, blank)?;
    Ok(
        by_places.as_slice() == expected
            && by_lines.as_slice() == expected
            && by_searches.as_slice() == values,
    )
}
