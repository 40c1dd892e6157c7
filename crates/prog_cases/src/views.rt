ghost use Rattle.std.specs.Prelude.{◌≡◌, ◌<◌, IfOk, length, map};
ghost use Rattle.format_model.specs.Trees.{IsTree};
ghost use Rattle.formats.specs.Admitted.{IsAdmitted};
ghost use Rattle.node_prog.specs.Conditions.{IsViewIn};
ghost use Rattle.placement.specs.Part.{extent_on};
ghost use Rattle.prog_cases.specs.Settings.{AreDealt, AreViewsIn, IsLoaded, IsSeen};

use crate::loading::Loaded;
use access_joins::Access;
use bern_base::{ArrayDecl, Axis, Checked, FormatDecl, Items, Matrix};
use formats::{AnyStore, build};
use job_files::weight_within;
use local_views::LocalView;
use placement::{Cyclic, Placement, split};
use std::alloc::Global;
use std::cell::Cell;
use std::test::Fail;
use visit_cases::Probe;

/// A rank's part of an array in the indices of the array, which counts the calls that read a child.
pub(crate) type View = Probe<LocalView<AnyStore, Cyclic>>;

fn counted<V: Access>(store: V) -> Probe<V>
    ensures store { result.store ≡ store }
    ensures lawful { IsTree (V.tree store) }
{
    Probe {
        store,
        calls: Cell::new(0),
    }
}

/// How many indices the axis has along which an array is split.
fn split_size(array: &ArrayDecl) -> u32
    ensures { result ≡ extent_on array.now.axis array.now.rows array.now.cols }
{
    match array.axis {
        Axis::Col => array.cols,
        _ => array.rows,
    }
}

/// The part of a rank, where rows or columns are dealt one at a time.
fn part_view(
    alloc: Global,
    array: &ArrayDecl,
    format: &FormatDecl,
    matrix: &Matrix,
    order: &Items<u32>,
    ranks: u32,
    rank: u32,
) -> Result<View, Fail>
    requires admitted { IsAdmitted array.now format.now ranks order.now matrix.now }
    requires rank { rank < ranks }
    ensures { IfOk result (λ v. IsSeen format.now (⟦<Probe<LocalView<AnyStore, Cyclic>> as Access>⟧.tree v)) }
{
    let place = Cyclic::new(split_size(array), ranks, 1);
    let part = split(alloc, matrix, &place, array.axis, rank)?;
    let store = build(alloc, format, &part, order)?;
    let view = LocalView::new(store, place, array.axis, array.cols, rank);
    Ok(counted(view))
}

/// The part of an array of a job.
fn view_of(
    alloc: Global,
    loaded: &Loaded,
    number: usize,
    ranks: u32,
    rank: u32,
) -> Result<View, Fail>
    requires loaded { let l = loaded.now in IsLoaded l.job l.files.matrices l.files.orders l.stats }
    requires number { number < length loaded.now.job.arrays }
    requires rank { rank < ranks }
    ensures { IfOk result (λ v. IsViewIn loaded.now.job number (⟦<Probe<LocalView<AnyStore, Cyclic>> as Access>⟧.tree v)) }
{
    let array = loaded.job.arrays.at(number);
    let format = loaded.job.formats.at(array.format as usize);
    let matrix = loaded.files.matrices.at(number);
    let order = loaded.files.orders.at(number);
    if array.axis == Axis::Both {
        return Err(Fail::from("an array that is split along both axes"));
    }
    let Some(weight) = weight_within(&loaded.job, ranks) else {
        return Err(Fail::from("a job that weighs too much"));
    };
    if weight > 1000 {
        return Err(Fail::from("a large job"));
    }
    if matrix.entries.len() > 1000 {
        return Err(Fail::from("a large matrix"));
    }
    part_view(alloc, array, format, matrix, order, ranks, rank)
}

/// The parts of a rank of all arrays of a job.
pub(crate) fn views(
    alloc: Global,
    loaded: &Loaded,
    ranks: u32,
    rank: u32,
) -> Result<Items<View>, Fail>
    requires loaded { let l = loaded.now in IsLoaded l.job l.files.matrices l.files.orders l.stats }
    requires rank { rank < ranks }
    ensures { IfOk result (λ vs. AreViewsIn loaded.now.job (map ⟦<Probe<LocalView<AnyStore, Cyclic>> as Access>⟧.tree vs)) }
{
    let mut views = Items::new(alloc);
    for number in 0..loaded.job.arrays.len() {
        views.push(view_of(alloc, loaded, number, ranks, rank)?)?;
    }
    Ok(views)
}

/// The place of a job with one place line, whose indices are dealt one at a time.
pub(crate) fn dealt(alloc: Global, job: &Checked, ranks: u32) -> Result<Items<Cyclic>, Fail>
    requires { 0 < ranks }
    ensures { IfOk result (AreDealt job.now ranks) }
{
    if job.places.len() != 1 {
        return Err(Fail::from("places"));
    }
    let line = job.places.get(0).ok_or("no place")?;
    let extent = job.extents.get(line.extent as usize).ok_or("no extent")?;
    let mut places = Items::new(alloc);
    places.push(Cyclic::new(extent.size, ranks, 1))?;
    Ok(places)
}
