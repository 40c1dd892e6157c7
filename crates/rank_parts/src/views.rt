ghost use Rattle.std.specs.Prelude.{◌≡◌, ◌+◌, ℕ, List, Some, [], IfOk, OnOk, length, map, slice_get};
ghost use Rattle.std.specs.Arc.{arc_value};
ghost use Rattle.std.specs.List.{range_with_len};
ghost use Rattle.bern_base.specs.declared.matrix.Matrix.{Matrix as Entries};
ghost use Rattle.whole_runs.specs.Engine.{entries_in, first_state};
ghost use Rattle.rank_parts.specs.Dealing.{AreHeldParts, ArePartsOf, AreRows, CanDeal, IsDealtView, IsPartOf, IsToDeal, IsViewIn};

use access_joins::{Access, Cells};
use bern_base::{Checked, Items, Matrix, NoMemory};
use formats::{AnyStore, LocalView, build};
use placement::{AnyPlace, Part, SharedPlace, deal};
use std::alloc::Global;
use std::sync::Arc;
use whole_runs::values_fit;

/// For each rank the views of its parts of all arrays, in the indices of the arrays. `orders` has the order of its rows for each
/// array whose format names one.
///
/// The entries of an array are dealt to all ranks in one walk, and its matrix is given up before the stores of its parts are built.
pub fn rank_views(
    alloc: Global,
    job: &Checked,
    places: &Arc<Items<AnyPlace>, Global>,
    ranks: u32,
    matrices: Items<Matrix>,
    orders: &Items<Items<u32>>,
) -> Result<Items<Items<LocalView<AnyStore, SharedPlace>>>, NoMemory>
    requires { CanDeal job.now (arc_value places.now) ranks matrices orders.now }
    ensures { IfOk result (AreHeldParts ⟦<LocalView<AnyStore, SharedPlace> as Access>⟧.tree
        ⟦<LocalView<AnyStore, SharedPlace> as Cells>⟧.grid job.now (entries_in matrices) (first_state matrices) (arc_value places.now) ranks) }
{
    let mut views = no_views(alloc, ranks)?;
    let mut number = 0;
    for matrix in matrices.into_vec() {
        add_array(
            alloc,
            job,
            places,
            ranks,
            number,
            matrix,
            orders.at(number),
            &mut views,
        )?;
        number += 1;
    }
    Ok(views)
}

/// No views, for each of so many ranks.
fn no_views(
    alloc: Global,
    ranks: u32,
) -> Result<Items<Items<LocalView<AnyStore, SharedPlace>>>, NoMemory>
    ensures { IfOk result (λ lists. lists ≡ map (λ _. []) (range_with_len 0 ranks)) }
{
    let mut lists = Items::from_vec(Vec::with_capacity(alloc, ranks as usize)?);
    'ranks: for _ in 0..ranks {
        lists.push(Items::new(alloc))?;
    }
    Ok(lists)
}

/// Appends to the views of each rank that of its part of one array more.
fn add_array(
    alloc: Global,
    job: &Checked,
    places: &Arc<Items<AnyPlace>, Global>,
    ranks: u32,
    number: usize,
    matrix: Matrix,
    order: &Items<u32>,
    views: &mut Items<Items<LocalView<AnyStore, SharedPlace>>>,
) -> Result<(), NoMemory>
    requires deals { IsToDeal job.now (arc_value places.now) ranks number matrix order.now }
    requires count { length views.old ≡ ranks }
    ensures count { length views.new ≡ ranks }
    ensures adds { (ms : List Entries) → slice_get ms number ≡ Some matrix →
        AreRows views.old (IsViewIn ⟦<LocalView<AnyStore, SharedPlace> as Access>⟧.tree
        ⟦<LocalView<AnyStore, SharedPlace> as Cells>⟧.grid job.now (arc_value places.now) ranks ms) ranks number 0 →
        OnOk result (AreRows views.new (IsViewIn ⟦<LocalView<AnyStore, SharedPlace> as Access>⟧.tree
        ⟦<LocalView<AnyStore, SharedPlace> as Cells>⟧.grid job.now (arc_value places.now) ranks ms) ranks (number + 1) 0) }
{
    values_fit(&matrix);
    let array = job.arrays.at(number);
    let place = places.at(array.place as usize);
    let parts = deal(alloc, &matrix, place, array.axis, ranks)?;
    add_parts(alloc, job, places, ranks, number, parts, order, views)
}

/// The same, from the parts of all ranks.
fn add_parts(
    alloc: Global,
    job: &Checked,
    places: &Arc<Items<AnyPlace>, Global>,
    ranks: u32,
    number: usize,
    parts: Items<Part>,
    order: &Items<u32>,
    views: &mut Items<Items<LocalView<AnyStore, SharedPlace>>>,
) -> Result<(), NoMemory>
    requires parts { (m : Entries) × ArePartsOf job.now (arc_value places.now) ranks number m order.now parts }
    requires count { length views.old ≡ ranks }
    ensures count { length views.new ≡ ranks }
    ensures adds { (ms : List Entries) (m : Entries) → slice_get ms number ≡ Some m →
        ArePartsOf job.now (arc_value places.now) ranks number m order.now parts →
        AreRows views.old (IsViewIn ⟦<LocalView<AnyStore, SharedPlace> as Access>⟧.tree
        ⟦<LocalView<AnyStore, SharedPlace> as Cells>⟧.grid job.now (arc_value places.now) ranks ms) ranks number 0 →
        OnOk result (AreRows views.new (IsViewIn ⟦<LocalView<AnyStore, SharedPlace> as Access>⟧.tree
        ⟦<LocalView<AnyStore, SharedPlace> as Cells>⟧.grid job.now (arc_value places.now) ranks ms) ranks (number + 1) 0) }
{
    let mut rank = 0;
    for part in parts.into_vec() {
        let view = part_view(alloc, job, places, number, rank, &part, order)?;
        match views.offer_at(rank as usize, view) {
            Ok(()) => {}
            Err(_) => return Err(NoMemory),
        }
        rank += 1;
    }
    Ok(())
}

/// The view of a rank's part of an array.
fn part_view(
    alloc: Global,
    job: &Checked,
    places: &Arc<Items<AnyPlace>, Global>,
    number: usize,
    rank: u32,
    part: &Part,
    order: &Items<u32>,
) -> Result<LocalView<AnyStore, SharedPlace>, NoMemory>
    requires { (ranks : ℕ) × ((m : Entries) × IsPartOf job.now (arc_value places.now) ranks number rank m order.now part.now) }
    ensures { (ranks : ℕ) (m : Entries) → IsPartOf job.now (arc_value places.now) ranks number rank m order.now part.now →
        IfOk result (λ view. IsDealtView job.now (arc_value places.now) ranks rank number m
        (⟦<LocalView<AnyStore, SharedPlace> as Access>⟧.tree view) (⟦<LocalView<AnyStore, SharedPlace> as Cells>⟧.grid view)) }
{
    let array = job.arrays.at(number);
    let format = job.formats.at(array.format as usize);
    let store = build(alloc, format, part, order)?;
    let place = SharedPlace::new(Arc::try_clone(places)?, array.place);
    Ok(LocalView::new(store, place, array.axis, array.cols, rank))
}
