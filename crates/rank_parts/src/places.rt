ghost use Rattle.std.specs.Prelude.{◌≡◌, ◌≤◌, IfOk};
ghost use Rattle.std.specs.List.{AllZip};
ghost use Rattle.job_files.specs.PlaceLists.{IsPlaceList};
ghost use Rattle.job_model.specs.Accepted.{HasBlock, IsAccepted};
ghost use Rattle.rank_parts.specs.Placing.{ArePlacesFor, IsPlaceFor, dealt_triples};

use bern_base::{Checked, Items, NoMemory, PlaceKind};
use placement::{AnyPlace, Cyclic, Listed, Placement};
use std::alloc::Global;

/// The place of each place line of a job on so many ranks: blocks that are dealt to the ranks in turn, or as a file lists the ranks
/// of the indices. `lists` has for each place line that names a file the places that the file lists, and none for the others.
pub fn rank_places(
    alloc: Global,
    job: &Checked,
    ranks: u32,
    lists: Items<Option<Listed>>,
) -> Result<Items<AnyPlace>, NoMemory>
    requires accepted { IsAccepted job.now }
    requires some { 1 ≤ ranks }
    requires lists { AllZip (IsPlaceList job.now.extents ranks) job.now.places lists }
    ensures { IfOk result (ArePlacesFor job.now ranks lists) }
{
    let mut places = Items::new(alloc);
    for list in lists.into_vec() {
        let line = job.places.at(places.len());
        let size = job.extents.at(line.extent as usize).size;
        places.push(rank_place(size, ranks, &line.kind, list))?;
    }
    Ok(places)
}

/// The place of so many indices on so many ranks.
fn rank_place(size: u32, ranks: u32, kind: &PlaceKind, list: Option<Listed>) -> AnyPlace
    requires size { 1 ≤ size }
    requires some { 1 ≤ ranks }
    requires block { HasBlock kind.now }
    ensures { IsPlaceFor size ranks kind.now list result }
{
    match list {
        Some(list) => AnyPlace::Listed(list),
        None => AnyPlace::Cyclic(dealt(size, ranks, kind)),
    }
}

/// Blocks of the length that the place names, or of the least length for which each rank has at most one.
fn dealt(size: u32, ranks: u32, kind: &PlaceKind) -> Cyclic
    requires size { 1 ≤ size }
    requires some { 1 ≤ ranks }
    requires block { HasBlock kind.now }
    ensures ranks { ⟦<Cyclic as Placement>⟧.ranks result ≡ ranks }
    ensures triples { ⟦<Cyclic as Placement>⟧.triples result ≡ dealt_triples size ranks kind.now }
{
    match kind {
        PlaceKind::Cyclic(block) => Cyclic::new(size, ranks, *block),
        _ => Cyclic::block(size, ranks),
    }
}
