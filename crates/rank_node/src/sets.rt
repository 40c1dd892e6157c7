ghost use Rattle.std.specs.Prelude.{◌≡◌, ◌<◌, length, IfOk, slice_index, [], replicate};
ghost use Rattle.std.specs.List.{All};
ghost use Rattle.placement.specs.Placement.{owner_of, owned_of};
ghost use Rattle.rank_node.specs.Sets.{all_asked, own_values, IsMarked, ArePut};

use bern_base::{Entry, Items, NoMemory, Val};
use placement::Placement;
use std::alloc::Global;

/// For each rank the elements that it owns and these entries read, rising; none for the rank itself.
///
/// It takes time linear in the entries, the extent and the ranks.
pub fn asked_sets<P: Placement>(
    alloc: Global,
    entries: &[Entry],
    extent: u32,
    place: &P,
    rank: u32,
    ranks: u32,
) -> Result<Items<Items<u32>>, NoMemory>
    requires extent { length (P.triples place.now) ≡ extent }
    requires ranks { P.ranks place.now ≡ ranks }
    requires cols { All (λ e. e.col < extent) entries.now }
    ensures { IfOk result (λ sets. sets ≡ all_asked (P.triples place.now) entries.now extent rank ranks) }
{
    let marks = marks(alloc, entries, extent)?;
    let mut sets = empty_lists(alloc, ranks)?;
    for element in 0..extent {
        if marks[element as usize] {
            let owner = place.owner(element);
            if owner != rank {
                sets[owner as usize].push(element)?;
            }
        }
    }
    Ok(Items::from_vec(sets))
}

/// Whether an entry reads it, for each element.
fn marks(alloc: Global, entries: &[Entry], extent: u32) -> Result<Vec<bool>, NoMemory>
    requires { All (λ e. e.col < extent) entries.now }
    ensures { IfOk result (λ marks. IsMarked entries.now extent marks.items) }
{
    let mut marks = vec![in alloc; false; extent as usize]?;
    for entry in entries {
        marks[entry.col as usize] = true;
    }
    Ok(marks)
}

/// The values of elements that the rank owns.
pub fn values_at<P: Placement>(
    alloc: Global,
    elements: &[u32],
    place: &P,
    rank: u32,
    own: &[Val],
) -> Result<Items<Val>, NoMemory>
    requires elements { All (λ w. w < length (P.triples place.now)) elements.now }
    requires owned { All (λ w. owner_of (P.triples place.now) w ≡ rank) elements.now }
    requires own { length own.now ≡ owned_of (P.triples place.now) rank }
    ensures { IfOk result (λ values. values ≡ own_values (P.triples place.now) own.now elements.now) }
{
    let mut values = Vec::with_capacity(alloc, elements.len())?;
    for element in elements {
        values.push(own[place.local(*element) as usize])?;
    }
    Ok(Items::from_vec(values))
}

/// Puts each value at the number of its element.
pub(crate) fn put_values(elements: &[u32], values: &[Val], known: &mut Vec<Val>)
    requires elements { All (λ w. w < length known.old.items) elements.now }
    requires values { length values.now ≡ length elements.now }
    ensures { ArePut elements.now values.now (length elements.now) known.old.items known.new.items }
{
    for at in 0..elements.len() {
        known[elements[at] as usize] = values[at];
    }
}

/// So many empty lists.
pub(crate) fn empty_lists<T: Drop>(alloc: Global, count: u32) -> Result<Vec<Items<T>>, NoMemory>
    ensures { IfOk result (λ lists. lists.items ≡ replicate count []) }
{
    let mut lists = Vec::with_capacity(alloc, count as usize)?;
    for _ in 0..count {
        lists.push(Items::new(alloc))?;
    }
    Ok(lists)
}
