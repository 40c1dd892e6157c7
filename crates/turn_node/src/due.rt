ghost use Rattle.std.specs.Prelude.{◌≡◌, ◌<◌, ◌^◌, length, replicate, filter, IfOk};
ghost use Rattle.std.specs.List.{sum_by};
ghost use Rattle.turn_model.specs.Runs.{is_due_in, is_for, some_due};
ghost use Rattle.turn_node.specs.Asks.{elements_in, no_needs};

use bern_base::{Items, NeedSet, Needs, NoMemory};
use std::alloc::Global;

/// Whether some set has an element for the nest.
pub(crate) fn is_due(sets: &[NeedSet], nest: u32) -> bool
    ensures { result ≡ some_due nest sets.now }
{
    sets.iter().any(|set| is_due_in(set, nest))
}

/// Whether the set has an element for the nest.
fn is_due_in(set: &NeedSet, nest: u32) -> bool
    ensures { result ≡ is_due_in nest set.now }
{
    set.nest == nest && set.elements.len() != 0
}

/// How many elements the sets for the nest have.
pub(crate) fn elements_due(sets: &[NeedSet], nest: u32) -> u64
    requires { sum_by elements_in (filter (is_for nest) sets.now) < 2 ^ 64 }
    ensures { result ≡ sum_by elements_in (filter (is_for nest) sets.now) }
{
    let mut count = 0;
    for set in sets {
        if set.nest == nest {
            count += set.elements.len() as u64;
        }
    }
    count
}

/// Nothing asked, by each of so many ranks.
pub(crate) fn nothing_asked(alloc: Global, ranks: u32) -> Result<Items<Needs>, NoMemory>
    ensures { IfOk result (λ asked. asked ≡ replicate ranks no_needs) }
{
    let mut asked = Vec::with_capacity(alloc, ranks as usize)?;
    for _ in 0..ranks {
        asked.push(Needs {
            sets: Items::new(alloc),
        })?;
    }
    Ok(Items::from_vec(asked))
}

/// No letter taken, of each of so many ranks.
pub(crate) fn no_counts(alloc: Global, ranks: u32) -> Result<Items<u64>, NoMemory>
    ensures { IfOk result (λ counts. counts ≡ replicate ranks 0) }
{
    let counts = vec![in alloc; 0; ranks as usize]?;
    Ok(Items::from_vec(counts))
}

/// A copy of what is needed.
pub(crate) fn needs_like(alloc: Global, needs: &Needs) -> Result<Needs, NoMemory>
    ensures { IfOk result (λ like. like ≡ needs.now) }
{
    let mut sets = Vec::with_capacity(alloc, needs.sets.len())?;
    for set in needs.sets.as_slice() {
        sets.push(set_like(alloc, set)?)?;
    }
    Ok(Needs {
        sets: Items::from_vec(sets),
    })
}

fn set_like(alloc: Global, set: &NeedSet) -> Result<NeedSet, NoMemory>
    ensures { IfOk result (λ like. like ≡ set.now) }
{
    Ok(NeedSet {
        nest: set.nest,
        owner: set.owner,
        array: set.array,
        elements: Items::from_slice(alloc, set.elements.as_slice())?,
    })
}
