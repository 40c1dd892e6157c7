ghost use Rattle.std.specs.Prelude.{◌≡◌, IfOk};
ghost use Rattle.rank_node.specs.Letters.{asked_in, asked_elements, request_of, turn_values};

use bern_base::{Items, Letter, NeedSet, Needs, NoMemory, Val};
use std::alloc::Global;

/// The elements that the first of these letters, a Request, asks for; none where there is no letter.
pub(crate) fn asked_in(letters: &Items<Letter>) -> &[u32]
    ensures { result.now ≡ asked_in letters.now }
{
    match letters.get(0) {
        Some(Letter::Request(needs)) => asked_elements(needs),
        _ => &[],
    }
}

fn asked_elements(needs: &Needs) -> &[u32]
    ensures { result.now ≡ asked_elements needs.now.sets }
{
    match needs.sets.get(0) {
        Some(set) => set.elements.as_slice(),
        None => &[],
    }
}

/// The values of the turn: those of the letter after the Request.
pub(crate) fn values_in(letters: &Items<Letter>) -> &[Val]
    ensures { result.now ≡ turn_values letters.now }
{
    match letters.get(1) {
        Some(Letter::Values { values, .. }) => values.as_slice(),
        _ => &[],
    }
}

/// The Request for these elements of an array to their owner.
pub(crate) fn request_of(
    alloc: Global,
    owner: u32,
    array: u32,
    elements: &[u32],
) -> Result<Letter, NoMemory>
    ensures { IfOk result (λ letter. letter ≡ request_of owner array elements.now) }
{
    let mut sets = Items::new(alloc);
    if !elements.is_empty() {
        sets.push(NeedSet {
            nest: 0,
            owner,
            array,
            elements: Items::from_slice(alloc, elements)?,
        })?;
    }
    Ok(Letter::Request(Needs { sets }))
}
