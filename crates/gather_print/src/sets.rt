ghost use Rattle.std.specs.Prelude.{◌≡◌, ◌++◌, ◌==◌, IfOk, List, OnOk, [], if◌then◌else◌, slice_get};
ghost use Rattle.std.specs.List.{flat_map};
ghost use Rattle.gather_print.specs.SetsText.{array_name, element_word, nest_text, rank_text, set_line, sets_text};

use bern_base::{Checked, Items, NeedSet, Needs, NoMemory, Text};
use itoa::Buffer;
use std::alloc::Global;

/// The printed receive sets of all ranks: a line `nest K rank P from Q NAME E E ..` for each set, by nest, rank, owner and array.
/// K counts from 1, ranks and elements from 0.
///
/// `needs` has one item for each rank, by its number, with its sets by nest, owner and array. Each set is looked at once for each
/// nest of the job.
pub fn sets_text(alloc: Global, job: &Checked, needs: &Items<Needs>) -> Result<Text, NoMemory>
    ensures { IfOk result (λ text. text ≡ sets_text job.now needs.now) }
{
    let mut text = Text::new(alloc);
    for nest in 0..job.nests.len() {
        append_nest(job, needs, nest, &mut text)?;
    }
    Ok(text)
}

/// Appends the lines of a nest, rank by rank.
fn append_nest(
    job: &Checked,
    needs: &Items<Needs>,
    nest: usize,
    text: &mut Text,
) -> Result<(), NoMemory>
    ensures { OnOk result (text.new ≡ text.old ++ nest_text job.now needs.now nest) }
{
    for rank in 0..needs.len() {
        append_rank(job, needs.at(rank), nest, rank, text)?;
    }
    Ok(())
}

/// Appends the lines of a rank for a nest.
fn append_rank(
    job: &Checked,
    needs: &Needs,
    nest: usize,
    rank: usize,
    text: &mut Text,
) -> Result<(), NoMemory>
    ensures { OnOk result (text.new ≡ text.old ++ rank_text job.now nest rank needs.now) }
{
    for set in needs.sets.as_slice() {
        append_where(job, set, nest, rank, text)?;
    }
    Ok(())
}

/// Appends the line of a set, where it is one of the nest.
fn append_where(
    job: &Checked,
    set: &NeedSet,
    nest: usize,
    rank: usize,
    text: &mut Text,
) -> Result<(), NoMemory>
    ensures { OnOk result (text.new ≡ text.old ++ (if set.now.nest == nest then set_line job.now rank set.now else [])) }
{
    if set.nest as usize == nest {
        append_set(job, set, rank, text)?;
    }
    Ok(())
}

/// Appends the line of a set.
fn append_set(job: &Checked, set: &NeedSet, rank: usize, text: &mut Text) -> Result<(), NoMemory>
    ensures { OnOk result (text.new ≡ text.old ++ set_line job.now rank set.now) }
{
    let mut digits = Buffer::new();
    text.append(b"nest ")?;
    text.append(digits.format(u64::from(set.nest) + 1).as_bytes())?;
    text.append(b" rank ")?;
    text.append(digits.format(rank).as_bytes())?;
    text.append(b" from ")?;
    text.append(digits.format(set.owner).as_bytes())?;
    text.append(b" ")?;
    append_name(job, set.array, text)?;
    append_elements(set.elements.as_slice(), text)?;
    text.append(b"\n")
}

/// Appends the name of an array, or nothing where there is none of this number.
fn append_name(job: &Checked, array: u32, text: &mut Text) -> Result<(), NoMemory>
    ensures { OnOk result (text.new ≡ text.old ++ array_name (slice_get job.now.arrays array)) }
{
    match job.arrays.get(array as usize) {
        Some(array) => text.append(array.name.as_bytes()),
        None => Ok(()),
    }
}

/// Appends element numbers, each after a blank.
fn append_elements(elements: &[u32], text: &mut Text) -> Result<(), NoMemory>
    ensures { OnOk result (text.new ≡ text.old ++ flat_map element_word elements.now) }
{
    let mut digits = Buffer::new();
    for element in elements {
        text.append(b" ")?;
        text.append(digits.format(*element).as_bytes())?;
    }
    Ok(())
}
