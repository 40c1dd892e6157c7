ghost use Rattle.std.specs.Prelude.{◌≡◌, ◌+◌, ◌≤◌, ◌++◌, OnOk, OnErr, vec_len, vec_capacity};
ghost use Rattle.mm_text.specs.Counts.{counted_list};

use crate::entry_line::Counted;
use bern_base::{Entry, NoMemory};
use mm_profile::{Field, Format, Head, Symmetry};

/// How many entries are made room for at least.
const BLOCK: usize = 4096;

/// The bytes of the shortest entry line.
fn least_line(head: &Head) -> usize
    ensures { 2 ≤ result }
{
    match (head.kind.format, head.kind.field) {
        (Format::Array, _) => 2,
        (Format::Coordinate, Field::Pattern) => 4,
        (Format::Coordinate, Field::Integer) => 6,
    }
}

/// For how many elements an entry may count.
fn copies(symmetry: Symmetry) -> usize
    ensures { result ≤ 2 }
{
    match symmetry {
        Symmetry::General => 1,
        Symmetry::Symmetric | Symmetry::Skew => 2,
    }
}

/// How many entries so many bytes can hold, and no more than the file states; and one more, since a line asks for room for two.
pub(crate) fn room_for(head: &Head, to_come: usize) -> usize {
    let stated = head.stated as usize;
    let lines = (to_come / least_line(head) + 1).min(stated);
    let most = lines * copies(head.kind.symmetry);
    match head.kind.format {
        Format::Coordinate => most + 1,
        Format::Array => most.min(stated) + 1,
    }
}

/// How many entries more to make room for: as many as there are, but no more than the file states.
fn more_room(head: &Head, len: usize) -> usize
    ensures { 2 ≤ result }
{
    let most = room_for(head, usize::MAX).saturating_sub(len);
    len.max(BLOCK).min(most).max(2)
}

/// Makes room for more entries.
#[inline(never)]
fn grow(head: &Head, entries: &mut Vec<Entry>) -> Result<(), NoMemory>
    ensures same { entries.new.items ≡ entries.old.items }
    ensures room { OnOk result (vec_len entries.new + 2 ≤ vec_capacity entries.new) }
{
    match entries.reserve_exact(more_room(head, entries.len())) {
        Ok(()) => Ok(()),
        Err(_) => Err(NoMemory),
    }
}

/// Makes room for what one more line counts for.
#[inline(always)]
fn make_room(head: &Head, entries: &mut Vec<Entry>) -> Result<(), NoMemory>
    ensures same { entries.new.items ≡ entries.old.items }
    ensures room { OnOk result (vec_len entries.new + 2 ≤ vec_capacity entries.new) }
{
    if entries.capacity() - entries.len() >= 2 {
        return Ok(());
    }
    grow(head, entries)
}

/// Appends what a line counts for; after want of memory the entries are as before.
#[inline(always)]
pub(crate) fn append(
    head: &Head,
    entries: &mut Vec<Entry>,
    counted: Counted,
) -> Result<(), NoMemory>
    ensures ok { OnOk result (entries.new.items ≡ entries.old.items ++ counted_list counted) }
    ensures err { OnErr result (entries.new.items ≡ entries.old.items) }
{
    make_room(head, entries)?;
    match counted {
        Counted::One(entry) => entries.push_reserved(entry),
        Counted::Two(entry, mirrored) => {
            entries.push_reserved(entry);
            entries.push_reserved(mirrored);
        }
    }
    Ok(())
}
