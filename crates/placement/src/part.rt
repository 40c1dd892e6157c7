ghost use Rattle.std.specs.Prelude.{◌≡◌, ◌≢◌, ◌<◌, [], length, map, filter, All, IfOk};
ghost use Rattle.std.specs.List.Sorted.{IsStrictlyIncreasing};
ghost use Rattle.bern_base.specs.Matrix.{IsMatrix};
ghost use Rattle.placement.specs.Placement.{owned_indices};
ghost use Rattle.std.specs.List.{range_with_len};
ghost use Rattle.placement.specs.Part.{index_on, extent_on, part_rows, part_cols, with_index, owner_of_entry, is_owned, localized, part_of, dealt};

use crate::place::Placement;
use bern_base::{Axis, Entry, Items, Matrix, NoMemory};
use std::alloc::Global;

/// What a rank owns of a matrix.
#[derive(Debug, Drop)]
pub struct Part {
    /// The rank's entries, with local indices on the split axis.
    pub matrix: Matrix,
    /// The indices of the split axis that the rank owns, rising. Local index `l` stands for `globals[l]`.
    pub globals: Items<u32>,
}

/// The part of a matrix that a rank owns, where the matrix is split along the rows or the columns.
///
/// Its entries are those of the rank in the order of the matrix, also those with the value 0. It takes time linear in
/// the entries of the matrix and the indices of the rank.
pub fn split<P: Placement>(
    alloc: Global,
    matrix: &Matrix,
    place: &P,
    axis: Axis,
    rank: u32,
) -> Result<Part, NoMemory>
    requires axis { axis ≢ Axis.Both }
    requires matrix { IsMatrix matrix.now }
    requires extent { extent_on axis matrix.now.rows matrix.now.cols ≡ length (P.triples place.now) }
    requires rank { rank < P.ranks place.now }
    ensures part { IfOk result (λ part. part ≡ part_of axis (P.triples place.now) rank matrix.now) }
    ensures matrix { IfOk result (λ part. IsMatrix part.matrix) }
    ensures globals { IfOk result (λ part. IsStrictlyIncreasing part.globals) }
{
    let entries = owned_entries(alloc, matrix.entries.as_slice(), place, axis, rank)?;
    part_with(alloc, matrix, place, axis, rank, entries)
}

/// The parts of a matrix for all ranks, in their order: for each rank what `split` gives, by one walk of the entries.
///
/// It takes time linear in the entries of the matrix, the indices of the split axis and the ranks.
pub fn deal<P: Placement>(
    alloc: Global,
    matrix: &Matrix,
    place: &P,
    axis: Axis,
    ranks: u32,
) -> Result<Items<Part>, NoMemory>
    requires axis { axis ≢ Axis.Both }
    requires matrix { IsMatrix matrix.now }
    requires extent { extent_on axis matrix.now.rows matrix.now.cols ≡ length (P.triples place.now) }
    requires ranks { ranks ≡ P.ranks place.now }
    ensures parts { IfOk result (λ parts. parts ≡ map (λ p. part_of axis (P.triples place.now) p matrix.now) (range_with_len 0 ranks)) }
    ensures matrix { IfOk result (All (λ part. IsMatrix part.matrix)) }
    ensures globals { IfOk result (All (λ part. IsStrictlyIncreasing part.globals)) }
{
    let lists = dealt_entries(alloc, matrix.entries.as_slice(), place, axis, ranks)?;
    let mut lists = lists.into_vec().into_iter();
    let mut parts = Items::new(alloc);
    for rank in 0..ranks {
        let entries = match lists.next() {
            Some(entries) => entries,
            None => unreachable!(),
        };
        parts.push(part_with(alloc, matrix, place, axis, rank, entries)?)?;
    }
    Ok(parts)
}

/// The part of a rank, from its entries with local indices.
fn part_with<P: Placement>(
    alloc: Global,
    matrix: &Matrix,
    place: &P,
    axis: Axis,
    rank: u32,
    entries: Items<Entry>,
) -> Result<Part, NoMemory>
    requires matrix { IsMatrix matrix.now }
    requires extent { extent_on axis matrix.now.rows matrix.now.cols ≡ length (P.triples place.now) }
    requires rank { rank < P.ranks place.now }
    requires entries { entries ≡ (part_of axis (P.triples place.now) rank matrix.now).matrix.entries }
    ensures part { IfOk result (λ part. part ≡ part_of axis (P.triples place.now) rank matrix.now) }
    ensures matrix { IfOk result (λ part. IsMatrix part.matrix) }
    ensures globals { IfOk result (λ part. IsStrictlyIncreasing part.globals) }
{
    let globals = globals(alloc, place, rank)?;
    let matrix = part_matrix(axis, matrix, place.owned(rank), entries);
    Ok(Part { matrix, globals })
}

/// For each rank its entries, in the order in which they are given, with local indices.
fn dealt_entries<P: Placement>(
    alloc: Global,
    entries: &[Entry],
    place: &P,
    axis: Axis,
    ranks: u32,
) -> Result<Items<Items<Entry>>, NoMemory>
    requires ranks { ranks ≡ P.ranks place.now }
    requires inside { All (λ e. index_on axis e < length (P.triples place.now)) entries.now }
    ensures { IfOk result (λ lists.
        lists ≡ dealt (owner_of_entry axis (P.triples place.now)) (localized axis (P.triples place.now)) ranks entries.now) }
{
    let mut lists = empty_lists(alloc, ranks)?;
    for entry in entries {
        let seat = place.seat(index_on(axis, entry));
        let own = with_index(axis, entry, seat.local);
        match lists.offer_at(seat.owner as usize, own) {
            Ok(()) => {}
            Err(_) => return Err(NoMemory),
        }
    }
    Ok(lists)
}

/// An empty list for each rank.
fn empty_lists(alloc: Global, ranks: u32) -> Result<Items<Items<Entry>>, NoMemory>
    ensures { IfOk result (λ lists. lists ≡ map (λ _. []) (range_with_len 0 ranks)) }
{
    let mut lists = Items::from_vec(Vec::with_capacity(alloc, ranks as usize)?);
    'ranks: for _ in 0..ranks {
        lists.push(Items::new(alloc))?;
    }
    Ok(lists)
}

/// The matrix of a part: the sizes of `matrix`, but for the number of owned indices on the split axis, and these entries.
fn part_matrix(axis: Axis, matrix: &Matrix, owned: u32, entries: Items<Entry>) -> Matrix
    ensures { result ≡ record {
      rows = part_rows axis matrix.now owned;
      cols = part_cols axis matrix.now owned;
      entries = entries;
    } }
{
    match axis {
        Axis::Col => Matrix {
            rows: matrix.rows,
            cols: owned,
            entries,
        },
        _ => Matrix {
            rows: owned,
            cols: matrix.cols,
            entries,
        },
    }
}

/// The entries of a rank, in the order in which they are given, with local indices.
fn owned_entries<P: Placement>(
    alloc: Global,
    entries: &[Entry],
    place: &P,
    axis: Axis,
    rank: u32,
) -> Result<Items<Entry>, NoMemory>
    requires { All (λ e. index_on axis e < length (P.triples place.now)) entries.now }
    ensures { IfOk result (λ own.
        own ≡ map (localized axis (P.triples place.now)) (filter (is_owned axis (P.triples place.now) rank) entries.now)) }
{
    let mut own = Items::new(alloc);
    for entry in entries {
        let seat = place.seat(index_on(axis, entry));
        if seat.owner == rank {
            own.push(with_index(axis, entry, seat.local))?;
        }
    }
    Ok(own)
}

fn index_on(axis: Axis, entry: &Entry) -> u32
    ensures { result ≡ index_on axis entry.now }
{
    match axis {
        Axis::Col => entry.col,
        _ => entry.row,
    }
}

fn with_index(axis: Axis, entry: &Entry, index: u32) -> Entry
    ensures { result ≡ with_index axis entry.now index }
{
    match axis {
        Axis::Col => Entry {
            col: index,
            ..*entry
        },
        _ => Entry {
            row: index,
            ..*entry
        },
    }
}

/// The indices of a rank, rising.
fn globals<P: Placement>(alloc: Global, place: &P, rank: u32) -> Result<Items<u32>, NoMemory>
    requires { rank < P.ranks place.now }
    ensures { IfOk result (λ globals. globals ≡ owned_indices (P.triples place.now) rank) }
{
    let owned = place.owned(rank);
    let mut globals = Vec::with_capacity(alloc, owned as usize)?;
    for local in 0..owned {
        globals.push(place.global(rank, local))?;
    }
    Ok(Items::from_vec(globals))
}
