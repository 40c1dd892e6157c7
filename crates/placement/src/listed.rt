ghost use Rattle.std.specs.Prelude.{◌≡◌, ◌<◌, ◌≤◌, ◌^◌, [], false, All, AllPairs, IfOk, MatchResult, OnOk, length, map, vec_len};
ghost use Rattle.std.specs.List.{list_any, range_with_len};
ghost use Rattle.std.specs.Result.{result_err};
ghost use Rattle.std.proofs.Props.{props};
ghost use Rattle.bern_base.specs.Matrix.{IsMatrix};
ghost use Rattle.placement.specs.Placement.{IsPlacement, owned_indices};
ghost use Rattle.placement.specs.Listed.{IsSeating, has_no_rank, has_two_ranks, listed_rule, listed_triples, seat_triples};

use crate::place::{Placement, Seat};
use bern_base::{Entry, Items, Matrix, NoMemory, Rule};
use std::alloc::Global;
use thiserror::Error;

/// Why a matrix gives no places.
#[derive(Debug, Drop, Error)]
pub enum ListedError {
    #[error("a rule is broken")]
    Broken(Rule),
    #[error("out of memory")]
    NoMemory,
}

/// Places that a matrix lists: an entry at (index, rank) puts the index at the rank, whatever its value. Local numbers go by
/// rising index. It has 12 bytes for each index.
#[derive(Debug, Drop)]
pub struct Listed {
    /// The seat of each index.
    seats: Items<Seat>,
    /// For each rank its indices, rising.
    globals: Items<Items<u32>>,
    ghost placed: { IsPlacement (length globals) (seat_triples seats) } by { Prim.hlevel props },
    ghost owned: { globals ≡ map (owned_indices (seat_triples seats)) (range_with_len 0 (length globals)) },
    ghost fits: { length seats < 2 ^ 32 },
}

impl Listed {
    ghost use Rattle.placement.specs.Listed.{IsWhyNot};

    /// The places of `extent` indices at so many ranks, from a matrix with a row for each index and a column for each rank.
    ///
    /// F6 where it has other sizes, else F4 where some index has no rank, else F5 where some index has two. It takes time
    /// linear in the entries, the extent and the ranks.
    pub fn build(
        alloc: Global,
        matrix: &Matrix,
        extent: u32,
        ranks: u32,
    ) -> Result<Listed, ListedError>
        requires { IsMatrix matrix.now }
        ensures rule { MatchResult result
            (λ _. listed_rule extent ranks matrix.now ≡ None)
            (IsWhyNot (listed_rule extent ranks matrix.now)) }
        ensures ranks { IfOk result (λ place. ⟦<Listed as Placement>⟧.ranks place ≡ ranks) }
        ensures triples { IfOk result (λ place. ⟦<Listed as Placement>⟧.triples place ≡ listed_triples matrix.now.entries) }
        ensures extent { IfOk result (λ place. length (⟦<Listed as Placement>⟧.triples place) ≡ extent) }
    {
        match check_listed(extent, ranks, matrix) {
            Ok(()) => match seated(alloc, ranks, matrix.entries.as_slice()) {
                Ok(place) => Ok(place),
                Err(NoMemory) => Err(ListedError::NoMemory),
            },
            Err(rule) => Err(ListedError::Broken(rule)),
        }
    }
}

impl Placement for Listed {
    ghost use Rattle.placement.specs.PlacementLaws.{owner-below, global-below, global-owner-local, owner-global, local-global, local-below, global-rises};

    ghost ranks = { λ s. length s.globals };

    ghost triples = { λ s. seat_triples s.seats };

    ghost placed = { λ s. s.placed };

    ghost owner_is_a_rank = { λ s. owner-below s.placed };

    ghost global_is_an_index = { λ s. global-below s.placed };

    ghost global_undoes_local = { λ s. global-owner-local s.placed };

    ghost owner_of_global = { λ s. owner-global s.placed };

    ghost local_of_global = { λ s. local-global s.placed };

    ghost local_is_owned = { λ s. local-below s.placed };

    ghost global_rises = { λ s. global-rises s.placed };

    fn owner(&self, i: u32) -> u32 {
        self.seat(i).owner
    }

    fn local(&self, i: u32) -> u32 {
        self.seat(i).local
    }

    fn seat(&self, i: u32) -> Seat {
        *self.seats.at(i as usize)
    }

    fn owned(&self, p: u32) -> u32 {
        self.globals.at(p as usize).len() as u32
    }

    fn global(&self, p: u32, l: u32) -> u32 {
        *self.globals.at(p as usize).at(l as usize)
    }
}

/// The first rule that a matrix breaks as a list of places, as `Listed::build` tells it. It takes no memory.
pub fn check_listed(extent: u32, ranks: u32, matrix: &Matrix) -> Result<(), Rule>
    requires { IsMatrix matrix.now }
    ensures rule { result_err result ≡ listed_rule extent ranks matrix.now }
    ensures seating { OnOk result (IsSeating extent ranks matrix.now) }
{
    if matrix.rows != extent || matrix.cols != ranks {
        return Err(Rule::F6);
    }
    let entries = matrix.entries.as_slice();
    if has_gap(extent, entries) {
        return Err(Rule::F4);
    }
    if is_crowded(extent, entries) {
        return Err(Rule::F5);
    }
    Ok(())
}

/// Whether some index has no entry.
fn has_gap(extent: u32, entries: &[Entry]) -> bool
    requires inside { All (λ e. e.row < extent) entries.now }
    requires rising { AllPairs (λ e f. e.row ≤ f.row) entries.now }
    ensures gap { result ≡ list_any (has_no_rank entries.now) (range_with_len 0 extent) }
    ensures single { result ≡ false → length entries.now ≤ extent → map (λ e. e.row) entries.now ≡ range_with_len 0 extent }
{
    let mut next = 0;
    for entry in entries {
        if entry.row > next {
            return true;
        }
        if entry.row == next {
            next += 1;
        }
    }
    next < extent
}

/// Whether some index has two entries, where each has one.
fn is_crowded(extent: u32, entries: &[Entry]) -> bool
    requires inside { All (λ e. e.row < extent) entries.now }
    requires whole { list_any (has_no_rank entries.now) (range_with_len 0 extent) ≡ false }
    ensures two { result ≡ list_any (has_two_ranks entries.now) (range_with_len 0 extent) }
    ensures single { result ≡ false → length entries.now ≤ extent }
{
    entries.len() > extent as usize
}

/// The places of entries of which each has the next index.
fn seated(alloc: Global, ranks: u32, entries: &[Entry]) -> Result<Listed, NoMemory>
    requires rows { map (λ e. e.row) entries.now ≡ range_with_len 0 (length entries.now) }
    requires cols { All (λ e. e.col < ranks) entries.now }
    requires fits { length entries.now < 2 ^ 32 }
    ensures ranks { IfOk result (λ place. ⟦<Listed as Placement>⟧.ranks place ≡ ranks) }
    ensures triples { IfOk result (λ place. ⟦<Listed as Placement>⟧.triples place ≡ listed_triples entries.now) }
{
    let mut seats = Items::from_vec(Vec::with_capacity(alloc, entries.len())?);
    let mut globals = empty_lists(alloc, ranks, entries)?;
    for entry in entries {
        let local = globals.at(entry.col as usize).len() as u32;
        seats.push(Seat {
            owner: entry.col,
            local,
        })?;
        match globals.offer_at(entry.col as usize, entry.row) {
            Ok(()) => {}
            Err(_) => return Err(NoMemory),
        }
    }
    Ok(Listed { seats, globals })
}

/// An empty list for each rank, with room for its indices.
fn empty_lists(alloc: Global, ranks: u32, entries: &[Entry]) -> Result<Items<Items<u32>>, NoMemory>
    requires { All (λ e. e.col < ranks) entries.now }
    ensures { IfOk result (λ lists. lists ≡ map (λ _. []) (range_with_len 0 ranks)) }
{
    let counts = counts(alloc, ranks, entries)?;
    let mut lists = Items::from_vec(Vec::with_capacity(alloc, ranks as usize)?);
    for rank in 0..ranks {
        let room = counts[rank as usize] as usize;
        lists.push(Items::from_vec(Vec::with_capacity(alloc, room)?))?;
    }
    Ok(lists)
}

/// How many entries each rank has.
fn counts(alloc: Global, ranks: u32, entries: &[Entry]) -> Result<Vec<u32>, NoMemory>
    requires { All (λ e. e.col < ranks) entries.now }
    ensures { IfOk result (λ counts. vec_len counts ≡ ranks) }
{
    let mut counts = vec![in alloc; 0u32; ranks as usize]?;
    for entry in entries {
        let count = &mut counts[entry.col as usize];
        *count = count.saturating_add(1);
    }
    Ok(counts)
}
