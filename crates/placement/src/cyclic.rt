ghost use Rattle.std.specs.Prelude.{◌≡◌, ◌<◌, ◌*◌, ◌^◌, length};

use crate::place::{Placement, Seat};

/// Blocks of `block` indices, dealt to the ranks in turn. The last block may be short.
#[derive(Clone, Copy, Debug, PartialEq, Eq)]
pub struct Cyclic {
    extent: u32,
    ranks: u32,
    block: u32,
    ghost some_rank: { 0 < ranks },
    ghost some_block: { 0 < block },
    // `global` does not read the extent, but its sums fit because of it.
    ghost extent_fits: { extent < 2 ^ 32 },
}

impl Cyclic {
    ghost use Rattle.std.specs.Int.{div_ceil};
    ghost use Rattle.placement.specs.Cyclic.{cyclic_triples};

    /// The indices below `extent` in blocks of this length.
    pub fn new(extent: u32, ranks: u32, block: u32) -> Cyclic
        requires ranks { 0 < ranks }
        requires block { 0 < block }
        ensures ranks { ⟦<Cyclic as Placement>⟧.ranks result ≡ ranks }
        ensures triples { ⟦<Cyclic as Placement>⟧.triples result ≡ cyclic_triples extent ranks block }
        ensures extent { length (⟦<Cyclic as Placement>⟧.triples result) ≡ extent }
    {
        Cyclic {
            extent,
            ranks,
            block,
        }
    }

    /// One block for each rank, each of the least length for which they cover the axis.
    pub fn block(extent: u32, ranks: u32) -> Cyclic
        requires extent { 0 < extent }
        requires ranks { 0 < ranks }
        ensures ranks { ⟦<Cyclic as Placement>⟧.ranks result ≡ ranks }
        ensures triples { ⟦<Cyclic as Placement>⟧.triples result ≡ cyclic_triples extent ranks (div_ceil extent ranks) }
        ensures extent { length (⟦<Cyclic as Placement>⟧.triples result) ≡ extent }
    {
        Cyclic::new(extent, ranks, extent.div_ceil(ranks))
    }

    /// How many indices one turn deals, a block to each rank.
    fn turn(&self) -> u64
        ensures turn { result ≡ self.now.block * self.now.ranks }
        ensures some { 0 < result }
    {
        self.block as u64 * self.ranks as u64
    }
}

impl Placement for Cyclic {
    ghost use Rattle.placement.specs.Cyclic.{cyclic_triples};
    ghost use Rattle.placement.specs.CyclicLaws.{is_placement};
    ghost use Rattle.placement.specs.PlacementLaws.{owner-below, global-below, global-owner-local, owner-global, local-global, local-below, global-rises};

    ghost ranks = { λ s. s.ranks };

    ghost triples = { λ s. cyclic_triples s.extent s.ranks s.block };

    ghost placed = { λ s. is_placement s.extent s.ranks s.block s.some_rank s.some_block };

    ghost owner_is_a_rank = { λ s. owner-below (is_placement s.extent s.ranks s.block s.some_rank s.some_block) };

    ghost global_is_an_index = { λ s. global-below (is_placement s.extent s.ranks s.block s.some_rank s.some_block) };

    ghost global_undoes_local = { λ s. global-owner-local (is_placement s.extent s.ranks s.block s.some_rank s.some_block) };

    ghost owner_of_global = { λ s. owner-global (is_placement s.extent s.ranks s.block s.some_rank s.some_block) };

    ghost local_of_global = { λ s. local-global (is_placement s.extent s.ranks s.block s.some_rank s.some_block) };

    ghost local_is_owned = { λ s. local-below (is_placement s.extent s.ranks s.block s.some_rank s.some_block) };

    ghost global_rises = { λ s. global-rises (is_placement s.extent s.ranks s.block s.some_rank s.some_block) };

    fn owner(&self, i: u32) -> u32 {
        i / self.block % self.ranks
    }

    fn local(&self, i: u32) -> u32 {
        (i as u64 / self.turn() * self.block as u64 + (i % self.block) as u64) as u32
    }

    fn seat(&self, i: u32) -> Seat {
        let blocks = i / self.block;
        Seat {
            owner: blocks % self.ranks,
            local: blocks / self.ranks * self.block + (i - blocks * self.block),
        }
    }

    fn owned(&self, p: u32) -> u32 {
        let whole = self.extent as u64 / self.turn() * self.block as u64;
        let rest = self.extent as u64 % self.turn();
        // Of the last turn a rank has a whole block, what is left of one, or nothing.
        let last = rest
            .saturating_sub(p as u64 * self.block as u64)
            .min(self.block as u64);
        (whole + last) as u32
    }

    fn global(&self, p: u32, l: u32) -> u32 {
        let turns = (l / self.block) as u64 * self.turn();
        (turns + p as u64 * self.block as u64 + (l % self.block) as u64) as u32
    }
}
