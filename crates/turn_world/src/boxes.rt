ghost use Rattle.std.specs.Prelude.{◌≡◌, ◌<◌, [], ◌∷◌, ◌++◌, length, take, drop, replicate, slice_index_or, IsTrue, ◌↔◌, IfOk, OnOk, OnErr};
ghost use Rattle.turn_model.specs.Runs.{Run};
ghost use Rattle.turn_node.specs.NodeStates.{allowance, CanTake, HasTaken};
ghost use Rattle.turn_world.specs.Worlds.{flight_in, with_flight};

use bern_base::{Letter, NoMemory};
use std::alloc::Global;
use std::marker::Model;
use turn_node::{Mail, Node, Part};

/// The letters in flight, by sender and receiver.
#[derive(Drop)]
pub(crate) struct Boxes {
    rows: Vec<Mail>,
}

impl Model for Boxes {
    ghost use Rattle.std.specs.Prelude.{List};
    ghost use Rattle.bern_base.specs.declared.letter.Letter.{Letter};

    ghost Value = { List (List (List Letter)) };

    ghost view = { λ b. b.rows.items };
}

impl Boxes {
    /// Nothing in flight.
    pub(crate) fn new(alloc: Global, ranks: u32) -> Result<Boxes, NoMemory>
        ensures { IfOk result (λ boxes. boxes ≡ replicate ranks (replicate ranks [])) }
    {
        let mut rows = Vec::with_capacity(alloc, ranks as usize)?;
        for _ in 0..ranks {
            rows.push(Mail::new(alloc, ranks)?)?;
        }
        Ok(Boxes { rows })
    }

    /// Whether nothing is in flight from one rank to another.
    pub(crate) fn is_empty(&self, from: u32, to: u32) -> bool
        requires from { from < length self.now }
        requires to { to < length (slice_index_or self.now from []) }
        ensures { IsTrue result ↔ (flight_in self.now from to ≡ []) }
    {
        let row = &self.rows[from as usize];
        row.is_empty(to)
    }

    /// Puts a letter after those in flight from one rank to another; after want of memory all is as before.
    pub(crate) fn push(&mut self, from: u32, to: u32, letter: Letter) -> Result<(), NoMemory>
        requires from { from < length self.old }
        requires to { to < length (slice_index_or self.old from []) }
        ensures ok { OnOk result (self.new ≡ with_flight self.old from to (flight_in self.old from to ++ letter ∷ [])) }
        ensures err { OnErr result (self.new ≡ self.old) }
    {
        let row = &mut self.rows[from as usize];
        row.push(to, letter)
    }

    /// Gives the oldest letter from a rank to the node of another; after want of memory all is as before.
    pub(crate) fn deliver<P: Part + Drop>(
        &mut self,
        from: u32,
        rank: u32,
        node: &mut Node<P>,
    ) -> Result<(), NoMemory>
        ghost run: { Run }
        requires row { from < length self.old }
        requires rank { rank < length (slice_index_or self.old from []) }
        requires take { CanTake P.stands run from (flight_in self.old from rank) node.old }
        ensures queue { OnOk result (self.new ≡ with_flight self.old from rank (drop 1 (flight_in self.old from rank))) }
        ensures node { OnOk result (HasTaken P.stands run from (take 1 (flight_in self.old from rank)) node.old node.new) }
        ensures allowance { OnOk result (allowance run node.new ≡ allowance run node.old) }
        ensures err { OnErr result (self.new ≡ self.old) }
        ensures kept { OnErr result (node.new ≡ node.old) }
    {
        let row = &mut self.rows[from as usize];
        row.deliver(rank, from, node)
    }
}
