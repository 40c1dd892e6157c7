ghost use Rattle.std.specs.Prelude.{◌≡◌, ◌<◌, [], ◌∷◌, ◌++◌, length, take, drop, replicate, slice_index_or, slice_set, IsTrue, ◌↔◌, IfOk, OnOk, OnErr};
ghost use Rattle.rank_model.specs.Products.{Run};
ghost use Rattle.rank_node.specs.NodeStates.{HasTaken};
ghost use Rattle.interleave.specs.Worlds.{CanTake, flight_in, with_flight};

use bern_base::{Letter, NoMemory};
use rank_node::Node;
use std::alloc::Global;
use std::collections::VecDeque;
use std::marker::Model;

/// The letters in flight from one rank to another, the oldest first.
#[derive(Debug, Drop)]
pub(crate) struct Queue {
    letters: VecDeque<Letter>,
}

impl Model for Queue {
    ghost use Rattle.std.specs.Prelude.{List};
    ghost use Rattle.bern_base.specs.declared.letter.Letter.{Letter};

    ghost Value = { List Letter };

    ghost view = { λ q. q.letters.items };
}

impl Queue {
    fn new(alloc: Global) -> Queue
        ensures { result ≡ [] }
    {
        Queue {
            letters: VecDeque::new(alloc),
        }
    }

    fn is_empty(&self) -> bool
        ensures { IsTrue result ↔ (self.now ≡ []) }
    {
        self.letters.is_empty()
    }

    /// Puts a letter after the others; after want of memory all is as before.
    fn push(&mut self, letter: Letter) -> Result<(), NoMemory>
        ensures ok { OnOk result (self.new ≡ self.old ++ letter ∷ []) }
        ensures err { OnErr result (self.new ≡ self.old) }
    {
        match self.letters.push_back(letter) {
            Ok(()) => Ok(()),
            Err(_) => Err(NoMemory),
        }
    }

    /// Gives the oldest letter to a node; after want of memory all is as before.
    fn deliver(&mut self, from: u32, node: &mut Node) -> Result<(), NoMemory>
        ghost run: { Run }
        requires { CanTake run from self.old node.old }
        ensures queue { OnOk result (self.new ≡ drop 1 self.old) }
        ensures node { OnOk result (HasTaken run from (take 1 self.old) node.old node.new) }
        ensures err { OnErr result (self.new ≡ self.old) }
        ensures kept { OnErr result (node.new ≡ node.old) }
    {
        match self.letters.pop_front() {
            Some(letter) => match node.take(from, letter) {
                Ok(()) => Ok(()),
                Err(letter) => {
                    self.letters.push_front_reserved(letter);
                    Err(NoMemory)
                }
            },
            None => unreachable!(),
        }
    }
}

/// The letters in flight from one rank, by receiver.
#[derive(Debug, Drop)]
pub(crate) struct Row {
    queues: Vec<Queue>,
}

impl Model for Row {
    ghost use Rattle.std.specs.Prelude.{List};
    ghost use Rattle.bern_base.specs.declared.letter.Letter.{Letter};

    ghost Value = { List (List Letter) };

    ghost view = { λ r. r.queues.items };
}

impl Row {
    fn new(alloc: Global, ranks: u32) -> Result<Row, NoMemory>
        ensures { IfOk result (λ row. row ≡ replicate ranks []) }
    {
        let mut queues = Vec::with_capacity(alloc, ranks as usize)?;
        for _ in 0..ranks {
            queues.push(Queue::new(alloc))?;
        }
        Ok(Row { queues })
    }

    fn is_empty(&self, to: u32) -> bool
        requires { to < length self.now }
        ensures { IsTrue result ↔ (slice_index_or self.now to [] ≡ []) }
    {
        let queue = &self.queues[to as usize];
        queue.is_empty()
    }

    fn push(&mut self, to: u32, letter: Letter) -> Result<(), NoMemory>
        requires { to < length self.old }
        ensures ok { OnOk result (self.new ≡ slice_set self.old to (slice_index_or self.old to [] ++ letter ∷ [])) }
        ensures err { OnErr result (self.new ≡ self.old) }
    {
        let queue = &mut self.queues[to as usize];
        queue.push(letter)
    }

    fn deliver(&mut self, from: u32, rank: u32, node: &mut Node) -> Result<(), NoMemory>
        ghost run: { Run }
        requires rank { rank < length self.old }
        requires take { CanTake run from (slice_index_or self.old rank []) node.old }
        ensures queue { OnOk result (self.new ≡ slice_set self.old rank (drop 1 (slice_index_or self.old rank []))) }
        ensures node { OnOk result (HasTaken run from (take 1 (slice_index_or self.old rank [])) node.old node.new) }
        ensures err { OnErr result (self.new ≡ self.old) }
        ensures kept { OnErr result (node.new ≡ node.old) }
    {
        let queue = &mut self.queues[rank as usize];
        queue.deliver(from, node)
    }
}

/// The letters in flight, by sender and receiver.
#[derive(Debug, Drop)]
pub(crate) struct Boxes {
    rows: Vec<Row>,
}

impl Model for Boxes {
    ghost use Rattle.std.specs.Prelude.{List};
    ghost use Rattle.bern_base.specs.declared.letter.Letter.{Letter};

    ghost Value = { List (List (List Letter)) };

    ghost view = { λ b. b.rows.items };
}

impl Boxes {
    /// Nothing in flight.
    pub(crate) fn new(alloc: Global, ranks: u32) -> Result<Boxes, NoMemory>
        ensures { IfOk result (λ boxes. boxes ≡ replicate ranks (replicate ranks [])) }
    {
        let mut rows = Vec::with_capacity(alloc, ranks as usize)?;
        for _ in 0..ranks {
            rows.push(Row::new(alloc, ranks)?)?;
        }
        Ok(Boxes { rows })
    }

    /// Whether nothing is in flight from one rank to another.
    pub(crate) fn is_empty(&self, from: u32, to: u32) -> bool
        requires from { from < length self.now }
        requires to { to < length (slice_index_or self.now from []) }
        ensures { IsTrue result ↔ (flight_in self.now from to ≡ []) }
    {
        let row = &self.rows[from as usize];
        row.is_empty(to)
    }

    /// Puts a letter after those in flight from one rank to another; after want of memory all is as before.
    pub(crate) fn push(&mut self, from: u32, to: u32, letter: Letter) -> Result<(), NoMemory>
        requires from { from < length self.old }
        requires to { to < length (slice_index_or self.old from []) }
        ensures ok { OnOk result (self.new ≡ with_flight self.old from to (flight_in self.old from to ++ letter ∷ [])) }
        ensures err { OnErr result (self.new ≡ self.old) }
    {
        let row = &mut self.rows[from as usize];
        row.push(to, letter)
    }

    /// Gives the oldest letter from a rank to the node of another; after want of memory all is as before.
    pub(crate) fn deliver(&mut self, from: u32, rank: u32, node: &mut Node) -> Result<(), NoMemory>
        ghost run: { Run }
        requires row { from < length self.old }
        requires rank { rank < length (slice_index_or self.old from []) }
        requires take { CanTake run from (flight_in self.old from rank) node.old }
        ensures queue { OnOk result (self.new ≡ with_flight self.old from rank (drop 1 (flight_in self.old from rank))) }
        ensures node { OnOk result (HasTaken run from (take 1 (flight_in self.old from rank)) node.old node.new) }
        ensures err { OnErr result (self.new ≡ self.old) }
        ensures kept { OnErr result (node.new ≡ node.old) }
    {
        let row = &mut self.rows[from as usize];
        row.deliver(from, rank, node)
    }
}
