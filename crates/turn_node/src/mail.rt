ghost use Rattle.std.specs.Prelude.{◌≡◌, ◌<◌, [], ◌∷◌, ◌++◌, length, take, drop, replicate, slice_get, slice_index_or, slice_set, IsTrue, ◌↔◌, IfOk, IfErr, MatchOption, OnOk, OnErr};
ghost use Rattle.std.specs.Option.{option_copied};
ghost use Rattle.turn_model.specs.Runs.{Run};
ghost use Rattle.turn_node.specs.NodeStates.{allowance, CanTake, HasTaken};

use crate::node::Node;
use crate::part::Part;
use bern_base::{Letter, NoMemory};
use std::alloc::Global;
use std::collections::VecDeque;
use std::marker::Model;

/// Letters of one rank to another, the oldest first.
#[derive(Drop)]
struct Queue {
    letters: VecDeque<Letter>,
}

impl Model for Queue {
    ghost use Rattle.std.specs.Prelude.{List};
    ghost use Rattle.bern_base.specs.declared.letter.Letter.{Letter};

    ghost Value = { List Letter };

    ghost view = { λ q. q.letters.items };
}

impl Queue {
    fn new(alloc: Global) -> Queue
        ensures { result ≡ [] }
    {
        Queue {
            letters: VecDeque::new(alloc),
        }
    }

    fn is_empty(&self) -> bool
        ensures { IsTrue result ↔ (self.now ≡ []) }
    {
        self.letters.is_empty()
    }

    fn front(&self) -> Option<&Letter>
        ensures { option_copied result ≡ slice_get self.now 0 }
    {
        self.letters.front()
    }

    fn offer(&mut self, letter: Letter) -> Result<(), Letter>
        ensures ok { OnOk result (self.new ≡ self.old ++ letter ∷ []) }
        ensures err { OnErr result (self.new ≡ self.old) }
        ensures back { IfErr result (λ back. back ≡ letter) }
    {
        match self.letters.push_back(letter) {
            Ok(()) => Ok(()),
            Err(failed) => Err(failed.value),
        }
    }

    fn pop(&mut self) -> Option<Letter>
        ensures { self.new ≡ drop 1 self.old }
    {
        self.letters.pop_front()
    }

    /// Gives the oldest letter to a node; after want of memory all is as before.
    fn deliver<P: Part + Drop>(&mut self, from: u32, node: &mut Node<P>) -> Result<(), NoMemory>
        ghost run: { Run }
        requires { CanTake P.stands run from self.old node.old }
        ensures queue { OnOk result (self.new ≡ drop 1 self.old) }
        ensures node { OnOk result (HasTaken P.stands run from (take 1 self.old) node.old node.new) }
        ensures allowance { OnOk result (allowance run node.new ≡ allowance run node.old) }
        ensures err { OnErr result (self.new ≡ self.old) }
        ensures kept { OnErr result (node.new ≡ node.old) }
    {
        match self.letters.pop_front() {
            Some(letter) => match node.take(from, letter) {
                Ok(()) => Ok(()),
                Err(letter) => {
                    self.letters.push_front_reserved(letter);
                    Err(NoMemory)
                }
            },
            None => unreachable!(),
        }
    }
}

/// Letters, by rank, and for each rank the oldest first.
#[derive(Drop)]
pub struct Mail {
    queues: Vec<Queue>,
}

impl Model for Mail {
    ghost use Rattle.std.specs.Prelude.{List};
    ghost use Rattle.bern_base.specs.declared.letter.Letter.{Letter};

    ghost Value = { List (List Letter) };

    ghost view = { λ m. m.queues.items };
}

impl Mail {
    /// No letters, for so many ranks.
    pub fn new(alloc: Global, ranks: u32) -> Result<Mail, NoMemory>
        ensures { IfOk result (λ mail. mail ≡ replicate ranks []) }
    {
        let mut queues = Vec::with_capacity(alloc, ranks as usize)?;
        for _ in 0..ranks {
            queues.push(Queue::new(alloc))?;
        }
        Ok(Mail { queues })
    }

    /// Whether there is no letter of a rank.
    pub fn is_empty(&self, rank: u32) -> bool
        requires { rank < length self.now }
        ensures { IsTrue result ↔ (slice_index_or self.now rank [] ≡ []) }
    {
        let queue = &self.queues[rank as usize];
        queue.is_empty()
    }

    /// The oldest letter of a rank.
    pub fn front(&self, rank: u32) -> Option<&Letter>
        requires { rank < length self.now }
        ensures { option_copied result ≡ slice_get (slice_index_or self.now rank []) 0 }
    {
        let queue = &self.queues[rank as usize];
        queue.front()
    }

    /// Puts a letter after the others of its rank; after want of memory all is as before, and the letter comes back.
    pub fn offer(&mut self, rank: u32, letter: Letter) -> Result<(), Letter>
        requires { rank < length self.old }
        ensures ok { OnOk result (self.new ≡ slice_set self.old rank (slice_index_or self.old rank [] ++ letter ∷ [])) }
        ensures err { OnErr result (self.new ≡ self.old) }
        ensures back { IfErr result (λ back. back ≡ letter) }
    {
        let queue = &mut self.queues[rank as usize];
        queue.offer(letter)
    }

    /// Puts a letter after the others of its rank; after want of memory all is as before.
    pub fn push(&mut self, rank: u32, letter: Letter) -> Result<(), NoMemory>
        requires { rank < length self.old }
        ensures ok { OnOk result (self.new ≡ slice_set self.old rank (slice_index_or self.old rank [] ++ letter ∷ [])) }
        ensures err { OnErr result (self.new ≡ self.old) }
    {
        match self.offer(rank, letter) {
            Ok(()) => Ok(()),
            Err(_) => Err(NoMemory),
        }
    }

    /// Gives the oldest of the letters at a rank to a node, which takes it as a letter of rank `from`; after want of memory all
    /// is as before.
    pub fn deliver<P: Part + Drop>(
        &mut self,
        rank: u32,
        from: u32,
        node: &mut Node<P>,
    ) -> Result<(), NoMemory>
        ghost run: { Run }
        requires rank { rank < length self.old }
        requires take { CanTake P.stands run from (slice_index_or self.old rank []) node.old }
        ensures queue { OnOk result (self.new ≡ slice_set self.old rank (drop 1 (slice_index_or self.old rank []))) }
        ensures node { OnOk result (HasTaken P.stands run from (take 1 (slice_index_or self.old rank [])) node.old node.new) }
        ensures allowance { OnOk result (allowance run node.new ≡ allowance run node.old) }
        ensures err { OnErr result (self.new ≡ self.old) }
        ensures kept { OnErr result (node.new ≡ node.old) }
    {
        let queue = &mut self.queues[rank as usize];
        queue.deliver(from, node)
    }

    /// Drops the oldest letter of a rank, if there is one.
    pub fn drop_front(&mut self, rank: u32)
        requires { rank < length self.old }
        ensures { self.new ≡ slice_set self.old rank (drop 1 (slice_index_or self.old rank [])) }
    {
        let queue = &mut self.queues[rank as usize];
        queue.pop();
    }
}
