ghost use Rattle.std.specs.Prelude.{◌≡◌, ◌+◌, ◌<◌, ◌≤◌, true, [], ◌∷◌, Some, length, IfOk, IfErr, OnOk, OnErr};
ghost use Rattle.std.specs.List.{sum_by};
ghost use Rattle.rank_scripts.specs.Acts.{at_work, at_post, at_end};
ghost use Rattle.rank_scripts.specs.Scripts.{book, IsFrontOf, IsNextOf};
ghost use Rattle.rank_scripts.specs.Nodes.{fresh, sent};
ghost use Rattle.turn_model.specs.Runs.{IsRun, Run, rank_budget, schedule, scripts, turns_of};
ghost use Rattle.turn_model.specs.Schedules.{request, values_in as letter_size, values_letter};
ghost use Rattle.turn_node.specs.Parts.{IsCell, IsValue};
ghost use Rattle.turn_node.specs.Positions.{New, phase_of, turn_of, want_of};
ghost use Rattle.turn_node.specs.Progresses.{at, IsFirstOfRest, IsNextToPost};
ghost use Rattle.turn_node.specs.NodeStates.{allowance, rank_in, HasPosted, HasTaken, HasWorked, IsNode};

use crate::part::Part;
use crate::progress::Progress;
use crate::stage::{Stage, Want};
use bern_base::{Items, Letter, NoMemory, Steps, Val};
use std::alloc::Global;
use std::sync::ledger::Ledger;

/// One rank of a run: how far it has come, and its part of the arrays.
///
/// Its calls are spoken of over a run that contracts alone see. `IsNode` is what each call needs of a node and keeps.
#[derive(Drop)]
pub struct Node<P> {
    progress: Progress,
    part: P,
}

impl<P: Part + Drop> Node<P> {
    /// The node of a rank at its start. `turns` has the nest of each turn, and `part` is the rank's part of the arrays before
    /// the first turn.
    ///
    /// After want of memory nothing stands.
    pub fn new(
        alloc: Global,
        rank: u32,
        ranks: u32,
        turns: Items<u32>,
        part: P,
    ) -> Result<Node<P>, NoMemory>
        ghost run: { Run }
        requires run { IsRun run }
        requires rank { rank < run.ranks }
        requires ranks { ranks ≡ run.ranks }
        requires turns { turns ≡ run.turns }
        requires part { P.stands part (record { run = run; rank = rank; turn = 0 }) New }
        ensures node { IfOk result (λ node. IsNode P.stands run node) }
        ensures rank { IfOk result (λ node. node.progress.rank ≡ rank) }
        ensures fresh { IfOk result (λ node. rank_in run node ≡ fresh (scripts run) rank) }
        ensures allowance { IfOk result (λ node. allowance run node ≡ rank_budget run rank) }
    {
        let progress = Progress::new(alloc, rank, ranks, turns)?;
        Ok(Node { progress, part })
    }

    /// The rank that this node is.
    pub fn rank(&self) -> u32
        ensures { result ≡ self.now.progress.rank }
    {
        self.progress.rank
    }

    /// What the rank does next. `Letter` comes exactly where it waits and a letter that it needs was not taken.
    pub fn want(&self) -> Want
        ghost run: { Run }
        requires { IsNode P.stands run self.now }
        ensures { result ≡ want_of (rank_in run self.now).todo }
    {
        self.progress.want()
    }

    /// How many letters, and values in them, were posted to a rank.
    pub fn sent(&self, to: u32) -> (u64, u64)
        ghost run: { Run }
        requires node { IsNode P.stands run self.now }
        requires to { to < run.ranks }
        ensures letters { result.0 ≡ length (sent (scripts run) self.now.progress.rank (rank_in run self.now) to) }
        ensures values { result.1 ≡ sum_by letter_size (sent (scripts run) self.now.progress.rank (rank_in run self.now) to) }
    {
        self.progress.sent(to)
    }

    /// How many letters of a rank were taken. What was taken is the front of its book of this length.
    pub fn given(&self, from: u32) -> u64
        ghost run: { Run }
        requires node { IsNode P.stands run self.now }
        requires from { from < run.ranks }
        ensures count { result ≡ length ((rank_in run self.now).given from) }
        ensures front { IsFrontOf ((rank_in run self.now).given from) (book (scripts run) from self.now.progress.rank) }
    {
        self.progress.given(from)
    }

    /// The part of the arrays. It stands before the turn of the rank's position, and once the rank is done after the last one.
    pub fn part(&self) -> &P
        ghost run: { Run }
        requires { IsNode P.stands run self.now }
        ensures part { P.stands result.now (at run self.now.progress) (phase_of self.now.progress.stage) }
        ensures end { at_end (rank_in run self.now).todo ≡ true → turn_of run self.now.progress.stage ≡ turns_of run }
    {
        &self.part
    }

    /// The value of an element of an array that is stored whole, by its number in the rank's part: that before the turn of its
    /// position, and once the rank is done that after the last turn.
    pub fn cell(&self, array: u32, element: u32) -> Val
        ghost run: { Run }
        requires node { IsNode P.stands run self.now }
        requires there { IsCell (at run self.now.progress) array element }
        ensures turn { IsValue (at run self.now.progress) array element result }
        ensures end { at_end (rank_in run self.now).todo ≡ true →
            IsValue (record { run = run; rank = self.now.progress.rank; turn = turns_of run }) array element result }
    {
        self.part.cell(array, element)
    }

    /// The letter that the rank posts next: the next one of its book for that receiver.
    pub fn letter(&self, alloc: Global) -> Result<Letter, NoMemory>
        ghost run: { Run }
        requires node { IsNode P.stands run self.now }
        requires post { at_post (rank_in run self.now).todo ≡ true }
        ensures rest { IfOk result (λ letter. IsFirstOfRest (scripts run) self.now.progress.rank (rank_in run self.now) letter) }
        ensures next { IfOk result (λ letter. IsNextToPost (scripts run) self.now.progress.rank (rank_in run self.now) letter) }
    {
        match self.progress.stage {
            Stage::Request { to } => self.progress.request(alloc, to),
            Stage::Values { turn, to } => self.values(alloc, turn, to),
            _ => unreachable!(),
        }
    }

    fn values(&self, alloc: Global, turn: u32, to: u32) -> Result<Letter, NoMemory>
        ghost run: { Run }
        requires node { IsNode P.stands run self.now }
        requires stage { self.now.progress.stage ≡ Stage.Values turn to }
        ensures { IfOk result (λ letter. values_letter (schedule run) turn self.now.progress.rank to ≡ Some letter) }
    {
        let nest = self.progress.nest(turn);
        let asked = self.progress.asked.at(to as usize);
        let values = self.part.values(alloc, nest, asked)?;
        Ok(Letter::Values { turn, values })
    }

    /// Moves on after the post of a letter.
    pub fn posted(&mut self)
        ghost run: { Run }
        requires node { IsNode P.stands run self.old }
        requires post { at_post (rank_in run self.old).todo ≡ true }
        ensures moves { HasPosted P.stands run self.old self.new }
        ensures allowance { allowance run self.new ≡ allowance run self.old }
    {
        self.progress.posted();
    }

    /// Takes a letter of a rank: the next one of its book to this rank. It is kept until its turn.
    ///
    /// After want of memory the node is as before, and the letter comes back.
    pub fn take(&mut self, from: u32, letter: Letter) -> Result<(), Letter>
        ghost run: { Run }
        requires node { IsNode P.stands run self.old }
        requires from { from < run.ranks }
        requires letter { IsNextOf (book (scripts run) from self.old.progress.rank) ((rank_in run self.old).given from) letter }
        ensures ok { OnOk result (HasTaken P.stands run from (letter ∷ []) self.old self.new) }
        ensures allowance { OnOk result (allowance run self.new ≡ allowance run self.old) }
        ensures err { OnErr result (self.new ≡ self.old) }
        ensures back { IfErr result (λ back. back ≡ letter) }
    {
        self.progress.take(from, letter)
    }

    /// Does the rank's next work: it finds what it needs, sums over the inner points of its turn, or sums over the others and
    /// applies its sums. After want of memory the node is as before.
    ///
    /// The steps that it takes and those that it may still take are no more than it might take before.
    pub fn work<L: Ledger>(&mut self, alloc: Global, steps: &mut Steps<L>) -> Result<(), NoMemory>
        ghost run: { Run }
        requires node { IsNode P.stands run self.old }
        requires work { at_work (rank_in run self.old).todo ≡ true }
        ensures ok { OnOk result (HasWorked P.stands run self.old self.new) }
        ensures cost { OnOk result (steps.new + allowance run self.new ≤ steps.old + allowance run self.old) }
        ensures err { OnErr result (self.new ≡ self.old) }
    {
        match self.progress.stage {
            Stage::Inspect => self.inspect(alloc, steps),
            Stage::Inner { turn } => self.inner(alloc, turn, steps),
            Stage::Outer { turn } => self.outer(alloc, turn, steps),
            _ => unreachable!(),
        }
    }

    fn inspect<L: Ledger>(&mut self, alloc: Global, steps: &mut Steps<L>) -> Result<(), NoMemory>
        ghost run: { Run }
        requires node { IsNode P.stands run self.old }
        requires stage { self.old.progress.stage ≡ Stage.Inspect }
        ensures ok { OnOk result (HasWorked P.stands run self.old self.new) }
        ensures cost { OnOk result (steps.new + allowance run self.new ≤ steps.old + allowance run self.old) }
        ensures err { OnErr result (self.new ≡ self.old) }
    {
        match self.part.inspect(alloc, self.progress.ranks(), steps) {
            Ok(asks) => {
                self.progress.inspected(asks);
                Ok(())
            }
            Err(error) => Err(error),
        }
    }

    fn inner<L: Ledger>(
        &mut self,
        alloc: Global,
        turn: u32,
        steps: &mut Steps<L>,
    ) -> Result<(), NoMemory>
        ghost run: { Run }
        requires node { IsNode P.stands run self.old }
        requires stage { self.old.progress.stage ≡ Stage.Inner turn }
        ensures ok { OnOk result (HasWorked P.stands run self.old self.new) }
        ensures cost { OnOk result (steps.new + allowance run self.new ≤ steps.old + allowance run self.old) }
        ensures err { OnErr result (self.new ≡ self.old) }
    {
        let nest = self.progress.nest(turn);
        match self.part.inner(alloc, nest, steps) {
            Ok(()) => {
                self.progress.summed(turn);
                Ok(())
            }
            Err(error) => Err(error),
        }
    }

    fn outer<L: Ledger>(
        &mut self,
        alloc: Global,
        turn: u32,
        steps: &mut Steps<L>,
    ) -> Result<(), NoMemory>
        ghost run: { Run }
        requires node { IsNode P.stands run self.old }
        requires stage { self.old.progress.stage ≡ Stage.Outer turn }
        ensures ok { OnOk result (HasWorked P.stands run self.old self.new) }
        ensures cost { OnOk result (steps.new + allowance run self.new ≤ steps.old + allowance run self.old) }
        ensures err { OnErr result (self.new ≡ self.old) }
    {
        let nest = self.progress.nest(turn);
        match self.part.outer(alloc, nest, &self.progress.asks, &self.progress.mail, steps) {
            Ok(()) => {
                self.progress.applied(turn);
                Ok(())
            }
            Err(error) => Err(error),
        }
    }
}
