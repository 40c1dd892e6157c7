ghost use Rattle.std.specs.Prelude.{◌≡◌, ◌<◌, true, false, [], ◌∷◌, Some, length, replicate, IfOk, IfErr, OnOk, OnErr};
ghost use Rattle.std.specs.List.{sum_by};
ghost use Rattle.rank_scripts.specs.Acts.{at_work, at_post, at_end};
ghost use Rattle.rank_scripts.specs.Scripts.{book, IsFrontOf, IsNextOf};
ghost use Rattle.rank_scripts.specs.Nodes.{fresh, sent};
ghost use Rattle.rank_model.specs.Products.{IsRun, Run, end_state, part_values, scripts, state_before, schedule};
ghost use Rattle.turn_model.specs.Schedules.{request, values_in as letter_size, values_letter};
ghost use Rattle.rank_node.specs.Jobs.{IsJobOf, ArePartsOf};
ghost use Rattle.rank_node.specs.Positions.{want_of, state_of, Posts};
ghost use Rattle.rank_node.specs.Waits.{AreKnown};
ghost use Rattle.rank_node.specs.NodeStates.{node_of, HasPosted, HasTaken, HasWorked, HaveInnerSums, IsFirstOfRest, IsNextToPost, IsNode};

use crate::holdings::{all_values, stored_entries};
use crate::job::{dealing, factors};
use crate::letters::{asked_in, request_of, values_in};
use crate::sets::{asked_sets, empty_lists, put_values, values_at};
use crate::settle::settled;
use crate::stage::{Stage, Tally, Want, no_tallies};
use crate::sums::{add_inner, add_outer, applied, zeros};
use bern_base::{Checked, Entry, Items, Letter, NoMemory, Val};
use placement::{Cyclic, Part, Placement};
use std::alloc::Global;

/// One rank of a run: its part of the arrays, where it stands, and the letters that it was given.
///
/// Its calls are spoken of over a run that contracts alone see. `IsNode` is what each call needs of a node and keeps.
#[derive(Debug, Drop)]
pub struct Node {
    rank: u32,
    ranks: u32,
    extent: u32,
    /// How many indices of the extent are dealt at a time.
    block: u32,
    target: u32,
    source: u32,
    /// Its stored elements, with its own numbers of the rows.
    entries: Items<Entry>,
    /// Its values of each array that is stored whole, by its own numbers of the elements; none for the others.
    values: Items<Items<Val>>,
    /// The elements that it needs from each rank, once it has inspected its entries.
    asks: Items<Items<u32>>,
    /// The sums of its inner points, once it has made them.
    sums: Items<Val>,
    /// The letters that it took from each rank, in their order.
    given: Items<Items<Letter>>,
    sent: Items<Tally>,
    stage: Stage,
}

impl Node {
    /// The node of a rank at its start. `parts` has the rank's part of each array, by the arrays' numbers.
    ///
    /// After want of memory nothing stands.
    pub fn new(
        alloc: Global,
        job: &Checked,
        rank: u32,
        ranks: u32,
        parts: Items<Part>,
    ) -> Result<Node, NoMemory>
        ghost run: { Run }
        requires run { IsRun run }
        requires job { IsJobOf run job.now }
        requires rank { rank < run.ranks }
        requires ranks { ranks ≡ run.ranks }
        requires parts { ArePartsOf run rank parts }
        ensures node { IfOk result (λ node. IsNode run node) }
        ensures rank { IfOk result (λ node. node.rank ≡ rank) }
        ensures fresh { IfOk result (λ node. node_of run node ≡ fresh (scripts run) rank) }
    {
        let nest = job.nests.at(0);
        let (extent, block) = dealing(job, nest.target.array, ranks);
        let (stored, source) = factors(nest);
        let values = all_values(alloc, job, parts.as_slice())?;
        let given = empty_lists(alloc, ranks)?;
        let sent = no_tallies(alloc, ranks)?;
        Ok(Node {
            rank,
            ranks,
            extent,
            block,
            target: nest.target.array,
            source,
            entries: stored_entries(parts, stored),
            values,
            asks: Items::new(alloc),
            sums: Items::new(alloc),
            given: Items::from_vec(given),
            sent: Items::from_vec(sent),
            stage: Stage::Inspect,
        })
    }

    /// The rank that this node is.
    pub fn rank(&self) -> u32
        ensures { result ≡ self.now.rank }
    {
        self.rank
    }

    /// What the rank does next. `Letter` comes exactly where it waits and a letter that it needs was not taken.
    pub fn want(&self) -> Want
        ghost run: { Run }
        requires { IsNode run self.now }
        ensures { result ≡ want_of (node_of run self.now).todo }
    {
        match self.stage {
            Stage::Inspect | Stage::Inner | Stage::Outer => Want::Work,
            Stage::Request { to } => Want::Post { to },
            Stage::Values { to } => Want::Post { to },
            Stage::AwaitRequests | Stage::AwaitValues => Want::Letter,
            Stage::Done => Want::Done,
        }
    }

    /// How many letters, and values in them, were posted to a rank.
    pub fn sent(&self, to: u32) -> (u64, u64)
        ghost run: { Run }
        requires node { IsNode run self.now }
        requires to { to < run.ranks }
        ensures letters { result.0 ≡ length (sent (scripts run) self.now.rank (node_of run self.now) to) }
        ensures values { result.1 ≡ sum_by letter_size (sent (scripts run) self.now.rank (node_of run self.now) to) }
    {
        let tally = self.sent.at(to as usize);
        (tally.letters, tally.values)
    }

    /// How many letters of a rank were taken. What was taken is the front of its book of this length.
    pub fn given(&self, from: u32) -> u64
        ghost run: { Run }
        requires node { IsNode run self.now }
        requires from { from < run.ranks }
        ensures count { result ≡ length ((node_of run self.now).given from) }
        ensures front { IsFrontOf ((node_of run self.now).given from) (book (scripts run) from self.now.rank) }
    {
        self.given.at(from as usize).len() as u64
    }

    /// The values of the rank's part of an array that is stored whole, by its own numbers of the elements: those before
    /// the turn, and once the rank is done those after it.
    pub fn owned_values(&self, array: u32) -> &Items<Val>
        ghost run: { Run }
        requires node { IsNode run self.now }
        requires array { array < length run.first }
        requires whole { run.dense array ≡ true }
        ensures before { at_end (node_of run self.now).todo ≡ false →
            result.now ≡ part_values run (state_before run) array self.now.rank }
        ensures end { at_end (node_of run self.now).todo ≡ true →
            result.now ≡ part_values run (end_state run) array self.now.rank }
    {
        self.values.at(array as usize)
    }

    /// The letter that the rank posts next: the next one of its book for that receiver.
    pub fn letter(&self, alloc: Global) -> Result<Letter, NoMemory>
        ghost run: { Run }
        requires node { IsNode run self.now }
        requires post { at_post (node_of run self.now).todo ≡ true }
        ensures rest { IfOk result (λ letter. IsFirstOfRest (scripts run) self.now.rank (node_of run self.now) letter) }
        ensures next { IfOk result (λ letter. IsNextToPost (scripts run) self.now.rank (node_of run self.now) letter) }
    {
        match self.stage {
            Stage::Request { to } => self.request(alloc, to),
            Stage::Values { to } => self.own_values(alloc, to),
            _ => unreachable!(),
        }
    }

    fn request(&self, alloc: Global, to: u32) -> Result<Letter, NoMemory>
        ghost run: { Run }
        requires node { IsNode run self.now }
        requires to { self.now.stage ≡ Stage.Request to }
        ensures { IfOk result (λ letter. letter ≡ request (schedule run) self.now.rank to) }
    {
        request_of(alloc, to, self.source, self.asks.at(to as usize).as_slice())
    }

    fn own_values(&self, alloc: Global, to: u32) -> Result<Letter, NoMemory>
        ghost run: { Run }
        requires node { IsNode run self.now }
        requires to { self.now.stage ≡ Stage.Values to }
        ensures { IfOk result (λ letter. values_letter (schedule run) 0 self.now.rank to ≡ Some letter) }
    {
        let asked = asked_in(self.given.at(to as usize));
        let own = self.values.at(self.source as usize);
        let values = values_at(alloc, asked, &self.place(), self.rank, own.as_slice())?;
        Ok(Letter::Values { turn: 0, values })
    }

    /// Moves on after the post of a letter.
    pub fn posted(&mut self)
        ghost run: { Run }
        requires node { IsNode run self.old }
        requires post { at_post (node_of run self.old).todo ≡ true }
        ensures { HasPosted run self.old self.new }
    {
        match self.stage {
            Stage::Request { to } => self.post(to, 0, Stage::Request { to: to + 1 }),
            Stage::Values { to } => {
                let count = asked_in(self.given.at(to as usize)).len() as u64;
                self.post(to, count, Stage::Values { to: to + 1 })
            }
            _ => unreachable!(),
        }
    }

    /// Counts a letter with so many values, and goes on after its post.
    fn post(&mut self, to: u32, values: u64, next: Stage)
        ghost run: { Run }
        requires node { IsNode run self.old }
        requires to { to < run.ranks }
        requires post { Posts run self.old.rank to self.old.stage next values }
        ensures { HasPosted run self.old self.new }
    {
        let tally = *self.sent.at(to as usize);
        self.sent.set(
            to as usize,
            Tally {
                letters: tally.letters + 1,
                values: tally.values + values,
            },
        );
        self.stage = settled(self.rank, self.ranks, &self.given, &self.asks, next);
    }

    /// Takes a letter of a rank: the next one of its book to this rank. It is kept until its values are needed.
    ///
    /// After want of memory the node is as before, and the letter comes back.
    pub fn take(&mut self, from: u32, letter: Letter) -> Result<(), Letter>
        ghost run: { Run }
        requires node { IsNode run self.old }
        requires from { from < run.ranks }
        requires letter { IsNextOf (book (scripts run) from self.old.rank) ((node_of run self.old).given from) letter }
        ensures ok { OnOk result (HasTaken run from (letter ∷ []) self.old self.new) }
        ensures err { OnErr result (self.new ≡ self.old) }
        ensures back { IfErr result (λ back. back ≡ letter) }
    {
        match self.given.offer_at(from as usize, letter) {
            Ok(()) => {
                self.stage = settled(self.rank, self.ranks, &self.given, &self.asks, self.stage);
                Ok(())
            }
            Err(letter) => Err(letter),
        }
    }

    /// Does the rank's next work: it inspects its entries, sums over its inner points, or sums over the others and applies
    /// its sums. After want of memory the node is as before.
    pub fn work(&mut self, alloc: Global) -> Result<(), NoMemory>
        ghost run: { Run }
        requires node { IsNode run self.old }
        requires work { at_work (node_of run self.old).todo ≡ true }
        ensures ok { OnOk result (HasWorked run self.old self.new) }
        ensures err { OnErr result (self.new ≡ self.old) }
    {
        match self.stage {
            Stage::Inspect => self.inspect(alloc),
            Stage::Inner => self.sum_inner(alloc),
            Stage::Outer => self.sum_outer(alloc),
            _ => unreachable!(),
        }
    }

    fn inspect(&mut self, alloc: Global) -> Result<(), NoMemory>
        ghost run: { Run }
        requires node { IsNode run self.old }
        requires stage { self.old.stage ≡ Stage.Inspect }
        ensures ok { OnOk result (HasWorked run self.old self.new) }
        ensures err { OnErr result (self.new ≡ self.old) }
    {
        let place = self.place();
        let asks = match asked_sets(
            alloc,
            self.entries.as_slice(),
            self.extent,
            &place,
            self.rank,
            self.ranks,
        ) {
            Ok(asks) => asks,
            Err(error) => return Err(error),
        };
        self.asks = asks;
        self.stage = settled(
            self.rank,
            self.ranks,
            &self.given,
            &self.asks,
            Stage::Request { to: 0 },
        );
        Ok(())
    }

    fn sum_inner(&mut self, alloc: Global) -> Result<(), NoMemory>
        ghost run: { Run }
        requires node { IsNode run self.old }
        requires stage { self.old.stage ≡ Stage.Inner }
        ensures ok { OnOk result (HasWorked run self.old self.new) }
        ensures err { OnErr result (self.new ≡ self.old) }
    {
        let sums = match self.inner_sums(alloc) {
            Ok(sums) => sums,
            Err(error) => return Err(error),
        };
        self.sums = sums;
        self.stage = settled(
            self.rank,
            self.ranks,
            &self.given,
            &self.asks,
            Stage::AwaitValues,
        );
        Ok(())
    }

    /// One sum for each element of T that the rank owns, over its inner points.
    fn inner_sums(&self, alloc: Global) -> Result<Items<Val>, NoMemory>
        ghost run: { Run }
        requires node { IsNode run self.now }
        requires state { state_of run self.now.stage ≡ run.first }
        ensures { IfOk result (λ sums. HaveInnerSums run self.now sums) }
    {
        let count = self.values.at(self.target as usize).len();
        let mut sums = zeros(alloc, count)?;
        let own = self.values.at(self.source as usize);
        add_inner(
            self.entries.as_slice(),
            &self.place(),
            self.rank,
            own.as_slice(),
            &mut sums,
        );
        Ok(Items::from_vec(sums))
    }

    fn sum_outer(&mut self, alloc: Global) -> Result<(), NoMemory>
        ghost run: { Run }
        requires node { IsNode run self.old }
        requires stage { self.old.stage ≡ Stage.Outer }
        ensures ok { OnOk result (HasWorked run self.old self.new) }
        ensures err { OnErr result (self.new ≡ self.old) }
    {
        let values = match self.end_values(alloc) {
            Ok(values) => values,
            Err(error) => return Err(error),
        };
        self.values.set(self.target as usize, values);
        self.stage = Stage::Done;
        Ok(())
    }

    /// The values of T that the rank owns, at the end.
    fn end_values(&self, alloc: Global) -> Result<Items<Val>, NoMemory>
        ghost run: { Run }
        requires node { IsNode run self.now }
        requires stage { self.now.stage ≡ Stage.Outer }
        ensures { IfOk result (λ values. values ≡ part_values run (end_state run) run.target self.now.rank) }
    {
        let known = self.known_values(alloc)?;
        let mut sums = Vec::from_slice(alloc, self.sums.as_slice())?;
        add_outer(
            self.entries.as_slice(),
            &self.place(),
            self.rank,
            known.as_slice(),
            &mut sums,
        );
        applied(
            alloc,
            self.values.at(self.target as usize).as_slice(),
            sums.as_slice(),
        )
    }

    /// The values of D that the rank was sent, by element number; 0 at the others.
    fn known_values(&self, alloc: Global) -> Result<Vec<Val>, NoMemory>
        ghost run: { Run }
        requires node { IsNode run self.now }
        requires stage { self.now.stage ≡ Stage.Outer }
        ensures { IfOk result (λ known. AreKnown run self.now.rank run.ranks known.items) }
    {
        let mut known = zeros(alloc, self.extent as usize)?;
        for from in 0..self.ranks as usize {
            put_values(
                self.asks.at(from).as_slice(),
                values_in(self.given.at(from)),
                &mut known,
            );
        }
        Ok(known)
    }

    fn place(&self) -> Cyclic
        ghost run: { Run }
        requires { IsNode run self.now }
        ensures ranks { ⟦<Cyclic as Placement>⟧.ranks result ≡ run.ranks }
        ensures triples { ⟦<Cyclic as Placement>⟧.triples result ≡ run.place }
    {
        Cyclic::new(self.extent, self.ranks, self.block)
    }
}
