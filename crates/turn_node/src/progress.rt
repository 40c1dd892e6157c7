ghost use Rattle.std.specs.Prelude.{◌≡◌, ◌+◌, ◌<◌, true, [], ◌∷◌, Some, length, slice_get, IfOk, IfErr, OnOk, OnErr};
ghost use Rattle.std.specs.List.{sum_by};
ghost use Rattle.rank_scripts.specs.Acts.{at_post};
ghost use Rattle.rank_scripts.specs.Scripts.{book, IsFrontOf, IsNextOf};
ghost use Rattle.rank_scripts.specs.Nodes.{fresh, posted, sent, took, worked};
ghost use Rattle.turn_model.specs.Runs.{IsRun, Run, schedule, scripts};
ghost use Rattle.turn_model.specs.Schedules.{request, values_in as letter_size};
ghost use Rattle.turn_node.specs.Parts.{all_asks};
ghost use Rattle.turn_node.specs.Positions.{Ready, Summed, want_of};
ghost use Rattle.turn_node.specs.Progresses.{node_of, Goes, IsProgress, Keeps, Posts, Stays};

use crate::due::{elements_due, needs_like, no_counts, nothing_asked};
use crate::mail::Mail;
use crate::stage::{Stage, Tally, Want, no_tallies};
use bern_base::{Items, Letter, Needs, NoMemory};
use std::alloc::Global;

/// How far a rank has come in a run: where it stands, what it was asked for, the letters that it keeps, and how many it took
/// and posted.
#[derive(Drop)]
pub struct Progress {
    pub(crate) rank: u32,
    /// The nest of each turn.
    pub(crate) turns: Items<u32>,
    /// What it needs, by owner, once it has inspected its points.
    pub(crate) asks: Items<Needs>,
    /// What each other rank needs of it, once its Request came.
    pub(crate) asked: Items<Needs>,
    /// The values that came and are not used, by sender.
    pub(crate) mail: Mail,
    /// How many letters of each rank were taken.
    pub(crate) taken: Items<u64>,
    pub(crate) sent: Items<Tally>,
    pub(crate) stage: Stage,
}

impl Progress {
    /// A rank at its start. After want of memory nothing stands.
    pub(crate) fn new(
        alloc: Global,
        rank: u32,
        ranks: u32,
        turns: Items<u32>,
    ) -> Result<Progress, NoMemory>
        ghost run: { Run }
        requires run { IsRun run }
        requires rank { rank < run.ranks }
        requires ranks { ranks ≡ run.ranks }
        requires turns { turns ≡ run.turns }
        ensures is { IfOk result (λ n. IsProgress run n) }
        ensures rank { IfOk result (λ n. n.rank ≡ rank) }
        ensures stage { IfOk result (λ n. n.stage ≡ Stage.Inspect) }
        ensures fresh { IfOk result (λ n. node_of run n ≡ fresh (scripts run) rank) }
    {
        let asked = nothing_asked(alloc, ranks)?;
        let mail = Mail::new(alloc, ranks)?;
        let taken = no_counts(alloc, ranks)?;
        let sent = no_tallies(alloc, ranks)?;
        Ok(Progress {
            rank,
            turns,
            asks: Items::new(alloc),
            asked,
            mail,
            taken,
            sent: Items::from_vec(sent),
            stage: Stage::Inspect,
        })
    }

    /// How many ranks there are.
    pub(crate) fn ranks(&self) -> u32
        ghost run: { Run }
        requires { IsProgress run self.now }
        ensures { result ≡ run.ranks }
    {
        self.asked.len() as u32
    }

    /// What the rank does next.
    pub(crate) fn want(&self) -> Want
        ghost run: { Run }
        requires { IsProgress run self.now }
        ensures { result ≡ want_of (node_of run self.now).todo }
    {
        match self.stage {
            Stage::Inspect | Stage::Inner { .. } | Stage::Outer { .. } => Want::Work,
            Stage::Request { to } => Want::Post { to },
            Stage::Values { to, .. } => Want::Post { to },
            Stage::AwaitRequests | Stage::AwaitValues { .. } => Want::Letter,
            Stage::Done => Want::Done,
        }
    }

    /// How many letters, and values in them, were posted to a rank.
    pub(crate) fn sent(&self, to: u32) -> (u64, u64)
        ghost run: { Run }
        requires is { IsProgress run self.now }
        requires to { to < run.ranks }
        ensures letters { result.0 ≡ length (sent (scripts run) self.now.rank (node_of run self.now) to) }
        ensures values { result.1 ≡ sum_by letter_size (sent (scripts run) self.now.rank (node_of run self.now) to) }
    {
        let tally = self.sent.at(to as usize);
        (tally.letters, tally.values)
    }

    /// How many letters of a rank were taken.
    pub(crate) fn given(&self, from: u32) -> u64
        ghost run: { Run }
        requires is { IsProgress run self.now }
        requires from { from < run.ranks }
        ensures count { result ≡ length ((node_of run self.now).given from) }
        ensures front { IsFrontOf ((node_of run self.now).given from) (book (scripts run) from self.now.rank) }
    {
        *self.taken.at(from as usize)
    }

    /// The nest of a turn.
    pub(crate) fn nest(&self, turn: u32) -> u32
        requires { turn < length self.now.turns }
        ensures { slice_get self.now.turns turn ≡ Some result }
    {
        *self.turns.at(turn as usize)
    }

    /// The Request to a rank.
    pub(crate) fn request(&self, alloc: Global, to: u32) -> Result<Letter, NoMemory>
        ghost run: { Run }
        requires is { IsProgress run self.now }
        requires stage { self.now.stage ≡ Stage.Request to }
        ensures { IfOk result (λ letter. letter ≡ request (schedule run) self.now.rank to) }
    {
        let needs = self.asks.at(to as usize);
        Ok(Letter::Request(needs_like(alloc, needs)?))
    }

    /// Goes on after the inspection, which found these needs.
    pub(crate) fn inspected(&mut self, asks: Items<Needs>)
        ghost run: { Run }
        requires is { IsProgress run self.old }
        requires stage { self.old.stage ≡ Stage.Inspect }
        requires asks { asks ≡ all_asks run self.old.rank }
        ensures { Goes run self.old self.new 0 Ready (run.budget.inspect self.old.rank)
            (worked (scripts run) self.old.rank (node_of run self.old)) }
    {
        self.asks = asks;
        self.stage = self.settled(Stage::Request { to: 0 });
    }

    /// Goes on after the inner points of a turn.
    pub(crate) fn summed(&mut self, turn: u32)
        ghost run: { Run }
        requires is { IsProgress run self.old }
        requires stage { self.old.stage ≡ Stage.Inner turn }
        ensures { Goes run self.old self.new turn Summed (run.budget.inner turn self.old.rank)
            (worked (scripts run) self.old.rank (node_of run self.old)) }
    {
        self.stage = self.settled(Stage::AwaitValues { turn });
    }

    /// Goes on after the outer points of a turn: its letters are used.
    pub(crate) fn applied(&mut self, turn: u32)
        ghost run: { Run }
        requires is { IsProgress run self.old }
        requires stage { self.old.stage ≡ Stage.Outer turn }
        ensures { Goes run self.old self.new (turn + 1) Ready (run.budget.outer turn self.old.rank)
            (worked (scripts run) self.old.rank (node_of run self.old)) }
    {
        self.drop_used(turn);
        self.stage = self.begun(turn + 1);
    }

    /// Moves on after the post of a letter.
    pub(crate) fn posted(&mut self)
        ghost run: { Run }
        requires is { IsProgress run self.old }
        requires post { at_post (node_of run self.old).todo ≡ true }
        ensures { Stays run self.old self.new (posted (scripts run) self.old.rank (node_of run self.old)) }
    {
        match self.stage {
            Stage::Request { to } => self.post(to, 0, Stage::Request { to: to + 1 }),
            Stage::Values { turn, to } => {
                let nest = self.nest(turn);
                let count = elements_due(self.asked.at(to as usize).sets.as_slice(), nest);
                self.post(to, count, Stage::Values { turn, to: to + 1 })
            }
            _ => unreachable!(),
        }
    }

    /// Counts a letter with so many values, and goes on after its post.
    fn post(&mut self, to: u32, values: u64, next: Stage)
        ghost run: { Run }
        requires is { IsProgress run self.old }
        requires to { to < run.ranks }
        requires post { Posts run self.old.rank to self.old.stage next values }
        ensures { Stays run self.old self.new (posted (scripts run) self.old.rank (node_of run self.old)) }
    {
        let tally = *self.sent.at(to as usize);
        self.sent.set(
            to as usize,
            Tally {
                letters: tally.letters + 1,
                values: tally.values + values,
            },
        );
        self.stage = self.settled(next);
    }

    /// Takes a letter of a rank: the next one of its book to this rank. Values are kept until their turn.
    ///
    /// After want of memory the rank is as before, and the letter comes back.
    pub(crate) fn take(&mut self, from: u32, letter: Letter) -> Result<(), Letter>
        ghost run: { Run }
        requires is { IsProgress run self.old }
        requires from { from < run.ranks }
        requires letter { IsNextOf (book (scripts run) from self.old.rank) ((node_of run self.old).given from) letter }
        ensures ok { OnOk result (Stays run self.old self.new (took (scripts run) self.old.rank (node_of run self.old) from (letter ∷ []))) }
        ensures err { OnErr result (self.new ≡ self.old) }
        ensures back { IfErr result (λ back. back ≡ letter) }
    {
        match self.keep(from, letter) {
            Ok(()) => {
                let taken = *self.taken.at(from as usize);
                self.taken.set(from as usize, taken + 1);
                self.stage = self.settled(self.stage);
                Ok(())
            }
            Err(letter) => Err(letter),
        }
    }

    /// Keeps what a Request asks for, or a letter with values.
    fn keep(&mut self, from: u32, letter: Letter) -> Result<(), Letter>
        requires asked { from < length self.old.asked }
        requires mail { from < length self.old.mail }
        ensures ok { OnOk result (Keeps self.old self.new from letter) }
        ensures err { OnErr result (self.new ≡ self.old) }
        ensures back { IfErr result (λ back. back ≡ letter) }
    {
        match letter {
            Letter::Request(needs) => {
                self.asked.set(from as usize, needs);
                Ok(())
            }
            values => self.mail.offer(from, values),
        }
    }
}
