use crate::peer::{Peer, post_to, take_from};
use bern_base::{Letter, NoMemory};
use std::fmt;
use std::marker::Model;
use std::sync::Wait;

/// What one rank has of the office: the side that posts of each box from it, and the side that takes of each box to it.
///
/// Contracts see what it has posted to each rank and taken from each. An end may go to another thread. One that is
/// dropped leaves its boxes to the other side; a box that both sides have left goes with the letters that it holds.
#[derive(Drop)]
pub struct End {
    rank: u32,
    peers: Vec<Option<Peer>>,
}

impl Model for End {
    ghost use Rattle.rank_mail.specs.Desks.{Desk};

    ghost Value = { Desk };

    ghost use Rattle.std.specs.Prelude.{◌≤◌, length};

    ghost view = { λ e. record { rank = e.rank; peers = e.peers.items } };

    ghost invariant = { λ e. length e.peers.items ≤ 64 };
}

impl End {
    ghost use Rattle.std.specs.Prelude.{◌≡◌, ◌<◌, ◌≤◌, [], ◌∷◌, ◌++◌, Some, IfErr, IfSome, IsSome, IsNone, OnOk, OnErr, length};
    ghost use Rattle.rank_scripts.specs.Scripts.{IsNextOf};
    ghost use Rattle.rank_mail.specs.Desks.{peer_at, posted, taken, book_to, book_from, posts_on, takes_on, IsSameEnd};

    /// The end of a rank, with what it holds of each rank.
    pub(crate) fn new(rank: u32, peers: Vec<Option<Peer>>) -> End
        requires { length peers.items ≤ 64 }
        ensures { result ≡ record { rank = rank; peers = peers.items } }
    {
        End { rank, peers }
    }

    /// The rank that this end belongs to.
    pub fn rank(&self) -> u32
        ensures { result ≡ self.now.rank }
    {
        self.rank
    }

    /// Posts to another rank of the issue the next letter of the book of that pair.
    ///
    /// `Err` is want of memory: nothing was posted, and the letter comes back.
    pub fn post<R: Wait>(&mut self, rt: &R, to: u32, letter: Letter) -> Result<(), Letter>
        requires known { IsSome (peer_at self.old to) }
        requires next { IsNextOf (book_to self.old to) (posted self.old to) letter }
        ensures ok { OnOk result (self.new ≡ posts_on self.old to letter) }
        ensures same { IsSameEnd self.old self.new }
        ensures err { OnErr result (self.new ≡ self.old) }
        ensures back { IfErr result (λ back. back ≡ letter) }
    {
        let peer = &mut self.peers[to as usize];
        post_to(rt, peer, letter)
    }

    /// Tries each box to this rank once, by rising sender, until one gives its oldest letter: the sender and the letter.
    /// The letter is the next one of the book of that pair.
    ///
    /// `None` comes only where each box was empty at some moment of the call. No contract can say so, as what others
    /// have posted by then is not known on this side. It takes no memory.
    pub fn take<R: Wait>(&mut self, rt: &R) -> Option<(u32, Letter)>
        ensures known { IfSome result (λ r. IsSome (peer_at self.old r.0)) }
        ensures some { IfSome result (λ r. self.new ≡ takes_on self.old r.0 r.1) }
        ensures next { IfSome result (λ r. IsNextOf (book_from self.old r.0) (taken self.old r.0) r.1) }
        ensures none { IsNone result → self.new ≡ self.old }
        ensures same { IsSameEnd self.old self.new }
    {
        for from in 0..self.peers.len() {
            let peer = &mut self.peers[from];
            if let Some(letter) = take_from(rt, peer) {
                return Some((from as u32, letter));
            }
        }
        None
    }

    /// Adds what it holds of the next rank.
    pub(crate) fn add(&mut self, peer: Peer) -> Result<(), NoMemory>
        requires { length self.old.peers < 64 }
        ensures { OnOk result (self.new ≡ record self.old { peers = self.old.peers ++ Some peer ∷ [] }) }
    {
        self.peers.push(Some(peer))?;
        Ok(())
    }

    /// Gives up what it holds of the last rank.
    pub(crate) fn remove(&mut self) -> Option<Peer>
        requires { 0 < length self.old.peers }
        ensures rank { self.new.rank ≡ self.old.rank }
        ensures peers { self.old.peers ≡ self.new.peers ++ result ∷ [] }
    {
        match self.peers.pop() {
            Some(peer) => peer,
            None => unreachable!(),
        }
    }

    /// All that it holds, by rank.
    pub(crate) fn into_peers(self) -> Vec<Option<Peer>>
        ensures { result.items ≡ self.peers }
    {
        let End { rank: _, peers } = self;
        peers
    }
}

impl fmt::Debug for End {
    fn fmt<W: fmt::Write>(&self, f: &mut fmt::Formatter<W>) -> fmt::Result {
        f.pad("End { .. }")
    }
}
