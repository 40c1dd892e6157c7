ghost use Rattle.std.specs.Prelude.{◌≡◌, ◌+◌, ◌*◌, ◌≤◌, [], ◌∷◌, ◌++◌, length, IfOk, IfErr, OnOk, OnErr, vec_len, vec_capacity};
ghost use Rattle.rank_mail.specs.Lanes.{Books};
ghost use Rattle.rank_mail.specs.Desks.{IsIssue, IsNewIssue};
ghost use Rattle.rank_mail.specs.Offices.{HasCarried, AreAllInOrder};
ghost use Rattle.rank_mail.specs.Meetings.{HasParted};

use crate::carried::Closed;
use crate::end::End;
use crate::issue::issue_ends;
use crate::peer::close_both;
use bern_base::{Items, NoMemory};
use std::alloc::Global;
use std::marker::Model;
use std::sync::Wait;
use thiserror::Error;

/// The mail office of a program. It gives out the ends of a run and takes them back, and keeps what each closed run
/// carried, for contracts to see: it holds no letter, and no byte of a run that is over.
#[derive(Drop)]
pub struct Office {
    closed: Vec<Closed>,
}

impl Model for Office {
    ghost use Rattle.std.specs.Prelude.{List};
    ghost use Rattle.rank_mail.specs.Lanes.{Haul};

    ghost Value = { List Haul };

    ghost view = { λ o. o.closed.items };
}

/// Want of memory as an issue was closed: its ends come back.
#[derive(Debug, Drop, Error)]
#[error("out of memory")]
pub struct CloseError {
    pub ends: Items<End>,
}

impl Office {
    /// An office that has carried nothing.
    pub fn new(alloc: Global) -> Office
        ensures { result ≡ [] }
    {
        Office {
            closed: Vec::new(alloc),
        }
    }

    /// One end for each rank, by rank, with one new box for each ordered pair of different ranks.
    ///
    /// The book of a pair, the letters that its sender is to post, is chosen here; it stands in contracts alone. After
    /// want of memory the office is as before.
    pub fn issue(&mut self, alloc: Global, ranks: u32) -> Result<Items<End>, NoMemory>
        ghost books: { Books }
        requires { ranks ≤ 64 }
        ensures ends { IfOk result (λ ends. IsNewIssue books ranks ends) }
        ensures office { self.new ≡ self.old }
    {
        let ends = issue_ends(alloc, ranks)?;
        Ok(Items::from_vec(ends))
    }

    /// Closes all boxes of an issue, whose ends these are: they go, with the letters that nobody took, and the office
    /// has carried what was taken.
    ///
    /// `Err` is want of memory: the ends come back, and the office is as before. If they are then dropped, their letters
    /// are never counted.
    pub fn close<R: Wait>(&mut self, rt: &R, ends: Items<End>) -> Result<(), CloseError>
        ghost books: { Books }
        requires few { length ends ≤ 64 }
        requires issue { IsIssue books (length ends) ends }
        ensures carried { OnOk result (HasCarried ends self.old self.new) }
        ensures in_order { OnOk result (AreAllInOrder books ends) }
        ensures err { OnErr result (self.new ≡ self.old) }
        ensures back { IfErr result (λ failed. failed.ends ≡ ends) }
    {
        let ranks = ends.len();
        match self.closed.reserve(ranks * ranks) {
            Ok(()) => {
                close_all(rt, ends.into_vec(), &mut self.closed);
                Ok(())
            }
            Err(_) => Err(CloseError { ends }),
        }
    }
}

// Closes the boxes of one rank after another, the last first.
fn close_all<R: Wait>(rt: &R, mut ends: Vec<End>, closed: &mut Vec<Closed>)
    ghost books: { Books }
    requires issue { IsIssue books (length ends.items) ends.items }
    requires room { vec_len closed.old + length ends.items * length ends.items ≤ vec_capacity closed.old }
    ensures carried { HasCarried ends.items closed.old.items closed.new.items }
    ensures in_order { AreAllInOrder books ends.items }
{
    while let Some(last) = ends.pop() {
        part(rt, last, &mut ends, closed);
    }
}

// Closes the boxes between the last rank and each other one.
fn part<R: Wait>(rt: &R, mut last: End, ends: &mut Vec<End>, closed: &mut Vec<Closed>)
    ghost books: { Books }
    requires issue { IsIssue books (length ends.old.items + 1) (ends.old.items ++ last ∷ []) }
    requires room { vec_len closed.old + 2 * length ends.old.items ≤ vec_capacity closed.old }
    ensures parted { HasParted books (length ends.old.items) ends.old.items last ends.new.items closed.old.items closed.new.items }
    ensures len { vec_len closed.new ≡ vec_len closed.old + 2 * length ends.old.items }
    ensures capacity { vec_capacity closed.new ≡ vec_capacity closed.old }
{
    // It holds nothing of itself.
    drop(last.remove());
    let mut peers = last.into_peers();
    while let Some(theirs) = peers.pop() {
        let end = &mut ends[peers.len()];
        let mine = end.remove();
        close_both(rt, mine, theirs, closed);
    }
}
