//! What an end holds of another rank.
ghost use Rattle.std.specs.Prelude.{◌≡◌, ◌+◌, ◌≤◌, ◌++◌, IfOk, IfErr, IfSome, IsSome, IsNone, OnOk, OnErr, vec_len, vec_capacity};
ghost use Rattle.rank_scripts.specs.Scripts.{IsNextOf};
ghost use Rattle.rank_mail.specs.Lanes.{Books};
ghost use Rattle.rank_mail.specs.Peers.{posted_of, taken_of, book_to_of, book_from_of, posting, taking, hauls_between, AreNewPeers, AreMates, AreInOrder};

use crate::carried::Closed;
use crate::sides::{Incoming, Outgoing, close, open};
use bern_base::{Letter, NoMemory};
use std::alloc::Global;
use std::sync::Wait;

/// The side of the box to another rank, and that of the box from it.
#[derive(Drop)]
pub(crate) struct Peer {
    pub(crate) to: Outgoing,
    pub(crate) from: Incoming,
}

/// Two new boxes between two ranks, one each way: what the first holds of the second, and the second of the first.
pub(crate) fn open_both(alloc: Global, p: u32, q: u32) -> Result<(Peer, Peer), NoMemory>
    ghost books: { Books }
    ensures { IfOk result (λ pair. AreNewPeers books p q pair.0 pair.1) }
{
    let (there, arrives) = open(alloc, p, q)?;
    let (back, returns) = open(alloc, q, p)?;
    let mine = Peer {
        to: there,
        from: returns,
    };
    let theirs = Peer {
        to: back,
        from: arrives,
    };
    Ok((mine, theirs))
}

/// Posts the next letter of the book to a rank.
pub(crate) fn post_to<R: Wait>(
    rt: &R,
    peer: &mut Option<Peer>,
    letter: Letter,
) -> Result<(), Letter>
    requires some { IsSome peer.old }
    requires next { IsNextOf (book_to_of peer.old) (posted_of peer.old) letter }
    ensures ok { OnOk result (peer.new ≡ posting letter peer.old) }
    ensures err { OnErr result (peer.new ≡ peer.old) }
    ensures back { IfErr result (λ back. back ≡ letter) }
{
    match peer {
        Some(peer) => peer.to.post(rt, letter),
        None => unreachable!(),
    }
}

/// Takes the oldest letter of a rank, if its box has one.
pub(crate) fn take_from<R: Wait>(rt: &R, peer: &mut Option<Peer>) -> Option<Letter>
    ensures known { IfSome result (λ letter. IsSome peer.old) }
    ensures some { IfSome result (λ letter. peer.new ≡ taking letter peer.old) }
    ensures next { IfSome result (λ letter. IsNextOf (book_from_of peer.old) (taken_of peer.old) letter) }
    ensures none { IsNone result → peer.new ≡ peer.old }
{
    match peer {
        Some(peer) => peer.from.take(rt),
        None => None,
    }
}

/// Closes both boxes between two ranks, and keeps what went through them.
pub(crate) fn close_both<R: Wait>(
    rt: &R,
    mine: Option<Peer>,
    theirs: Option<Peer>,
    kept: &mut Vec<Closed>,
)
    requires mates { AreMates mine theirs }
    requires room { vec_len kept.old + 2 ≤ vec_capacity kept.old }
    ensures kept { kept.new.items ≡ kept.old.items ++ hauls_between mine theirs }
    ensures in_order { AreInOrder mine theirs }
    ensures len { vec_len kept.new ≡ vec_len kept.old + 2 }
    ensures capacity { vec_capacity kept.new ≡ vec_capacity kept.old }
{
    match (mine, theirs) {
        (Some(mine), Some(theirs)) => {
            let Peer { to, from } = mine;
            let Peer {
                to: back,
                from: arrives,
            } = theirs;
            kept.push_reserved(close(rt, to, arrives));
            kept.push_reserved(close(rt, back, from));
        }
        _ => unreachable!(),
    }
}
