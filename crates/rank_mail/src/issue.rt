//! The ends of an issue, made one rank after another.
ghost use Rattle.std.specs.Prelude.{◌≡◌, ℕ, ◌+◌, ◌<◌, ◌≤◌, [], IfOk, OnOk};
ghost use Rattle.rank_mail.specs.Lanes.{Books};
ghost use Rattle.rank_mail.specs.Desks.{IsNewIssue};
ghost use Rattle.rank_mail.specs.Meetings.{IsMet, AreUnused};

use crate::end::End;
use crate::peer::{Peer, open_both};
use bern_base::NoMemory;
use std::alloc::Global;

/// One end for each rank, with a new box for each ordered pair.
pub(crate) fn issue_ends(alloc: Global, ranks: u32) -> Result<Vec<End>, NoMemory>
    ghost books: { Books }
    requires { ranks ≤ 64 }
    ensures { IfOk result (λ ends. IsNewIssue books ranks ends.items) }
{
    let mut ends = Vec::with_capacity(alloc, ranks as usize)?;
    for rank in 0..ranks {
        seat(alloc, rank, ranks, &mut ends)?;
    }
    Ok(ends)
}

// Adds the end of the next rank.
fn seat(alloc: Global, rank: u32, ranks: u32, ends: &mut Vec<End>) -> Result<(), NoMemory>
    ghost books: { Books }
    requires few { rank < 64 }
    requires ends { IsNewIssue books rank ends.old.items }
    ensures { OnOk result (IsNewIssue books (rank + 1) ends.new.items) }
{
    let mut peers = Vec::with_capacity(alloc, ranks as usize)?;
    greet_all(alloc, rank, ends, &mut peers)?;
    peers.push(None)?;
    ends.push(End::new(rank, peers))?;
    Ok(())
}

// Makes the boxes between the next rank and each rank before it.
fn greet_all(
    alloc: Global,
    rank: u32,
    ends: &mut Vec<End>,
    peers: &mut Vec<Option<Peer>>,
) -> Result<(), NoMemory>
    ghost books: { Books }
    requires few { rank < 64 }
    requires ends { IsNewIssue books rank ends.old.items }
    requires peers { peers.old.items ≡ [] }
    ensures met { OnOk result (IsMet books rank rank ends.new.items peers.new.items) }
    ensures unused { OnOk result (AreUnused ends.new.items peers.new.items) }
{
    for other in 0..rank {
        let (theirs, mine) = open_both(alloc, other, rank)?;
        let end = &mut ends[other as usize];
        end.add(theirs)?;
        peers.push(Some(mine))?;
    }
    Ok(())
}
