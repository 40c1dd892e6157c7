ghost use Rattle.std.specs.Prelude.{◌≡◌, replicate, IfOk};

use bern_base::NoMemory;
use std::alloc::Global;

/// Where a rank stands in its script.
#[derive(Clone, Copy, Debug, PartialEq, Eq)]
pub enum Stage {
    /// It has still to find what it needs.
    Inspect,
    /// It posts its Request to this rank.
    Request { to: u32 },
    AwaitRequests,
    /// It posts the values of a turn to this rank.
    Values { turn: u32, to: u32 },
    /// It has still to sum over the points of the turn that need no other rank.
    Inner { turn: u32 },
    AwaitValues { turn: u32 },
    /// It has still to sum over the other points of the turn, and to apply the sums.
    Outer { turn: u32 },
    Done,
}

/// What a rank does next.
#[derive(Clone, Copy, Debug, PartialEq, Eq)]
pub enum Want {
    Work,
    Post { to: u32 },
    /// It waits for a letter that it has not taken.
    Letter,
    Done,
}

/// How many letters, and values in them, were posted to a rank.
#[derive(Clone, Copy, Debug, PartialEq, Eq)]
pub struct Tally {
    pub letters: u64,
    pub values: u64,
}

/// Nothing posted, to each of so many ranks.
pub(crate) fn no_tallies(alloc: Global, ranks: u32) -> Result<Vec<Tally>, NoMemory>
    ensures { IfOk result (λ tallies. tallies.items ≡ replicate ranks (record { letters = 0; values = 0 })) }
{
    let none = Tally {
        letters: 0,
        values: 0,
    };
    let tallies = vec![in alloc; none; ranks as usize]?;
    Ok(tallies)
}
