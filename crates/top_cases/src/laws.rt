ghost use Rattle.std.specs.Prelude.{◌≢◌, ℕ, List, map, string_bytes, IfSome, IsSome, IsTrue};
ghost use Rattle.bern_ports.specs.Files.{bytes_of};
ghost use Rattle.bern_top.specs.Endings.{IsReached};

use bern_base::Steps;
use bern_ports::{Shelf, Sink, SureSink};
use bern_top::bernoulli;
use std::alloc::Global;
use std::sync::ledger::Ledger;

/// Over sinks that cannot fail no write fault is answered.
pub fn over_sure_sinks<F: Shelf, L: Ledger>(
    alloc: Global,
    words: &[String],
    shelf: &mut F,
    steps: &mut Steps<L>,
) -> u8
    ensures { result ≢ 4 }
{
    let mut out = SureSink::new();
    let mut err = SureSink::new();
    bernoulli(alloc, words, shelf, &mut out, &mut err, steps)
}

/// Over a sure shelf that has each file that the words reach no read fault is answered.
pub fn over_a_sure_shelf<F: Shelf, S: Sink, L: Ledger>(
    alloc: Global,
    words: &[String],
    shelf: &mut F,
    out: &mut S,
    err: &mut S,
    steps: &mut Steps<L>,
) -> u8
    requires sure { IsTrue (F.sure shelf.old) }
    requires there { IfSome (F.files shelf.old)
        (λ fs. (name : List ℕ) → IsReached fs (map string_bytes words.now) name → IsSome (bytes_of fs name)) }
    ensures { result ≢ 3 }
{
    bernoulli(alloc, words, shelf, out, err, steps)
}
