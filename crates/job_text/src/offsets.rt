ghost use Rattle.std.specs.Prelude.{◌≡◌, None};
ghost use Rattle.job_text.specs.WordReading.{offset_of, is_above, risen, next_offset, offsets_from, offsets_of};
ghost use Rattle.job_text.specs.Reading.{Gives};

use crate::numbers::number;
use crate::pieces::Piece;
use crate::stop::Stop;
use bern_base::Items;
use std::alloc::Global;

/// The offsets of diagonals, one at least, each above the one before it.
pub(crate) fn offsets(alloc: Global, words: &[Piece]) -> Result<Items<i128>, Stop>
    ensures { Gives (λ offsets. offsets) result (offsets_of words.now) }
{
    match words {
        [] => Err(Stop::NoForm),
        _ => rising(alloc, words),
    }
}

/// Offsets that rise.
fn rising(alloc: Global, words: &[Piece]) -> Result<Items<i128>, Stop>
    ensures { Gives (λ offsets. offsets) result (offsets_from None words.now) }
{
    let mut offsets = Items::new(alloc);
    let mut last = None;
    for word in words {
        match next_offset(last, word.bytes()) {
            Some(next) => {
                offsets.push(next)?;
                last = Some(next);
            }
            None => return Err(Stop::NoForm),
        }
    }
    Ok(offsets)
}

/// An offset above the last one, if there is one.
fn next_offset(last: Option<i128>, word: &[u8]) -> Option<i128>
    ensures { result ≡ next_offset last word.now }
{
    match offset(word) {
        Some(next) => risen(last, next),
        None => None,
    }
}

fn risen(last: Option<i128>, next: i128) -> Option<i128>
    ensures { result ≡ risen last next }
{
    if is_above(last, next) {
        Some(next)
    } else {
        None
    }
}

fn is_above(last: Option<i128>, next: i128) -> bool
    ensures { result ≡ is_above last next }
{
    match last {
        Some(last) => last < next,
        None => true,
    }
}

/// A number, or one after a minus.
fn offset(word: &[u8]) -> Option<i128>
    ensures { result ≡ offset_of word.now }
{
    match word {
        [b'-', digits @ ..] => match number(digits) {
            Some(number) => Some(-i128::from(number)),
            None => None,
        },
        _ => match number(word) {
            Some(number) => Some(i128::from(number)),
            None => None,
        },
    }
}
