ghost use Rattle.std.specs.Prelude.{◌≡◌, ◌<◌, ◌≤◌, length, slice_index, true, false, IsTrue, MatchOption};
ghost use Rattle.mm_profile.specs.Lines.{is_blank, words, word_at};
ghost use Rattle.mm_profile.specs.Numbers.{is_natural};
ghost use Rattle.mm_text.specs.Naturals.{IsNextNatural};

use crate::numerals::{Natural, digits_front, read_natural};
use crate::word_list::{from_word, is_blank, next_word};

/// As `next_natural`, for a word of any length.
fn next_long_natural(line: &[u8]) -> Option<(Natural, &[u8])>
    ensures { MatchOption result
        (is_natural (word_at (words line.now) 0) ≡ false)
        (λ n. IsNextNatural line.now n.0 n.1.now) }
{
    let (word, rest) = next_word(line)?;
    let number = read_natural(word)?;
    Some((number, rest))
}

/// Whether a word ends after so many bytes.
fn ends_at(from: &[u8], len: usize) -> bool
    requires { len ≤ length from.now }
    ensures ends { IsTrue result → len < length from.now → is_blank (slice_index from.now len) ≡ true }
    ensures within { result ≡ false → len < length from.now }
    ensures goes_on { result ≡ false → is_blank (slice_index from.now len) ≡ false }
{
    if len == from.len() {
        return true;
    }
    is_blank(from[len])
}

/// The number that the first word of a line spells, and what stands after the word. The word is looked at once.
pub(crate) fn next_natural(line: &[u8]) -> Option<(Natural, &[u8])>
    ensures { MatchOption result
        (is_natural (word_at (words line.now) 0) ≡ false)
        (λ n. IsNextNatural line.now n.0 n.1.now) }
{
    let from = from_word(line);
    let Some((number, len)) = digits_front(from) else {
        return next_long_natural(line);
    };
    if !ends_at(from, len) {
        return None;
    }
    if len == 0 {
        return None;
    }
    let (_, rest) = from.split_at(len);
    Some((Natural::Small(number), rest))
}
