ghost use Rattle.std.specs.Prelude.{◌≡◌};
ghost use Rattle.job_text.specs.WordReading.{is_inner, under_dense, under_packed, two_of, one_of, list_of, inner_of, axes_of, are_permuted, permute_of, jagged_of, levels_of};
ghost use Rattle.job_text.specs.Reading.{Gives};

use crate::forms::{axis, file_text};
use crate::offsets::offsets;
use crate::pieces::Piece;
use crate::stop::Stop;
use crate::words::is;
use bern_base::{Axis, RawShape};
use std::alloc::Global;

/// The levels of a format, by their first word. A new format is one more case.
#[tactic(auto, unfolding(crate::specs::WordReading::levels_of))]
pub(crate) fn levels(alloc: Global, words: &[Piece]) -> Result<RawShape, Stop>
    ensures { Gives (λ shape. shape) result (levels_of words.now) }
{
    match words {
        [key, rest @ ..] => {
            let key = key.bytes();
            if is(key, b"jagged") {
                jagged(rest).ok_or(Stop::NoForm)
            } else if is(key, b"diagonal") {
                let offsets = offsets(alloc, rest)?;
                Ok(RawShape::Diagonal(offsets))
            } else if is(key, b"permute") {
                permute(alloc, rest)
            } else {
                axes(words).ok_or(Stop::NoForm)
            }
        }
        [] => Err(Stop::NoForm),
    }
}

/// Nothing follows `jagged`.
fn jagged(words: &[Piece]) -> Option<RawShape>
    ensures { result ≡ jagged_of words.now }
{
    match words {
        [] => Some(RawShape::Jagged),
        _ => None,
    }
}

/// `FILE row dense > col packed`
#[tactic(auto, unfolding(crate::specs::WordReading::permute_of))]
fn permute(alloc: Global, words: &[Piece]) -> Result<RawShape, Stop>
    ensures { Gives (λ shape. shape) result (permute_of words.now) }
{
    match words {
        [file, outer, first, above, inner, second] => {
            if are_permuted(
                outer.bytes(),
                first.bytes(),
                above.bytes(),
                inner.bytes(),
                second.bytes(),
            ) {
                let file = file_text(alloc, file.bytes())?;
                Ok(RawShape::Permute(file))
            } else {
                Err(Stop::NoForm)
            }
        }
        _ => Err(Stop::NoForm),
    }
}

fn are_permuted(outer: &[u8], first: &[u8], above: &[u8], inner: &[u8], second: &[u8]) -> bool
    ensures { result ≡ are_permuted outer.now first.now above.now inner.now second.now }
{
    is(outer, b"row")
        && is(first, b"dense")
        && is(above, b">")
        && is(inner, b"col")
        && is(second, b"packed")
}

/// One level, a list of two dimensions, or two levels.
#[tactic(auto, unfolding(crate::specs::WordReading::axes_of))]
fn axes(words: &[Piece]) -> Option<RawShape>
    ensures { result ≡ axes_of words.now }
{
    match words {
        [first, level] => {
            if is(first.bytes(), b"row") {
                one_level(level.bytes())
            } else {
                None
            }
        }
        [first, second, level] => list(first.bytes(), second.bytes(), level.bytes()),
        [outer, first, above, inner, second] => match axis(outer.bytes()) {
            Some(outer) => inner_level(
                first.bytes(),
                above.bytes(),
                inner.bytes(),
                second.bytes(),
                outer,
            ),
            None => None,
        },
        _ => None,
    }
}

/// The one level of a one-dimensional array, by its word.
fn one_level(level: &[u8]) -> Option<RawShape>
    ensures { result ≡ one_of level.now }
{
    if is(level, b"dense") {
        Some(RawShape::DenseOne)
    } else if is(level, b"packed") {
        Some(RawShape::PackedOne)
    } else if is(level, b"list") {
        Some(RawShape::ListOne)
    } else {
        None
    }
}

/// `row col list`
fn list(first: &[u8], second: &[u8], level: &[u8]) -> Option<RawShape>
    ensures { result ≡ list_of first.now second.now level.now }
{
    if is(first, b"row") && is(second, b"col") && is(level, b"list") {
        Some(RawShape::ListTwo)
    } else {
        None
    }
}

/// Two levels, the outer one over this axis.
fn inner_level(
    first: &[u8],
    above: &[u8],
    inner: &[u8],
    second: &[u8],
    outer: Axis,
) -> Option<RawShape>
    ensures { result ≡ inner_of first.now above.now inner.now second.now outer }
{
    if is(above, b">") && is_inner(outer, inner) {
        two_levels(outer, first, second)
    } else {
        None
    }
}

/// Whether a word is the axis other than the outer one.
fn is_inner(outer: Axis, word: &[u8]) -> bool
    ensures { result ≡ is_inner outer word.now }
{
    match outer {
        Axis::Row => is(word, b"col"),
        Axis::Col => is(word, b"row"),
        Axis::Both => false,
    }
}

fn two_levels(outer: Axis, first: &[u8], second: &[u8]) -> Option<RawShape>
    ensures { result ≡ two_of outer first.now second.now }
{
    if is(first, b"dense") {
        under_dense(outer, second)
    } else if is(first, b"packed") {
        under_packed(outer, second)
    } else {
        None
    }
}

fn under_dense(outer: Axis, second: &[u8]) -> Option<RawShape>
    ensures { result ≡ under_dense outer second.now }
{
    if is(second, b"dense") {
        Some(RawShape::DenseDense(outer))
    } else if is(second, b"packed") {
        Some(RawShape::DensePacked(outer))
    } else {
        None
    }
}

fn under_packed(outer: Axis, second: &[u8]) -> Option<RawShape>
    ensures { result ≡ under_packed outer second.now }
{
    if is(second, b"packed") {
        Some(RawShape::PackedPacked(outer))
    } else {
        None
    }
}
