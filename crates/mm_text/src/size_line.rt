ghost use Rattle.std.specs.Prelude.{◌≡◌, ℕ, ◌<◌, ◌≤◌, true, false, IsTrue, IfOk, MatchOption};
ghost use Rattle.mm_profile.specs.Lines.{words};
ghost use Rattle.mm_profile.specs.Sizes.{number_at, are_numbers, is_general, is_square, square_head, limited_head, head_of};
ghost use Rattle.mm_text.specs.Naturals.{StandsFor};

use crate::number_words::next_natural;
use crate::numerals::{Natural, read_natural};
use crate::word_list::{next_word, one_word};
use bern_base::{MOST_ENTRIES, MOST_SIDE, Rule};
use mm_profile::{Format, Head, Kind, Symmetry};

/// The numbers of a line of two numbers.
pub(crate) fn two_numbers(line: &[u8]) -> Option<(Natural, Natural)>
    ensures { MatchOption result
        (are_numbers 2 (words line.now) ≡ false)
        (λ n. (are_numbers 2 (words line.now) ≡ true)
        × StandsFor n.0 (number_at (words line.now) 0)
        × StandsFor n.1 (number_at (words line.now) 1)) }
{
    let (first, after_first) = next_natural(line)?;
    let (second, after_second) = next_natural(after_first)?;
    if next_word(after_second).is_some() {
        return None;
    }
    Some((first, second))
}

/// The numbers of a line of three numbers.
fn three_numbers(line: &[u8]) -> Option<(Natural, Natural, Natural)>
    ensures { MatchOption result
        (are_numbers 3 (words line.now) ≡ false)
        (λ n. (are_numbers 3 (words line.now) ≡ true)
        × StandsFor n.0 (number_at (words line.now) 0)
        × StandsFor n.1 (number_at (words line.now) 1)
        × StandsFor n.2 (number_at (words line.now) 2)) }
{
    let (first, after_first) = next_natural(line)?;
    let (second, after_second) = next_natural(after_first)?;
    let third = read_natural(one_word(after_second)?)?;
    Some((first, second, third))
}

/// A number that is at most this limit.
fn within(limit: u32, number: Natural) -> Option<u32>
    ensures { (m : ℕ) → StandsFor number m →
        MatchOption result (limit < m) (λ n. (m ≡ n) × (n ≤ limit)) }
{
    match number {
        Natural::Small(n) if n <= limit as u64 => Some(n as u32),
        _ => None,
    }
}

fn is_general(symmetry: Symmetry) -> bool
    ensures { result ≡ is_general symmetry }
{
    match symmetry {
        Symmetry::General => true,
        Symmetry::Symmetric | Symmetry::Skew => false,
    }
}

fn is_square(symmetry: Symmetry, rows: u32, cols: u32) -> bool
    ensures { result ≡ is_square symmetry rows cols }
{
    is_general(symmetry) || rows == cols
}

/// Rule M5: a file with mirrored elements is square.
fn square_head(kind: Kind, rows: u32, cols: u32, stated: u32) -> Result<Head, Rule>
    ensures head { result ≡ square_head kind rows cols stated }
    ensures square { IfOk result (λ head. IsTrue (is_square head.kind.symmetry head.rows head.cols)) }
{
    if !is_square(kind.symmetry, rows, cols) {
        return Err(Rule::M5);
    }
    Ok(Head {
        kind,
        rows,
        cols,
        stated,
    })
}

/// The head with these sizes, of which the stated number is still to be compared with its limit: rule M4.
fn limited_head(kind: Kind, rows: u32, cols: u32, stated: Natural) -> Result<Head, Rule>
    requires rows { rows ≤ MOST_SIDE }
    requires cols { cols ≤ MOST_SIDE }
    ensures head { (m : ℕ) → StandsFor stated m → result ≡ limited_head kind rows cols m }
    ensures square { IfOk result (λ head. IsTrue (is_square head.kind.symmetry head.rows head.cols)) }
{
    match within(MOST_ENTRIES, stated) {
        Some(stated) => square_head(kind, rows, cols, stated),
        None => Err(Rule::M4),
    }
}

/// Rule M3: the line is three numbers. Rule M4: they are within their limits.
fn coordinate_head(kind: Kind, line: &[u8]) -> Result<Head, Rule>
    requires { kind.format ≡ Format.Coordinate }
    ensures head { result ≡ head_of kind (words line.now) }
    ensures square { IfOk result (λ head. IsTrue (is_square head.kind.symmetry head.rows head.cols)) }
{
    let Some((rows, cols, stated)) = three_numbers(line) else {
        return Err(Rule::M3);
    };
    let Some(rows) = within(MOST_SIDE, rows) else {
        return Err(Rule::M4);
    };
    let Some(cols) = within(MOST_SIDE, cols) else {
        return Err(Rule::M4);
    };
    limited_head(kind, rows, cols, stated)
}

/// Rule M3: the line is two numbers. Rule M4: they, and their product, are within their limits.
fn array_head(kind: Kind, line: &[u8]) -> Result<Head, Rule>
    requires { kind.format ≡ Format.Array }
    ensures head { result ≡ head_of kind (words line.now) }
    ensures square { IfOk result (λ head. IsTrue (is_square head.kind.symmetry head.rows head.cols)) }
{
    let Some((rows, cols)) = two_numbers(line) else {
        return Err(Rule::M3);
    };
    let Some(rows) = within(MOST_SIDE, rows) else {
        return Err(Rule::M4);
    };
    let Some(cols) = within(MOST_SIDE, cols) else {
        return Err(Rule::M4);
    };
    limited_head(kind, rows, cols, Natural::Small(rows as u64 * cols as u64))
}

/// What the size line says. Rules M3 to M5.
pub(crate) fn head_of(kind: Kind, line: &[u8]) -> Result<Head, Rule>
    ensures head { result ≡ head_of kind (words line.now) }
    ensures square { IfOk result (λ head. IsTrue (is_square head.kind.symmetry head.rows head.cols)) }
{
    match kind.format {
        Format::Coordinate => coordinate_head(kind, line),
        Format::Array => array_head(kind, line),
    }
}
