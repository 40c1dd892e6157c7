ghost use Rattle.std.specs.Prelude.{◌≡◌, ℕ, ◌-◌, ◌<◌, true, false, IsTrue, IfOk, IfSome, MatchOption, MatchResult};
ghost use Rattle.mm_profile.specs.Lines.{words, word_at};
ghost use Rattle.mm_profile.specs.Numbers.{Whole, integer};
ghost use Rattle.mm_profile.specs.Sizes.{number_at, is_square};
ghost use Rattle.mm_profile.specs.Places.{Place, Stated, At};
ghost use Rattle.mm_profile.specs.Entries.{mirrored, is_skew, counted_of, valued, is_index, placed, is_stated_line, is_listed_line, entry_of};
ghost use Rattle.mm_text.specs.Naturals.{StandsFor, IsNumber};
ghost use Rattle.mm_text.specs.Counts.{counted_list, listed, are_inside};
ghost use Rattle.mm_text.specs.Cursor.{is_due, CountsNext, RefusesNext};

use crate::due::{Due, due_after};
use crate::number_words::next_natural;
use crate::numerals::{Natural, Number, read_integer};
use crate::size_line::two_numbers;
use crate::word_list::one_word;
use bern_base::{Entry, Rule, Val};
use mm_profile::{Field, Head, Symmetry};

/// What an entry line counts for: its element alone, or the mirrored one too.
#[derive(Clone, Copy)]
pub(crate) enum Counted {
    One(Entry),
    Two(Entry, Entry),
}

/// What counts off the diagonal, where `other` is the mirrored value, and on it.
fn mirrored(row: u32, col: u32, value: Val, other: Val) -> Counted
    ensures { counted_list result ≡ mirrored row col value other }
{
    let entry = Entry { row, col, value };
    if row == col {
        return Counted::One(entry);
    }
    Counted::Two(
        entry,
        Entry {
            row: col,
            col: row,
            value: other,
        },
    )
}

/// All that counts because of an entry.
fn counted_of(symmetry: Symmetry, row: u32, col: u32, value: Val) -> Counted
    ensures { counted_list result ≡ counted_of symmetry row col value }
{
    match symmetry {
        Symmetry::General => Counted::One(Entry { row, col, value }),
        Symmetry::Symmetric => mirrored(row, col, value, value),
        Symmetry::Skew => mirrored(row, col, value, value.neg()),
    }
}

fn is_skew(symmetry: Symmetry) -> bool
    ensures { result ≡ is_skew symmetry }
{
    match symmetry {
        Symmetry::General | Symmetry::Symmetric => false,
        Symmetry::Skew => true,
    }
}

/// What an entry counts for, once its place and its value are known. Rule M8: the value is within its range.
/// Rule M9: on the diagonal of a skew-symmetric file it is 0.
pub(crate) fn valued(head: &Head, row: u32, col: u32, number: Number) -> Result<Counted, Rule>
    requires row { row < head.now.rows }
    requires col { col < head.now.cols }
    requires square { IsTrue (is_square head.now.kind.symmetry head.now.rows head.now.cols) }
    ensures entry { (n : Whole) → IsNumber number n → listed result ≡ valued head.now row col n }
    ensures inside { IfOk result (λ c. IsTrue (are_inside head.now.rows head.now.cols (counted_list c))) }
{
    let Number::Inside(value) = number else {
        return Err(Rule::M8);
    };
    let bits = value.bits();
    if is_skew(head.kind.symmetry) && row == col && bits != 0 {
        return Err(Rule::M9);
    }
    Ok(counted_of(head.kind.symmetry, row, col, value))
}

/// An index from 1 to its size, counted from 0.
fn index_of(size: u32, index: Natural) -> Option<u32>
    ensures index { (m : ℕ) → StandsFor index m → MatchOption result
        (is_index size m ≡ false)
        (λ i. (is_index size m ≡ true) × (i ≡ m - 1)) }
    ensures below { IfSome result (λ i. i < size) }
{
    match index {
        Natural::Small(i) if i > 0 && i <= size as u64 => Some((i - 1) as u32),
        _ => None,
    }
}

/// What an entry counts for whose indices are still to be tried. Rule M7: both lie in the matrix.
pub(crate) fn placed(
    head: &Head,
    row: Natural,
    col: Natural,
    number: Number,
) -> Result<Counted, Rule>
    requires square { IsTrue (is_square head.now.kind.symmetry head.now.rows head.now.cols) }
    ensures entry { (i j : ℕ) (n : Whole) → StandsFor row i → StandsFor col j → IsNumber number n →
        listed result ≡ placed head.now i j n }
    ensures inside { IfOk result (λ c. IsTrue (are_inside head.now.rows head.now.cols (counted_list c))) }
{
    let Some(row) = index_of(head.rows, row) else {
        return Err(Rule::M7);
    };
    let Some(col) = index_of(head.cols, col) else {
        return Err(Rule::M7);
    };
    valued(head, row, col, number)
}

/// The row, the column and the value of a line that names all three.
fn place_and_value(line: &[u8]) -> Option<(Natural, Natural, Number)>
    ensures { MatchOption result
        (is_stated_line Field.Integer (words line.now) ≡ false)
        (λ n. (is_stated_line Field.Integer (words line.now) ≡ true)
        × StandsFor n.0 (number_at (words line.now) 0)
        × StandsFor n.1 (number_at (words line.now) 1)
        × IsNumber n.2 (integer (word_at (words line.now) 2))) }
{
    let (row, after_row) = next_natural(line)?;
    let (col, after_col) = next_natural(after_row)?;
    let value = read_integer(one_word(after_col)?)?;
    Some((row, col, value))
}

/// What a line counts for that names its place. Rule M6: it is a row, a column and a value, or a row and a column.
fn stated_entry(head: &Head, line: &[u8]) -> Result<Counted, Rule>
    requires square { IsTrue (is_square head.now.kind.symmetry head.now.rows head.now.cols) }
    ensures entry { listed result ≡ entry_of head.now Stated (words line.now) }
    ensures inside { IfOk result (λ c. IsTrue (are_inside head.now.rows head.now.cols (counted_list c))) }
{
    match head.kind.field {
        Field::Integer => {
            let Some((row, col, value)) = place_and_value(line) else {
                return Err(Rule::M6);
            };
            placed(head, row, col, value)
        }
        Field::Pattern => {
            let Some((row, col)) = two_numbers(line) else {
                return Err(Rule::M6);
            };
            placed(head, row, col, Number::Inside(Val::new(1)))
        }
    }
}

/// The value of a line that is one value. Most lines have no blank, and those are looked at once.
fn one_value(line: &[u8]) -> Option<Number>
    ensures { MatchOption result
        (is_listed_line (words line.now) ≡ false)
        (λ n. (is_listed_line (words line.now) ≡ true) × IsNumber n (integer (word_at (words line.now) 0))) }
{
    match read_integer(line) {
        Some(value) => Some(value),
        None => read_integer(one_word(line)?),
    }
}

/// What a line counts for that comes for this place. Rule M6: it is one value.
fn listed_entry(head: &Head, row: u32, col: u32, line: &[u8]) -> Result<Counted, Rule>
    requires row { row < head.now.rows }
    requires col { col < head.now.cols }
    requires square { IsTrue (is_square head.now.kind.symmetry head.now.rows head.now.cols) }
    ensures entry { listed result ≡ entry_of head.now (At row col) (words line.now) }
    ensures inside { IfOk result (λ c. IsTrue (are_inside head.now.rows head.now.cols (counted_list c))) }
{
    let Some(value) = one_value(line) else {
        return Err(Rule::M6);
    };
    valued(head, row, col, value)
}

/// What a line counts for that comes for this place, and the places that are due after it.
fn next_listed(head: &Head, row: u32, col: u32, line: &[u8]) -> Result<(Counted, Due), Rule>
    requires row { row < head.now.rows }
    requires col { col < head.now.cols }
    requires square { IsTrue (is_square head.now.kind.symmetry head.now.rows head.now.cols) }
    ensures entry { MatchResult result
        (λ next. CountsNext head.now (Due.Listed row col) line.now next.0 next.1)
        (RefusesNext head.now (Due.Listed row col) line.now) }
    ensures within { IfOk result (λ next. IsTrue (is_due head.now next.1)) }
    ensures inside { IfOk result (λ next. IsTrue (are_inside head.now.rows head.now.cols (counted_list next.0))) }
{
    match listed_entry(head, row, col, line) {
        Ok(counted) => Ok((counted, due_after(head, row, col))),
        Err(rule) => Err(rule),
    }
}

/// What the next entry line counts for, and the places that are due after it. Rule M11: a line is due.
pub(crate) fn next_entry(head: &Head, due: Due, line: &[u8]) -> Result<(Counted, Due), Rule>
    requires square { IsTrue (is_square head.now.kind.symmetry head.now.rows head.now.cols) }
    requires within { IsTrue (is_due head.now due) }
    ensures entry { MatchResult result
        (λ next. CountsNext head.now due line.now next.0 next.1)
        (RefusesNext head.now due line.now) }
    ensures within { IfOk result (λ next. IsTrue (is_due head.now next.1)) }
    ensures inside { IfOk result (λ next. IsTrue (are_inside head.now.rows head.now.cols (counted_list next.0))) }
{
    match due {
        Due::Lines(0) => Err(Rule::M11),
        Due::Lines(count) => match stated_entry(head, line) {
            Ok(counted) => Ok((counted, Due::Lines(count - 1))),
            Err(rule) => Err(rule),
        },
        Due::Listed { row, col } => next_listed(head, row, col, line),
    }
}
