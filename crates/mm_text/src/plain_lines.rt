ghost use Rattle.std.specs.Prelude.{◌<◌, IsTrue, IfSome};
ghost use Rattle.mm_profile.specs.Sizes.{is_square};
ghost use Rattle.mm_profile.specs.Places.{Stated, At};
ghost use Rattle.mm_text.specs.Counts.{counted_list, are_inside};
ghost use Rattle.mm_text.specs.Cursor.{is_due};
ghost use Rattle.mm_text.specs.Fronts.{BeginsWithLine};
ghost use Rattle.mm_text.specs.PlainLines.{SaysTriple, SaysPair, SaysValue, SaysEntry, SaysNext};

use crate::due::{Due, due_after};
use crate::entry_line::{Counted, placed, valued};
use crate::fronts::{after_blank, after_end, integer, short_natural};
use crate::numerals::{Natural, Number};
use bern_base::Val;
use mm_profile::{Field, Head};

/// The row, the column and the value of a line that names all three, with one blank after each index and no other.
fn triple(piece: &[u8]) -> Option<(Natural, Natural, Number, &[u8])>
    ensures { IfSome result (λ n. BeginsWithLine piece.now n.3.now (SaysTriple n.0 n.1 n.2)) }
{
    let (row, after_row) = short_natural(piece)?;
    let col_on = after_blank(after_row)?;
    let (col, after_col) = short_natural(col_on)?;
    let value_on = after_blank(after_col)?;
    let Some((value, after_value)) = integer(value_on) else {
        return None;
    };
    let rest = after_end(after_value)?;
    Some((row, col, value, rest))
}

/// The row and the column of a line that names both, with one blank between them and no other.
fn pair(piece: &[u8]) -> Option<(Natural, Natural, &[u8])>
    ensures { IfSome result (λ n. BeginsWithLine piece.now n.2.now (SaysPair n.0 n.1)) }
{
    let (row, after_row) = short_natural(piece)?;
    let col_on = after_blank(after_row)?;
    let (col, after_col) = short_natural(col_on)?;
    let rest = after_end(after_col)?;
    Some((row, col, rest))
}

/// The value of a line that is one value.
fn value(piece: &[u8]) -> Option<(Number, &[u8])>
    ensures { IfSome result (λ n. BeginsWithLine piece.now n.1.now (SaysValue n.0)) }
{
    let Some((value, after_value)) = integer(piece) else {
        return None;
    };
    let rest = after_end(after_value)?;
    Some((value, rest))
}

/// What a line counts for that names its place.
fn stated<'a>(head: &Head, piece: &'a [u8]) -> Option<(Counted, &'a [u8])>
    requires square { IsTrue (is_square head.now.kind.symmetry head.now.rows head.now.cols) }
    ensures entry { IfSome result (λ c. BeginsWithLine piece.now c.1.now (SaysEntry head.now Stated c.0)) }
    ensures inside { IfSome result (λ c. IsTrue (are_inside head.now.rows head.now.cols (counted_list c.0))) }
{
    match head.kind.field {
        Field::Integer => {
            let Some((row, col, value, rest)) = triple(piece) else {
                return None;
            };
            let counted = placed(head, row, col, value).ok()?;
            Some((counted, rest))
        }
        Field::Pattern => {
            let (row, col, rest) = pair(piece)?;
            let counted = placed(head, row, col, Number::Inside(Val::new(1))).ok()?;
            Some((counted, rest))
        }
    }
}

/// What a line counts for that comes for this place.
fn listed<'a>(head: &Head, row: u32, col: u32, piece: &'a [u8]) -> Option<(Counted, &'a [u8])>
    requires row { row < head.now.rows }
    requires col { col < head.now.cols }
    requires square { IsTrue (is_square head.now.kind.symmetry head.now.rows head.now.cols) }
    ensures entry { IfSome result (λ c. BeginsWithLine piece.now c.1.now (SaysEntry head.now (At row col) c.0)) }
    ensures inside { IfSome result (λ c. IsTrue (are_inside head.now.rows head.now.cols (counted_list c.0))) }
{
    let Some((value, rest)) = value(piece) else {
        return None;
    };
    let counted = valued(head, row, col, value).ok()?;
    Some((counted, rest))
}

/// What the plain entry line at the start of a piece counts for, the places that are due after it, and what stands after it. None says nothing.
pub(crate) fn next_plain<'a>(
    head: &Head,
    due: Due,
    piece: &'a [u8],
) -> Option<(Counted, Due, &'a [u8])>
    requires square { IsTrue (is_square head.now.kind.symmetry head.now.rows head.now.cols) }
    requires within { IsTrue (is_due head.now due) }
    ensures entry { IfSome result (λ next. BeginsWithLine piece.now next.2.now (SaysNext head.now due next.0 next.1)) }
    ensures within { IfSome result (λ next. IsTrue (is_due head.now next.1)) }
    ensures inside { IfSome result (λ next. IsTrue (are_inside head.now.rows head.now.cols (counted_list next.0))) }
{
    match due {
        Due::Lines(0) => None,
        Due::Lines(count) => {
            let Some((counted, rest)) = stated(head, piece) else {
                return None;
            };
            Some((counted, Due::Lines(count - 1), rest))
        }
        Due::Listed { row, col } => {
            let Some((counted, rest)) = listed(head, row, col, piece) else {
                return None;
            };
            Some((counted, due_after(head, row, col), rest))
        }
    }
}
