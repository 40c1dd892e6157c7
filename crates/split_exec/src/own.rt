ghost use Rattle.std.specs.Prelude.{◌≡◌, ◌≢◌, ◌+◌, ◌*◌, ◌<◌, ◌≤◌, pos, ◌≤ℤ◌, ◌<ℤ◌, true, false, IfNone, IfSome, IsTrue, length, map};
ghost use Rattle.bern_base.specs.declared.limits.TheConstants.{MOST_WEIGHT};
ghost use Rattle.bern_base.specs.Affine.{value_at};
ghost use Rattle.job_model.specs.Accepted.{IsAccepted, is_col, split_size};
ghost use Rattle.job_model.specs.Elements.{element_of};
ghost use Rattle.job_model.specs.Points.{natural};
ghost use Rattle.pass_model.specs.Interior.{is_own};
ghost use Rattle.placement.specs.Placement.{owner_of};
ghost use Rattle.split_exec.specs.Hits.{IsNamed, IsOwnNumber, OwnsWhole, split_index, spot};
ghost use Rattle.split_exec.specs.Settings.{AreSmall, IsAtRank};

use bern_base::{Affine, ArrayDecl, Axis, Checked, Items, Point, Ref};
use placement::Placement;

/// The number of an element in a rank's part of an array that is split along its rows; None where another rank owns it.
fn number_by_row<P: Placement>(
    array: &ArrayDecl,
    place: &P,
    rank: u32,
    row: u32,
    col: u32,
) -> Option<u32>
    requires side { is_col array.now.axis ≡ false }
    requires extent { length (P.triples place.now) ≡ array.now.rows }
    requires row { row < array.now.rows }
    requires col { col < array.now.cols }
    requires few { array.now.rows * array.now.cols ≤ MOST_WEIGHT }
    ensures some { IfSome result (IsOwnNumber (P.triples place.now) array.now rank row row col) }
    ensures none { IfNone result (owner_of (P.triples place.now) row ≢ rank) }
{
    let seat = place.seat(row);
    if seat.owner != rank {
        return None;
    }
    Some(seat.local * array.cols + col)
}

/// The same where the array is split along its columns.
fn number_by_col<P: Placement>(
    array: &ArrayDecl,
    place: &P,
    rank: u32,
    row: u32,
    col: u32,
) -> Option<u32>
    requires rank { rank < P.ranks place.now }
    requires side { is_col array.now.axis ≡ true }
    requires extent { length (P.triples place.now) ≡ array.now.cols }
    requires row { row < array.now.rows }
    requires col { col < array.now.cols }
    requires few { array.now.rows * array.now.cols ≤ MOST_WEIGHT }
    ensures some { IfSome result (IsOwnNumber (P.triples place.now) array.now rank col row col) }
    ensures none { IfNone result (owner_of (P.triples place.now) col ≢ rank) }
{
    let seat = place.seat(col);
    if seat.owner != rank {
        return None;
    }
    Some(row * place.owned(rank) + seat.local)
}

/// The number of an element in a rank's part of an array; None where another rank owns it.
fn local_number<P: Placement>(
    array: &ArrayDecl,
    place: &P,
    rank: u32,
    row: u32,
    col: u32,
) -> Option<u32>
    requires rank { rank < P.ranks place.now }
    requires extent { length (P.triples place.now) ≡ split_size array.now }
    requires row { row < array.now.rows }
    requires col { col < array.now.cols }
    requires few { array.now.rows * array.now.cols ≤ MOST_WEIGHT }
    ensures some { IfSome result (IsOwnNumber (P.triples place.now) array.now rank (split_index array.now row col) row col) }
    ensures none { IfNone result (owner_of (P.triples place.now) (split_index array.now row col) ≢ rank) }
{
    match array.axis {
        Axis::Col => number_by_col(array, place, rank, row, col),
        _ => number_by_row(array, place, rank, row, col),
    }
}

/// The number of an element in an array that a rank owns whole.
fn whole_number(array: &ArrayDecl, row: u32, col: u32) -> u32
    requires row { row < array.now.rows }
    requires col { col < array.now.cols }
    requires few { array.now.rows * array.now.cols ≤ MOST_WEIGHT }
    ensures { result ≡ row * array.now.cols + col }
{
    row * array.cols + col
}

/// The index that a subscript has at a point.
#[inline(always)]
fn index_at(form: &Affine, point: &Point) -> u32
    requires low { pos 0 ≤ℤ value_at form.now point.now }
    requires high { value_at form.now point.now <ℤ pos 4194305 }
    ensures { result ≡ natural (value_at form.now point.now) }
{
    form.eval(point) as u32
}

/// The number of the element that a reference names at a point, in its array: row * cols + col.
pub fn named_element(job: &Checked, reference: &Ref, point: &Point) -> u32
    requires accepted { IsAccepted job.now }
    requires small { AreSmall job.now }
    requires named { IsNamed job.now reference.now point.now }
    ensures { result ≡ element_of job.now.arrays reference.now point.now }
{
    let array = job.arrays.at(reference.array as usize);
    let row = index_at(&reference.row, point);
    whole_number(array, row, index_at(&reference.col, point))
}

/// The number of the element that a reference names at a point, in the rank's part of its array; None where another rank owns it. No
/// owner is asked for where it is known that the rank owns the array whole.
pub fn own_element<P: Placement>(
    job: &Checked,
    places: &Items<P>,
    rank: u32,
    whole: bool,
    reference: &Ref,
    point: &Point,
) -> Option<u32>
    requires at { IsAtRank job.now (map P.triples places.now) (map P.ranks places.now) rank }
    requires named { IsNamed job.now reference.now point.now }
    requires whole { IsTrue whole → OwnsWhole job.now (map P.triples places.now) rank reference.now }
    ensures own { IfSome result (λ l. is_own job.now (map P.triples places.now) rank point.now reference.now ≡ true) }
    ensures spot { IfSome result (λ l. l ≡ spot job.now (map P.triples places.now) rank point.now reference.now) }
    ensures none { IfNone result (is_own job.now (map P.triples places.now) rank point.now reference.now ≡ false) }
{
    let row = index_at(&reference.row, point);
    let col = index_at(&reference.col, point);
    own_number(job, places, rank, whole, reference, point, row, col)
}

/// The same where the element's row and column are known already.
#[inline(always)]
pub(crate) fn own_number<P: Placement>(
    job: &Checked,
    places: &Items<P>,
    rank: u32,
    whole: bool,
    reference: &Ref,
    _point: &Point,
    row: u32,
    col: u32,
) -> Option<u32>
    requires at { IsAtRank job.now (map P.triples places.now) (map P.ranks places.now) rank }
    requires named { IsNamed job.now reference.now _point.now }
    requires whole { IsTrue whole → OwnsWhole job.now (map P.triples places.now) rank reference.now }
    requires row { row ≡ natural (value_at reference.now.row _point.now) }
    requires col { col ≡ natural (value_at reference.now.col _point.now) }
    ensures own { IfSome result (λ l. is_own job.now (map P.triples places.now) rank _point.now reference.now ≡ true) }
    ensures spot { IfSome result (λ l. l ≡ spot job.now (map P.triples places.now) rank _point.now reference.now) }
    ensures none { IfNone result (is_own job.now (map P.triples places.now) rank _point.now reference.now ≡ false) }
{
    let array = job.arrays.at(reference.array as usize);
    if whole {
        return Some(whole_number(array, row, col));
    }
    let place = places.at(array.place as usize);
    local_number(array, place, rank, row, col)
}

/// Whether it is known that a rank owns all of the array that a reference names.
pub fn owns_whole<P: Placement>(
    job: &Checked,
    places: &Items<P>,
    rank: u32,
    reference: &Ref,
) -> bool
    requires at { IsAtRank job.now (map P.triples places.now) (map P.ranks places.now) rank }
    ensures { IsTrue result → OwnsWhole job.now (map P.triples places.now) rank reference.now }
{
    let Some(array) = job.arrays.get(reference.array as usize) else {
        return false;
    };
    let place = places.at(array.place as usize);
    place.owned(rank) == split_size(array)
}

/// How many indices the axis has along which an array is split.
pub fn split_size(array: &ArrayDecl) -> u32
    ensures { result ≡ split_size array.now }
{
    match array.axis {
        Axis::Col => array.cols,
        _ => array.rows,
    }
}
