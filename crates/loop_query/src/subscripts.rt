ghost use Rattle.std.specs.Prelude.{◌≡◌, ◌<◌, [], ◌∷◌, false, slice_get};
ghost use Rattle.std.specs.Option.{option_map};
ghost use Rattle.format_model.specs.Axes.{across};
ghost use Rattle.format_model.specs.Levels.{levels_of};
ghost use Rattle.term_model.specs.Plans.{has_factor, is_both};
ghost use Rattle.term_model.specs.Queries.{subscript_of};

use bern_base::{Affine, Axis, Ref, Shape};
use format_model::across;

/// Whether a variable counts for a subscript: its coefficient is not 0.
pub fn has_factor(form: &Affine, var: u32) -> bool
    requires { var < 4 }
    ensures { result ≡ has_factor form.now var }
{
    form.coefficients()[var as usize] != 0
}

/// The axis of a level of a format, none where it has no such level; of the coordinate list's one level it is both.
pub fn level_axis(shape: &Shape, level: u32) -> Option<Axis>
    ensures { result ≡ option_map (λ l. l.axis) (slice_get (levels_of shape.now) level) }
{
    match shape {
        Shape::DenseOne | Shape::PackedOne | Shape::ListOne => one_level(Axis::Row, level),
        Shape::ListTwo => one_level(Axis::Both, level),
        Shape::DenseDense(outer) | Shape::DensePacked(outer) | Shape::PackedPacked(outer) => {
            two_levels(*outer, level)
        }
        Shape::Jagged | Shape::Diagonal(_) | Shape::Permute(_) => two_levels(Axis::Row, level),
    }
}

fn one_level(axis: Axis, level: u32) -> Option<Axis>
    ensures { result ≡ slice_get (axis ∷ []) level }
{
    if level == 0 { Some(axis) } else { None }
}

/// An outer level, and the inner one across it.
fn two_levels(outer: Axis, level: u32) -> Option<Axis>
    ensures { result ≡ slice_get (outer ∷ across outer ∷ []) level }
{
    match level {
        0 => Some(outer),
        1 => Some(across(outer)),
        _ => None,
    }
}

/// The subscript of a reference in a level on one axis, `Row` or `Col`.
pub fn subscript(reference: &Ref, axis: Axis) -> &Affine
    requires { is_both axis ≡ false }
    ensures { result.now ≡ subscript_of axis reference.now }
{
    match axis {
        Axis::Col => &reference.col,
        _ => &reference.row,
    }
}
