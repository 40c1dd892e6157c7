ghost use Rattle.std.specs.Prelude.{◌≡◌, slice_get};
ghost use Rattle.std.specs.Option.{option_copied};
ghost use Rattle.job_rules.specs.State.{is_extent, is_place, is_format, is_array, number_of, shape_at};
ghost use Rattle.bern_base.specs.Shapes.{is_all_dense};
ghost use Rattle.job_model.specs.Accepted.{is_col};
ghost use Rattle.job_rules.specs.Nests.{facts_at};

use crate::names::Named;
use bern_base::{Axis, Checked};

/// What the rules of a nest ask of an array.
#[derive(Clone, Copy, Debug, PartialEq, Eq)]
pub(crate) struct Facts {
    pub(crate) dims: u32,
    pub(crate) rows: u32,
    pub(crate) cols: u32,
    pub(crate) place: u32,
    /// Whether its columns are dealt, and not its rows.
    pub(crate) by_col: bool,
    /// Whether all its levels are dense.
    pub(crate) dense: bool,
}

/// What the rules ask of the array of a number; one that is not there has no elements.
#[tactic(auto, unfolding(crate::specs::Nests::facts_at))]
pub(crate) fn array_facts(job: &Checked, array: u32) -> Facts
    ensures { result ≡ facts_at job.now array }
{
    match job.arrays.get(array as usize) {
        Some(decl) => Facts {
            dims: decl.dims,
            rows: decl.rows,
            cols: decl.cols,
            place: decl.place,
            by_col: is_col(decl.axis),
            dense: is_dense_format(job, decl.format),
        },
        None => Facts {
            dims: 0,
            rows: 0,
            cols: 0,
            place: 0,
            by_col: false,
            dense: is_dense_format(job, 0),
        },
    }
}

fn is_dense_format(job: &Checked, format: u32) -> bool
    ensures { result ≡ is_all_dense (shape_at job.now.formats format) }
{
    match job.formats.get(format as usize) {
        Some(decl) => decl.shape.is_all_dense(),
        None => true,
    }
}

pub(crate) fn is_col(axis: Axis) -> bool
    ensures { result ≡ is_col axis }
{
    match axis {
        Axis::Col => true,
        _ => false,
    }
}

pub(crate) fn is_extent(named: Option<Named>) -> bool
    ensures { result ≡ is_extent named }
{
    match named {
        Some(Named::Extent(_)) => true,
        _ => false,
    }
}

pub(crate) fn is_place(named: Option<Named>) -> bool
    ensures { result ≡ is_place named }
{
    match named {
        Some(Named::Place(_)) => true,
        _ => false,
    }
}

pub(crate) fn is_format(named: Option<Named>) -> bool
    ensures { result ≡ is_format named }
{
    match named {
        Some(Named::Format(_)) => true,
        _ => false,
    }
}

pub(crate) fn is_array(named: Option<Named>) -> bool
    ensures { result ≡ is_array named }
{
    match named {
        Some(Named::Array(_)) => true,
        _ => false,
    }
}

/// The number of the declaration that a name stands for.
pub(crate) fn number_of(named: Option<Named>) -> u32
    ensures { result ≡ number_of named }
{
    match named {
        Some(Named::Extent(number)) => number,
        Some(Named::Place(number)) => number,
        Some(Named::Format(number)) => number,
        Some(Named::Array(number)) => number,
        Some(Named::Variable(_)) | None => 0,
    }
}
