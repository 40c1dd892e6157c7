ghost use Rattle.std.specs.Prelude.{◌≡◌, ◌||◌, IfOk};
ghost use Rattle.std.specs.List.{list_any, list_all, enumerate_from};
ghost use Rattle.job_rules.specs.Sums.{variable_of};
ghost use Rattle.job_rules.specs.State.{is_array, number_of};
ghost use Rattle.job_rules.specs.Nests.{is_unknown, is_no_bound, is_no_count, sum_fails, span_fails, guard_fails, ref_unknown, has_unknown, ref_of_other_kind, has_other_kind, has_variable_twice, no_array, array_at, array_of, misses_subscripts, has_other_subscripts, leaves_array, leaves_box, is_dense_ref, has_sparse_target, varies_only, is_alone, is_told, is_one_to_one, same_subscripts, split_subscript, reads_target, reads_target_otherwise, is_aligned, lies_elsewhere, reads_elsewhere, is_far, guard_is_wide, ref_is_wide, is_too_wide};

use crate::items::{Item, Meaning};
use crate::names::Named;
use crate::ranges::{Range, Ranges};
use crate::resolved::{ResolvedGuard, ResolvedNest, ResolvedRef, ResolvedSpan};
use crate::sums::{Sum, variable};
use crate::tables::{Facts, array_facts, is_array, number_of};
use bern_base::{Checked, MOST_BOUND, MOST_GUARDS, MOST_VARIABLES, NoMemory};
use std::alloc::Global;

/// J4: whether a name is not known.
#[tactic(auto, unfolding(crate::specs::Nests::has_unknown))]
pub(crate) fn has_unknown(nest: &ResolvedNest) -> bool
    ensures { result ≡ has_unknown nest.now }
{
    spans_unknown(nest.spans.as_slice())
        || guards_unknown(nest.guards.as_slice())
        || ref_unknown(&nest.target)
        || refs_unknown(nest.reads.as_slice())
}

fn spans_unknown(spans: &[ResolvedSpan]) -> bool
    ensures { result ≡ list_any (span_fails is_unknown) spans.now }
{
    spans
        .iter()
        .any(|span| sum_unknown(&span.lo) || sum_unknown(&span.hi))
}

fn guards_unknown(guards: &[ResolvedGuard]) -> bool
    ensures { result ≡ list_any (guard_fails is_unknown) guards.now }
{
    guards.iter().any(|guard| sum_unknown(&guard.left) || sum_unknown(&guard.right))
}

fn refs_unknown(refs: &[ResolvedRef]) -> bool
    ensures { result ≡ list_any ref_unknown refs.now }
{
    refs.iter().any(ref_unknown)
}

fn ref_unknown(reference: &ResolvedRef) -> bool
    ensures { result ≡ ref_unknown reference.now }
{
    reference.array.is_none() || sum_unknown(&reference.row) || sum_unknown(&reference.col)
}

#[tactic(auto, unfolding(crate::specs::Nests::sum_fails))]
fn sum_unknown(sum: &Sum) -> bool
    ensures { result ≡ sum_fails is_unknown sum.now }
{
    sum.items().iter().any(|item| is_unknown(item.meaning))
}

fn is_unknown(meaning: Meaning) -> bool
    ensures { result ≡ is_unknown meaning }
{
    match meaning {
        Meaning::Unknown => true,
        _ => false,
    }
}

/// J5: whether a name is of another kind than its place needs.
#[tactic(auto, unfolding(crate::specs::Nests::has_other_kind))]
pub(crate) fn has_other_kind(nest: &ResolvedNest) -> bool
    ensures { result ≡ has_other_kind nest.now }
{
    spans_of_other_kind(nest.spans.as_slice())
        || guards_of_other_kind(nest.guards.as_slice())
        || ref_of_other_kind(&nest.target)
        || refs_of_other_kind(nest.reads.as_slice())
}

fn spans_of_other_kind(spans: &[ResolvedSpan]) -> bool
    ensures { result ≡ list_any (span_fails is_no_bound) spans.now }
{
    spans
        .iter()
        .any(|span| has_no_bound(&span.lo) || has_no_bound(&span.hi))
}

fn guards_of_other_kind(guards: &[ResolvedGuard]) -> bool
    ensures { result ≡ list_any (guard_fails is_no_count) guards.now }
{
    guards.iter().any(|guard| has_no_count(&guard.left) || has_no_count(&guard.right))
}

fn refs_of_other_kind(refs: &[ResolvedRef]) -> bool
    ensures { result ≡ list_any ref_of_other_kind refs.now }
{
    refs.iter().any(ref_of_other_kind)
}

fn ref_of_other_kind(reference: &ResolvedRef) -> bool
    ensures { result ≡ ref_of_other_kind reference.now }
{
    !is_array(reference.array) || has_no_count(&reference.row) || has_no_count(&reference.col)
}

#[tactic(auto, unfolding(crate::specs::Nests::sum_fails))]
fn has_no_bound(sum: &Sum) -> bool
    ensures { result ≡ sum_fails is_no_bound sum.now }
{
    sum.items().iter().any(|item| is_no_bound(item.meaning))
}

fn is_no_bound(meaning: Meaning) -> bool
    ensures { result ≡ is_no_bound meaning }
{
    match meaning {
        Meaning::Number | Meaning::Name(Named::Extent(_)) => false,
        _ => true,
    }
}

#[tactic(auto, unfolding(crate::specs::Nests::sum_fails))]
fn has_no_count(sum: &Sum) -> bool
    ensures { result ≡ sum_fails is_no_count sum.now }
{
    sum.items().iter().any(|item| is_no_count(item.meaning))
}

fn is_no_count(meaning: Meaning) -> bool
    ensures { result ≡ is_no_count meaning }
{
    match meaning {
        Meaning::Number | Meaning::Name(Named::Extent(_) | Named::Variable(_)) => false,
        _ => true,
    }
}

/// J8: whether a variable stands twice.
#[tactic(auto, unfolding(crate::specs::Nests::has_variable_twice))]
pub(crate) fn has_variable_twice(nest: &ResolvedNest) -> bool
    ensures { result ≡ has_variable_twice nest.now }
{
    nest.names < nest.spans.len()
}

/// J9: whether a reference has another number of subscripts than its array has dimensions.
#[tactic(auto, unfolding(crate::specs::Nests::has_other_subscripts))]
pub(crate) fn has_other_subscripts(job: &Checked, nest: &ResolvedNest) -> bool
    ensures { result ≡ has_other_subscripts job.now nest.now }
{
    misses_subscripts(job, &nest.target) || some_misses_subscripts(job, nest.reads.as_slice())
}

fn some_misses_subscripts(job: &Checked, refs: &[ResolvedRef]) -> bool
    ensures { result ≡ list_any (misses_subscripts job.now) refs.now }
{
    refs.iter()
        .any(|reference| misses_subscripts(job, reference))
}

fn misses_subscripts(job: &Checked, reference: &ResolvedRef) -> bool
    ensures { result ≡ misses_subscripts job.now reference.now }
{
    reference.subs != array_of(job, reference).dims as usize
}

fn array_of(job: &Checked, reference: &ResolvedRef) -> Facts
    ensures { result ≡ array_of job.now reference.now }
{
    array_facts(job, number_of(reference.array))
}

/// J10: whether a subscript leaves its extent at some point of the box.
#[tactic(auto, unfolding(crate::specs::Nests::leaves_box))]
pub(crate) fn leaves_box(
    alloc: Global,
    job: &Checked,
    ranges: &Ranges,
    nest: &ResolvedNest,
) -> Result<bool, NoMemory>
    ensures { IfOk result (λ leaves. leaves ≡ leaves_box job.now ranges.now nest.now) }
{
    if ranges.is_empty() {
        return Ok(false);
    }
    if leaves_array(alloc, job, ranges, &nest.target)? {
        return Ok(true);
    }
    some_leaves_array(alloc, job, ranges, nest.reads.as_slice())
}

fn some_leaves_array(
    alloc: Global,
    job: &Checked,
    ranges: &Ranges,
    refs: &[ResolvedRef],
) -> Result<bool, NoMemory>
    ensures { IfOk result (λ leaves. leaves ≡ list_any (leaves_array job.now ranges.now) refs.now) }
{
    for reference in refs {
        if leaves_array(alloc, job, ranges, reference)? {
            return Ok(true);
        }
    }
    Ok(false)
}

fn leaves_array(
    alloc: Global,
    job: &Checked,
    ranges: &Ranges,
    reference: &ResolvedRef,
) -> Result<bool, NoMemory>
    ensures { IfOk result (λ leaves. leaves ≡ leaves_array job.now ranges.now reference.now) }
{
    let array = array_of(job, reference);
    if ranges.leaves_extent(alloc, array.rows, &reference.row)? {
        return Ok(true);
    }
    ranges.leaves_extent(alloc, array.cols, &reference.col)
}

/// J11: whether the target is not of an all-dense format.
#[tactic(auto, unfolding(crate::specs::Nests::has_sparse_target))]
pub(crate) fn has_sparse_target(job: &Checked, nest: &ResolvedNest) -> bool
    ensures { result ≡ has_sparse_target job.now nest.now }
{
    !array_of(job, &nest.target).dense
}

/// J12 and J13 rest on it: whether no two points of the box have one target.
#[tactic(auto, unfolding(crate::specs::Nests::is_one_to_one))]
pub(crate) fn is_one_to_one(ranges: &Ranges, nest: &ResolvedNest) -> bool
    ensures { result ≡ is_one_to_one ranges.now nest.now }
{
    ranges.is_empty() || are_told(ranges, &nest.target)
}

fn are_told(ranges: &Ranges, target: &ResolvedRef) -> bool
    ensures { result ≡ list_all (λ entry. is_told ranges.now target.now entry.0) (enumerate_from 0 ranges.now) }
{
    ranges
        .as_slice()
        .iter()
        .enumerate()
        .all(|entry| is_told(ranges, target, entry.0))
}

fn is_told(ranges: &Ranges, target: &ResolvedRef, variable: usize) -> bool
    ensures { result ≡ is_told ranges.now target.now variable }
{
    !ranges.is_many(variable)
        || is_alone(ranges, variable, &target.row)
        || is_alone(ranges, variable, &target.col)
}

/// Whether a variable is the only one that moves the subscript, of those with two values or more.
#[tactic(auto, unfolding(crate::specs::Nests::is_alone))]
fn is_alone(ranges: &Ranges, variable: usize, sum: &Sum) -> bool
    ensures { result ≡ is_alone ranges.now variable sum.now }
{
    sum.coefficient(variable) != 0 && all_vary_only(ranges, sum, variable, sum.items())
}

fn all_vary_only(ranges: &Ranges, sum: &Sum, variable: usize, items: &[Item]) -> bool
    ensures { result ≡ list_all (varies_only ranges.now sum.now variable) items.now }
{
    items
        .iter()
        .all(|item| varies_only(ranges, sum, variable, item))
}

fn varies_only(ranges: &Ranges, sum: &Sum, only: usize, item: &Item) -> bool
    ensures { result ≡ varies_only ranges.now sum.now only item.now }
{
    match variable(item) {
        Some(other) => other == only || !ranges.is_many(other) || sum.coefficient(other) == 0,
        None => true,
    }
}

/// J12: whether the target's array is read otherwise than at the target, or at all where points share a target.
#[tactic(auto, unfolding(crate::specs::Nests::reads_target_otherwise))]
pub(crate) fn reads_target_otherwise(one_to_one: bool, nest: &ResolvedNest) -> bool
    ensures { result ≡ reads_target_otherwise one_to_one nest.now }
{
    nest.reads
        .as_slice()
        .iter()
        .any(|reference| reads_target(one_to_one, nest, reference))
}

fn reads_target(one_to_one: bool, nest: &ResolvedNest, reference: &ResolvedRef) -> bool
    ensures { result ≡ reads_target one_to_one nest.now reference.now }
{
    number_of(reference.array) == number_of(nest.target.array)
        && (!one_to_one || !same_subscripts(reference, &nest.target))
}

fn same_subscripts(a: &ResolvedRef, b: &ResolvedRef) -> bool
    ensures { result ≡ same_subscripts a.now b.now }
{
    a.row.same_form(&b.row) && a.col.same_form(&b.col)
}

/// J14: whether a reference to a sparse array lies elsewhere than the target.
#[tactic(auto, unfolding(crate::specs::Nests::reads_elsewhere))]
pub(crate) fn reads_elsewhere(job: &Checked, nest: &ResolvedNest) -> bool
    ensures { result ≡ reads_elsewhere job.now nest.now }
{
    nest.reads
        .as_slice()
        .iter()
        .any(|reference| lies_elsewhere(job, &nest.target, reference))
}

fn lies_elsewhere(job: &Checked, target: &ResolvedRef, reference: &ResolvedRef) -> bool
    ensures { result ≡ lies_elsewhere job.now target.now reference.now }
{
    !array_of(job, reference).dense && !is_aligned(job, target, reference)
}

fn is_aligned(job: &Checked, target: &ResolvedRef, reference: &ResolvedRef) -> bool
    ensures { result ≡ is_aligned job.now target.now reference.now }
{
    array_of(job, reference).place == array_of(job, target).place
        && split_subscript(job, reference).same_form(split_subscript(job, target))
}

/// The subscript on the axis by which the array is dealt.
fn split_subscript<'a>(job: &Checked, reference: &'a ResolvedRef) -> &'a Sum
    ensures { result.now ≡ split_subscript job.now reference.now }
{
    if array_of(job, reference).by_col {
        &reference.col
    } else {
        &reference.row
    }
}

/// J15, but for the terms: whether the nest has too many variables or guards, or a bound, coefficient or constant that is
/// too large.
#[tactic(auto, unfolding(crate::specs::Nests::is_too_wide))]
pub(crate) fn is_too_wide(ranges: &Ranges, nest: &ResolvedNest) -> bool
    ensures { result ≡ is_too_wide ranges.now nest.now }
{
    nest.spans.len() > MOST_VARIABLES
        || nest.guards.len() > MOST_GUARDS
        || some_far(ranges.as_slice())
        || some_guard_is_wide(nest.guards.as_slice())
        || ref_is_wide(&nest.target)
        || some_ref_is_wide(nest.reads.as_slice())
}

fn some_far(ranges: &[Range]) -> bool
    ensures { result ≡ list_any is_far ranges.now }
{
    ranges.iter().any(|range| range.lo.unsigned_abs() > MOST_BOUND as u128
        || range.hi.unsigned_abs() > MOST_BOUND as u128)
}

fn some_guard_is_wide(guards: &[ResolvedGuard]) -> bool
    ensures { result ≡ list_any guard_is_wide guards.now }
{
    guards.iter().any(|guard| !guard.left.is_within() || !guard.right.is_within())
}

fn some_ref_is_wide(refs: &[ResolvedRef]) -> bool
    ensures { result ≡ list_any ref_is_wide refs.now }
{
    refs.iter().any(ref_is_wide)
}

fn ref_is_wide(reference: &ResolvedRef) -> bool
    ensures { result ≡ ref_is_wide reference.now }
{
    !reference.row.is_within() || !reference.col.is_within()
}
