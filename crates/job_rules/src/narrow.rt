ghost use Rattle.std.specs.Prelude.{◌≡◌, ◌≤◌, ◌*◌, true, IfOk, map, unsigned_abs, ◌-ℤ◌};
ghost use Rattle.std.specs.List.{All};
ghost use Rattle.job_rules.specs.Sums.{is_within, constant_of, coefficient_of};
ghost use Rattle.job_rules.specs.Looked.{IsReadable, IsReadableRef};
ghost use Rattle.job_rules.specs.After.{narrow_of, narrow_difference, narrow_ref, checked_ref, checked_guard, checked_span, IsNear};

use crate::resolved::ResolvedRef;
use crate::scope::NestScope;
use crate::sums::Sum;
use crate::tables::number_of;
use bern_base::{
    Affine, Guard, Items, MOST_BOUND, MOST_COEFFICIENT, MOST_CONSTANT, NoMemory, RawGuard, RawRef,
    RawVar, Ref, Span, Text,
};
use std::alloc::Global;

/// The affine form of a sum that is within its limits.
#[tactic(auto, unfolding(crate::specs::After::narrow_of))]
pub(crate) fn narrow(sum: &Sum) -> Affine
    ensures { result ≡ narrow_of sum.now }
{
    if !sum.is_within() {
        return Affine::new(0, [0, 0, 0, 0]);
    }
    Affine::new(
        narrow_constant(sum),
        [
            narrow_coefficient(sum, 0),
            narrow_coefficient(sum, 1),
            narrow_coefficient(sum, 2),
            narrow_coefficient(sum, 3),
        ],
    )
}

fn narrow_constant(sum: &Sum) -> i64
    requires { is_within sum.now ≡ true }
    ensures value { result ≡ constant_of sum.now }
    ensures small { unsigned_abs result ≤ MOST_CONSTANT }
{
    small_cast(sum.constant(), MOST_CONSTANT)
}

fn narrow_coefficient(sum: &Sum, variable: usize) -> i64
    requires { is_within sum.now ≡ true }
    ensures value { result ≡ coefficient_of variable sum.now }
    ensures small { unsigned_abs result ≤ MOST_COEFFICIENT }
{
    small_cast(sum.coefficient(variable), MOST_COEFFICIENT)
}

fn small_cast(number: i128, limit: u32) -> i64
    requires { unsigned_abs number ≤ limit }
    ensures value { result ≡ number }
    ensures small { unsigned_abs result ≤ limit }
{
    number as i64
}

/// A reference with its array's number and its affine forms.
#[tactic(auto, unfolding(crate::specs::After::checked_ref, crate::specs::After::narrow_ref))]
pub(crate) fn checked_ref(
    alloc: Global,
    scope: &NestScope<'_, '_>,
    reference: &RawRef,
) -> Result<Ref, NoMemory>
    requires { IsReadableRef reference.now }
    ensures { IfOk result (λ checked. checked ≡ checked_ref scope.now reference.now) }
{
    let resolved = scope.reference(alloc, reference)?;
    Ok(narrow_ref(&resolved))
}

#[tactic(auto, unfolding(crate::specs::After::narrow_ref))]
fn narrow_ref(reference: &ResolvedRef) -> Ref
    ensures { result ≡ narrow_ref reference.now }
{
    Ref {
        array: number_of(reference.array),
        row: narrow(&reference.row),
        col: narrow(&reference.col),
    }
}

/// The bounds of a variable as numbers.
#[tactic(auto, unfolding(crate::specs::After::checked_span))]
fn checked_span(alloc: Global, scope: &NestScope<'_, '_>, var: &RawVar) -> Result<Span, NoMemory>
    requires readable { IsReadable var.now.lo × IsReadable var.now.hi }
    requires near { IsNear scope.now var.now }
    ensures { IfOk result (λ span. span ≡ checked_span scope.now var.now) }
{
    let name = Text::from_bytes(alloc, var.name.as_bytes())?;
    let lo = scope.sum(alloc, &var.lo)?;
    let hi = scope.sum(alloc, &var.hi)?;
    Ok(Span {
        name,
        lo: small_cast(lo.constant(), MOST_BOUND),
        hi: small_cast(hi.constant(), MOST_BOUND),
    })
}

/// The variables of a nest with their bounds as numbers.
pub(crate) fn checked_spans(
    alloc: Global,
    scope: &NestScope<'_, '_>,
    vars: &[RawVar],
) -> Result<Items<Span>, NoMemory>
    requires readable { All (λ var. IsReadable var.lo × IsReadable var.hi) vars.now }
    requires near { All (IsNear scope.now) vars.now }
    ensures { IfOk result (λ spans. spans ≡ map (checked_span scope.now) vars.now) }
{
    let mut spans = Items::from_vec(Vec::with_capacity(alloc, vars.len())?);
    for var in vars {
        spans.push(checked_span(alloc, scope, var)?)?;
    }
    Ok(spans)
}

/// The guards of a nest as forms.
pub(crate) fn checked_guards(
    alloc: Global,
    scope: &NestScope<'_, '_>,
    guards: &[RawGuard],
) -> Result<Items<Guard>, NoMemory>
    requires { All (λ guard. IsReadable guard.left × IsReadable guard.right) guards.now }
    ensures { IfOk result (λ checked. checked ≡ map (checked_guard scope.now) guards.now) }
{
    let mut checked = Items::from_vec(Vec::with_capacity(alloc, guards.len())?);
    for guard in guards {
        checked.push(checked_guard(alloc, scope, guard)?)?;
    }
    Ok(checked)
}

#[tactic(auto, unfolding(crate::specs::After::checked_guard))]
fn checked_guard(
    alloc: Global,
    scope: &NestScope<'_, '_>,
    guard: &RawGuard,
) -> Result<Guard, NoMemory>
    requires { IsReadable guard.now.left × IsReadable guard.now.right }
    ensures { IfOk result (λ checked. checked ≡ checked_guard scope.now guard.now) }
{
    let left = scope.sum(alloc, &guard.left)?;
    let right = scope.sum(alloc, &guard.right)?;
    Ok(Guard {
        left: difference(&left, &right),
        rel: guard.rel,
    })
}

/// The left side minus the right side, where both are within their limits.
#[tactic(auto, unfolding(crate::specs::After::narrow_difference))]
fn difference(left: &Sum, right: &Sum) -> Affine
    ensures { result ≡ narrow_difference left.now right.now }
{
    if !left.is_within() {
        return Affine::new(0, [0, 0, 0, 0]);
    }
    if !right.is_within() {
        return Affine::new(0, [0, 0, 0, 0]);
    }
    Affine::new(
        constant_difference(left, right),
        [
            coefficient_difference(left, right, 0),
            coefficient_difference(left, right, 1),
            coefficient_difference(left, right, 2),
            coefficient_difference(left, right, 3),
        ],
    )
}

fn constant_difference(left: &Sum, right: &Sum) -> i64
    requires left { is_within left.now ≡ true }
    requires right { is_within right.now ≡ true }
    ensures value { result ≡ constant_of left.now -ℤ constant_of right.now }
    ensures small { unsigned_abs result ≤ 2 * MOST_CONSTANT }
{
    narrow_constant(left) - narrow_constant(right)
}

fn coefficient_difference(left: &Sum, right: &Sum, variable: usize) -> i64
    requires left { is_within left.now ≡ true }
    requires right { is_within right.now ≡ true }
    ensures value { result ≡ coefficient_of variable left.now -ℤ coefficient_of variable right.now }
    ensures small { unsigned_abs result ≤ 2 * MOST_COEFFICIENT }
{
    narrow_coefficient(left, variable) - narrow_coefficient(right, variable)
}
