ghost use Rattle.std.specs.Prelude.{◌≡◌, ◌++◌, [], map, IfOk, OnOk, length};
ghost use Rattle.std.specs.List.{All};
ghost use Rattle.job_rules.specs.Looked.{IsReadableRef, IsReadableNest, ref_of, reads_of, product_reads, factor_reads, nest_in};

use crate::resolved::{ResolvedNest, ResolvedRef};
use crate::scope::NestScope;
use bern_base::{EXPRESSION_LEVELS, Items, NoMemory, RawExpr, RawFactor, RawNest, RawProduct};
use std::alloc::Global;

/// A nest with its names looked up.
#[tactic(auto, unfolding(crate::specs::Looked::nest_in))]
pub(crate) fn look_up(
    alloc: Global,
    scope: &NestScope<'_, '_>,
    nest: &RawNest,
) -> Result<ResolvedNest, NoMemory>
    requires { IsReadableNest nest.now }
    ensures { IfOk result (λ resolved. resolved ≡ nest_in scope.now nest.now) }
{
    let spans = scope.spans(alloc, nest.vars.as_slice())?;
    let guards = scope.guards(alloc, nest.guards.as_slice())?;
    let target = scope.reference(alloc, &nest.target)?;
    let mut reads = Items::new(alloc);
    add_reads(alloc, scope, EXPRESSION_LEVELS, &nest.body, &mut reads)?;
    Ok(ResolvedNest {
        names: scope.variables.len(),
        spans,
        guards,
        target,
        reads,
    })
}

/// Appends the references of an expression, in order.
#[cycle(reads)]
#[tactic(auto, unfolding(crate::specs::Looked::reads_of))]
fn add_reads(
    alloc: Global,
    scope: &NestScope<'_, '_>,
    levels: u32,
    expr: &RawExpr,
    reads: &mut Items<ResolvedRef>,
) -> Result<(), NoMemory>
    requires { All IsReadableRef (reads_of levels expr.now) }
    ensures { OnOk result (reads.new ≡ reads.old ++ map (ref_of scope.now) (reads_of levels expr.now)) }
{
    if levels == 0 {
        return Ok(());
    }
    for product in expr.sums.as_slice() {
        add_product_reads(alloc, scope, levels - 1, product, reads)?;
    }
    Ok(())
}

#[cycle(reads)]
fn add_product_reads(
    alloc: Global,
    scope: &NestScope<'_, '_>,
    levels: u32,
    product: &RawProduct,
    reads: &mut Items<ResolvedRef>,
) -> Result<(), NoMemory>
    requires { All IsReadableRef (product_reads (reads_of levels) product.now) }
    ensures { OnOk result (reads.new ≡ reads.old ++ map (ref_of scope.now) (product_reads (reads_of levels) product.now)) }
{
    for factor in product.factors.as_slice() {
        add_factor_reads(alloc, scope, levels, factor, reads)?;
    }
    Ok(())
}

#[cycle(reads)]
fn add_factor_reads(
    alloc: Global,
    scope: &NestScope<'_, '_>,
    levels: u32,
    factor: &RawFactor,
    reads: &mut Items<ResolvedRef>,
) -> Result<(), NoMemory>
    requires { All IsReadableRef (factor_reads (reads_of levels) factor.now) }
    ensures { OnOk result (reads.new ≡ reads.old ++ map (ref_of scope.now) (factor_reads (reads_of levels) factor.now)) }
{
    match factor {
        RawFactor::Num(_) => Ok(()),
        RawFactor::Read(reference) => reads.push(scope.reference(alloc, reference)?),
        RawFactor::Group(inner) => add_reads(alloc, scope, levels, inner, reads),
    }
}
