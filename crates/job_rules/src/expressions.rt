ghost use Rattle.std.specs.Prelude.{◌≡◌, IfOk, map};
ghost use Rattle.std.specs.List.{All};
ghost use Rattle.job_rules.specs.Looked.{IsReadableRef, reads_of, product_reads, factor_reads};
ghost use Rattle.job_rules.specs.After.{checked_factor, checked_product, checked_expr};

use crate::narrow::checked_ref;
use crate::scope::NestScope;
use bern_base::{Expr, Factor, Items, NoMemory, Product, RawExpr, RawFactor, RawProduct, Val};
use std::alloc::Global;

/// An expression with numbers for names.
#[cycle(checked)]
#[tactic(auto, unfolding(crate::specs::After::checked_expr))]
pub(crate) fn checked_expr(
    alloc: Global,
    scope: &NestScope<'_, '_>,
    levels: u32,
    expr: &RawExpr,
) -> Result<Expr, NoMemory>
    requires { All IsReadableRef (reads_of levels expr.now) }
    ensures { IfOk result (λ checked. checked ≡ checked_expr scope.now levels expr.now) }
{
    let mut sums = Items::new(alloc);
    if levels == 0 {
        return Ok(Expr { sums });
    }
    for product in expr.sums.as_slice() {
        sums.push(checked_product(alloc, scope, levels - 1, product)?)?;
    }
    Ok(Expr { sums })
}

#[cycle(checked)]
#[tactic(auto, unfolding(crate::specs::After::checked_product))]
fn checked_product(
    alloc: Global,
    scope: &NestScope<'_, '_>,
    levels: u32,
    product: &RawProduct,
) -> Result<Product, NoMemory>
    requires { All IsReadableRef (product_reads (reads_of levels) product.now) }
    ensures { IfOk result (λ checked. checked ≡ checked_product scope.now (checked_expr scope.now levels) product.now) }
{
    let mut factors = Items::new(alloc);
    for factor in product.factors.as_slice() {
        factors.push(checked_factor(alloc, scope, levels, factor)?)?;
    }
    Ok(Product {
        minus: product.minus,
        factors,
    })
}

#[cycle(checked)]
fn checked_factor(
    alloc: Global,
    scope: &NestScope<'_, '_>,
    levels: u32,
    factor: &RawFactor,
) -> Result<Factor, NoMemory>
    requires { All IsReadableRef (factor_reads (reads_of levels) factor.now) }
    ensures { IfOk result (λ checked. checked ≡ checked_factor scope.now (checked_expr scope.now levels) factor.now) }
{
    match factor {
        RawFactor::Num(number) => Ok(Factor::Num(Val::new(*number))),
        RawFactor::Read(reference) => {
            let read = checked_ref(alloc, scope, reference)?;
            Ok(Factor::Read(read))
        }
        RawFactor::Group(inner) => {
            let inner = checked_expr(alloc, scope, levels, inner)?;
            Ok(Factor::Group(inner))
        }
    }
}
