ghost use Rattle.std.specs.Prelude.{◌≡◌, IfOk};
ghost use Rattle.term_model.specs.Terms.{terms_by, product_terms, factor_terms, choices, is_dense_in};

use crate::products::{appended, multiplied, scaled, sign_term, with_reference};
use bern_base::{Checked, Expr, Factor, Items, NoMemory, Product};
use std::alloc::Global;
use term_model::Term;

/// The terms of an expression of at most so many levels.
#[cycle(terms)]
#[tactic(auto, unfolding(bern_base::specs::Expressions::by_levels))]
pub(crate) fn expression_terms(
    alloc: Global,
    job: &Checked,
    levels: u32,
    expr: &Expr,
) -> Result<Items<Term>, NoMemory>
    ensures { IfOk result (λ terms. terms ≡ terms_by (is_dense_in job.now) levels expr.now) }
{
    let mut terms = Items::new(alloc);
    if levels == 0 {
        return Ok(terms);
    }
    for product in expr.sums.as_slice() {
        let more = product_terms(alloc, job, levels - 1, product)?;
        terms = appended(terms, more)?;
    }
    Ok(terms)
}

#[cycle(terms)]
fn product_terms(
    alloc: Global,
    job: &Checked,
    levels: u32,
    product: &Product,
) -> Result<Items<Term>, NoMemory>
    ensures { IfOk result (λ terms. terms ≡ product_terms (is_dense_in job.now) (terms_by (is_dense_in job.now) levels) product.now) }
{
    let mut terms = sign_term(alloc, product.minus)?;
    for factor in product.factors.as_slice() {
        terms = with_factor(alloc, job, levels, terms, factor)?;
    }
    Ok(terms)
}

/// All choices of one of these terms and one of a factor's, multiplied.
#[cycle(terms)]
fn with_factor(
    alloc: Global,
    job: &Checked,
    levels: u32,
    terms: Items<Term>,
    factor: &Factor,
) -> Result<Items<Term>, NoMemory>
    ensures { IfOk result (λ more.
        more ≡ choices terms (factor_terms (is_dense_in job.now) (terms_by (is_dense_in job.now) levels) factor.now)) }
{
    match factor {
        Factor::Num(number) => Ok(scaled(terms, *number)),
        Factor::Read(reference) => with_reference(job, terms, reference),
        Factor::Group(inner) => {
            let group = expression_terms(alloc, job, levels, inner)?;
            multiplied(alloc, terms, group)
        }
    }
}
