ghost use Rattle.std.specs.Prelude.{◌≡◌, ◌++◌, [], ◌∷◌, IfOk, IfSome, OnOk, map};
ghost use Rattle.term_model.specs.Terms.{choices, times, number_term, read_term, is_dense_in, sign_of};

use crate::references::{append_copies, copied, is_dense};
use bern_base::{Checked, Items, NoMemory, Ref, Val};
use std::alloc::Global;
use term_model::Term;

/// A number, as a term.
fn number_term(alloc: Global, number: Val) -> Term
    ensures { result ≡ number_term number }
{
    Term {
        factor: number,
        dense: Items::new(alloc),
        sparse: Items::new(alloc),
    }
}

/// What a product begins with.
pub(crate) fn sign_term(alloc: Global, minus: bool) -> Result<Items<Term>, NoMemory>
    ensures { IfOk result (λ terms. terms ≡ number_term (sign_of minus) ∷ []) }
{
    let one = Val::new(1);
    let sign = if minus { one.neg() } else { one };
    let mut terms = Items::new(alloc);
    terms.push(number_term(alloc, sign))?;
    Ok(terms)
}

/// Both lists in one.
pub(crate) fn appended(terms: Items<Term>, more: Items<Term>) -> Result<Items<Term>, NoMemory>
    ensures { IfOk result (λ all. all ≡ terms ++ more) }
{
    if terms.is_empty() {
        return Ok(more);
    }
    let mut all = terms.into_vec();
    let mut rest = more.into_vec();
    all.append(&mut rest)?;
    Ok(Items::from_vec(all))
}

/// The term times a number.
fn scale(term: &mut Term, number: Val)
    ensures { term.new ≡ times term.old (number_term number) }
{
    term.factor = term.factor.mul(number);
}

/// Each of these terms times a number.
pub(crate) fn scaled(terms: Items<Term>, number: Val) -> Items<Term>
    ensures { result ≡ choices terms (number_term number ∷ []) }
{
    let mut list = terms.into_vec();
    for term in list.iter_mut() {
        scale(term, number);
    }
    Items::from_vec(list)
}

fn add_reference(term: &mut Term, dense: bool, reference: Ref) -> Result<(), NoMemory>
    ensures { OnOk result (term.new ≡ times term.old (read_term dense reference)) }
{
    term.factor = Val::new(term.factor.bits());
    if dense {
        term.dense.push(reference)
    } else {
        term.sparse.push(reference)
    }
}

/// Each of these terms times a reference.
pub(crate) fn with_reference(
    job: &Checked,
    terms: Items<Term>,
    reference: &Ref,
) -> Result<Items<Term>, NoMemory>
    ensures { IfOk result (λ more. more ≡ choices terms (read_term (is_dense_in job.now reference.now) reference.now ∷ [])) }
{
    let dense = is_dense(job, reference);
    let mut list = terms.into_vec();
    for term in list.iter_mut() {
        add_reference(term, dense, copied(reference))?;
    }
    Ok(Items::from_vec(list))
}

/// The references of two terms, in order.
fn joined(alloc: Global, left: &[Ref], right: &[Ref]) -> Result<Items<Ref>, NoMemory>
    ensures { IfOk result (λ both. both ≡ left.now ++ right.now) }
{
    let mut both = Items::new(alloc);
    append_copies(&mut both, left)?;
    append_copies(&mut both, right)?;
    Ok(both)
}

/// The product of two terms.
fn times(alloc: Global, left: &Term, right: &Term) -> Result<Term, NoMemory>
    ensures { IfOk result (λ product. product ≡ times left.now right.now) }
{
    Ok(Term {
        factor: left.factor.mul(right.factor),
        dense: joined(alloc, left.dense.as_slice(), right.dense.as_slice())?,
        sparse: joined(alloc, left.sparse.as_slice(), right.sparse.as_slice())?,
    })
}

/// Appends the product of one term and each of others.
fn append_products(
    alloc: Global,
    products: &mut Items<Term>,
    left: &Term,
    right: &[Term],
) -> Result<(), NoMemory>
    ensures { OnOk result (products.new ≡ products.old ++ map (times left.now) right.now) }
{
    for term in right {
        products.push(times(alloc, left, term)?)?;
    }
    Ok(())
}

/// The factor of a list of one term that has no references.
fn lone_number(terms: &Items<Term>) -> Option<Val>
    ensures { IfSome result (λ number. terms.now ≡ number_term number ∷ []) }
{
    match terms.as_slice() {
        [term] if term.dense.is_empty() && term.sparse.is_empty() => Some(term.factor),
        _ => None,
    }
}

/// All choices of a term from each side, multiplied, the left one changing slowest.
pub(crate) fn multiplied(
    alloc: Global,
    left: Items<Term>,
    right: Items<Term>,
) -> Result<Items<Term>, NoMemory>
    ensures { IfOk result (λ products. products ≡ choices left right) }
{
    if let Some(number) = lone_number(&left) {
        return Ok(scaled(right, number));
    }
    let mut products = Items::new(alloc);
    for term in left.as_slice() {
        append_products(alloc, &mut products, term, right.as_slice())?;
    }
    Ok(products)
}
