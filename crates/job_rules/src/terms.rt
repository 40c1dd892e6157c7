ghost use Rattle.std.specs.Prelude.{◌≡◌, ◌≤◌, ◌+◌, ◌*◌, ◌++◌, ℕ, List, length, min, max, nat_eq, ◌||◌, if◌then◌else◌};
ghost use Rattle.job_rules.specs.Terms.{terms_of, product_terms, factor_terms, size_of, has_too_many};
ghost use Rattle.job_model.specs.References.{joined};
ghost use Rattle.job_rules.specs.Rules.{has_too_many_terms};

use bern_base::{
    EXPRESSION_LEVELS, MOST_REFERENCES, MOST_TERMS, RawExpr, RawFactor, RawNest, RawProduct,
};

/// One more than the terms that a nest may have.
const TERMS: u32 = MOST_TERMS as u32 + 1;

/// One more than the references of a term.
const REFERENCES: u32 = MOST_REFERENCES as u32 + 1;

/// How many terms an expression has, and the most references of one; `TERMS` and `REFERENCES` stand for all larger numbers.
#[derive(Clone, Copy, Debug, PartialEq, Eq)]
pub(crate) struct Size {
    terms: u32,
    most: u32,
}

impl Size {
    /// Of the terms of both.
    fn or(self, other: Size) -> Size
        ensures { (xs ys : List ℕ) → self ≡ size_of xs → other ≡ size_of ys → result ≡ size_of (xs ++ ys) }
    {
        Size {
            terms: (self.terms.min(TERMS) + other.terms.min(TERMS)).min(TERMS),
            most: self.most.max(other.most),
        }
    }

    /// Of all joined of a term from each.
    fn times(self, other: Size) -> Size
        ensures { (xs ys : List ℕ) → self ≡ size_of xs → other ≡ size_of ys → result ≡ size_of (joined xs ys) }
    {
        let terms = self.terms.min(TERMS) * other.terms.min(TERMS);
        if terms == 0 {
            return Size { terms: 0, most: 0 };
        }
        Size {
            terms: terms.min(TERMS),
            most: (self.most.min(REFERENCES) + other.most.min(REFERENCES)).min(REFERENCES),
        }
    }
}

/// J15: whether the body has too many terms, or a term too many references. Nothing is multiplied out.
#[tactic(auto, unfolding(crate::specs::Rules::has_too_many_terms))]
pub(crate) fn has_too_many_terms(nest: &RawNest) -> bool
    ensures { result ≡ has_too_many_terms nest.now }
{
    let size = expression_size(EXPRESSION_LEVELS, &nest.body);
    size.terms == TERMS || size.most == REFERENCES
}

#[cycle(terms)]
#[tactic(auto, unfolding(crate::specs::Terms::terms_of))]
fn expression_size(levels: u32, expr: &RawExpr) -> Size
    ensures { result ≡ size_of (terms_of levels expr.now) }
{
    let mut size = Size { terms: 0, most: 0 };
    if levels == 0 {
        return size;
    }
    for product in expr.sums.as_slice() {
        size = size.or(product_size(levels - 1, product));
    }
    size
}

#[cycle(terms)]
fn product_size(levels: u32, product: &RawProduct) -> Size
    ensures { result ≡ size_of (product_terms (terms_of levels) product.now) }
{
    let mut size = Size { terms: 1, most: 0 };
    for factor in product.factors.as_slice() {
        size = size.times(factor_size(levels, factor));
    }
    size
}

#[cycle(terms)]
fn factor_size(levels: u32, factor: &RawFactor) -> Size
    ensures { result ≡ size_of (factor_terms (terms_of levels) factor.now) }
{
    match factor {
        RawFactor::Num(_) => Size { terms: 1, most: 0 },
        RawFactor::Read(_) => Size { terms: 1, most: 1 },
        RawFactor::Group(inner) => expression_size(levels, inner),
    }
}
