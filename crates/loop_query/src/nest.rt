ghost use Rattle.std.specs.Prelude.{◌≡◌, IfOk};
ghost use Rattle.term_model.specs.Terms.{terms_of};

use crate::expressions::expression_terms;
use bern_base::{Checked, EXPRESSION_LEVELS, Items, Nest, NoMemory};
use std::alloc::Global;
use term_model::Term;

/// The terms of a nest, in order: what its body comes to when its products are multiplied out.
///
/// The terms of a product are all choices of one term from each factor, the leftmost factor changing slowest. The job tells
/// dense references from sparse ones. A term whose factor is 0 stays.
pub fn terms(alloc: Global, job: &Checked, nest: &Nest) -> Result<Items<Term>, NoMemory>
    ensures { IfOk result (λ terms. terms ≡ terms_of job.now nest.now.body) }
{
    expression_terms(alloc, job, EXPRESSION_LEVELS, &nest.body)
}
