ghost use Rattle.std.specs.Prelude.{◌≡◌, ℕ, ◌<◌, ◌≤◌, ◌&&◌, ◌++◌, List, length, slice_index_or};
ghost use Rattle.term_model.specs.Plans.{has_factor, is_free, is_known, is_only, waiting};
ghost use Rattle.join_plan.specs.Progress.{Marks};

use bern_base::Affine;
use loop_query::has_factor;

/// The variables for which a subscript waits: how many there are, and the first one, 4 where there is none.
#[derive(Clone, Copy, Debug)]
pub(crate) struct Awaited {
    pub(crate) count: u32,
    pub(crate) first: u32,
}

/// Whether a subscript waits for this variable: it counts for it and is not bound.
pub(crate) fn is_waiting(form: &Affine, bound: &[bool; 4], var: u32) -> bool
    requires { var < 4 }
    ensures { (vs : List ℕ) → Marks vs bound.now → result ≡ (is_free vs var && has_factor form.now var) }
{
    !bound[var as usize] && has_factor(form, var)
}

/// The variables for which a subscript waits where these are bound.
pub(crate) fn waiting(form: &Affine, bound: &[bool; 4]) -> Awaited
    ensures count { (vs : List ℕ) → Marks vs bound.now → result.count ≡ length (waiting vs form.now) }
    ensures few { result.count ≤ 4 }
    ensures first { (vs : List ℕ) → Marks vs bound.now → result.first ≡ slice_index_or (waiting vs form.now) 0 4 }
{
    let mut count = 0;
    let mut first = 4;
    let mut var = 4;
    'vars: while var > 0 {
        var -= 1;
        if is_waiting(form, bound, var) {
            count += 1;
            first = var;
        }
    }
    Awaited { count, first }
}

/// Whether all variables that count for a subscript are bound.
pub(crate) fn is_known(form: &Affine, bound: &[bool; 4]) -> bool
    ensures { (vs : List ℕ) → Marks vs bound.now → result ≡ is_known vs form.now }
{
    waiting(form, bound).count == 0
}

/// Whether a subscript waits for this variable alone.
pub(crate) fn is_only(form: &Affine, bound: &[bool; 4], var: u32) -> bool
    ensures { (vs : List ℕ) → Marks vs bound.now → result ≡ is_only var (waiting vs form.now) }
{
    let waiting = waiting(form, bound);
    (waiting.count == 1) & (waiting.first == var)
}

/// What is bound once the variables are for which a subscript waits.
pub(crate) fn marked(form: &Affine, bound: &[bool; 4]) -> [bool; 4]
    ensures { (vs : List ℕ) → Marks vs bound.now → Marks (waiting vs form.now ++ vs) result }
{
    [
        bound[0] | has_factor(form, 0),
        bound[1] | has_factor(form, 1),
        bound[2] | has_factor(form, 2),
        bound[3] | has_factor(form, 3),
    ]
}
