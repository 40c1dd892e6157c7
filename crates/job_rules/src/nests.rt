ghost use Rattle.std.specs.Prelude.{◌≡◌, ◌<◌, None, false, length, IfOk, OnOk, IfErr};
ghost use Rattle.std.specs.List.{All, list_any};
ghost use Rattle.bern_base.specs.declared.raw.Form.TheVariants as form;
ghost use Rattle.job_rules.specs.State.{is_known};
ghost use Rattle.job_rules.specs.Looked.{IsReadableNest, scope_of};
ghost use Rattle.job_rules.specs.Rules.{broken_rule, looked, hides_name};
ghost use Rattle.job_rules.specs.Nests.{ranges_of, is_too_wide};
ghost use Rattle.job_rules.specs.After.{checked_nest, IsNear};
ghost use Rattle.job_rules.specs.First.{Joins, StopsAt};

use crate::draft::Draft;
use crate::expressions::checked_expr;
use crate::lookup::look_up;
use crate::names::Names;
use crate::narrow::{checked_guards, checked_ref, checked_spans};
use crate::nest_rules::{
    has_other_kind, has_other_subscripts, has_sparse_target, has_unknown, has_variable_twice,
    is_one_to_one, is_too_wide, leaves_box, reads_elsewhere, reads_target_otherwise,
};
use crate::ranges::Ranges;
use crate::resolved::ResolvedNest;
use crate::scope::{NestScope, variables};
use crate::stop::Stop;
use crate::terms::has_too_many_terms;
use bern_base::{Checked, EXPRESSION_LEVELS, MOST_NESTS, Nest, NoMemory, RawNest, RawVar, Rule};
use std::alloc::Global;

/// J3: whether a variable has a declared name.
#[tactic(auto, unfolding(crate::specs::Rules::hides_name))]
fn hides_name(names: &Names<'_>, vars: &[RawVar]) -> bool
    ensures { result ≡ hides_name names.now vars.now }
{
    vars.iter().any(|var| is_known(names, var))
}

fn is_known(names: &Names<'_>, var: &RawVar) -> bool
    ensures { result ≡ is_known var.now.name names.now }
{
    names.find(var.name.as_bytes()).is_some()
}

/// Tries the rules in their order on a nest with its names looked up.
fn try_rules(
    alloc: Global,
    draft: &Draft<'_>,
    nest: &RawNest,
    resolved: &ResolvedNest,
) -> Result<(), Stop>
    requires { resolved.now ≡ looked draft.now nest.now }
    ensures ok { OnOk result (broken_rule draft.now (form.Nest nest.now) ≡ None) }
    ensures few { OnOk result (length draft.now.job.nests < MOST_NESTS) }
    ensures near { OnOk result (is_too_wide (ranges_of resolved.now) resolved.now ≡ false) }
    ensures err { IfErr result (StopsAt (broken_rule draft.now (form.Nest nest.now))) }
{
    if hides_name(&draft.names, nest.vars.as_slice()) {
        return Err(Stop::Broken(Rule::J3));
    }
    if has_unknown(resolved) {
        return Err(Stop::Broken(Rule::J4));
    }
    if has_other_kind(resolved) {
        return Err(Stop::Broken(Rule::J5));
    }
    if has_variable_twice(resolved) {
        return Err(Stop::Broken(Rule::J8));
    }
    if has_other_subscripts(&draft.job, resolved) {
        return Err(Stop::Broken(Rule::J9));
    }
    let ranges = ranges_of(alloc, resolved)?;
    if leaves_box(alloc, &draft.job, &ranges, resolved)? {
        return Err(Stop::Broken(Rule::J10));
    }
    if has_sparse_target(&draft.job, resolved) {
        return Err(Stop::Broken(Rule::J11));
    }
    let one_to_one = is_one_to_one(&ranges, resolved);
    if reads_target_otherwise(one_to_one, resolved) {
        return Err(Stop::Broken(Rule::J12));
    }
    if nest.replace && !one_to_one {
        return Err(Stop::Broken(Rule::J13));
    }
    if reads_elsewhere(&draft.job, resolved) {
        return Err(Stop::Broken(Rule::J14));
    }
    if draft.job.nests.len() >= MOST_NESTS
        || is_too_wide(&ranges, resolved)
        || has_too_many_terms(nest)
    {
        return Err(Stop::Broken(Rule::J15));
    }
    Ok(())
}

#[tactic(auto, unfolding(crate::specs::Nests::ranges_of))]
fn ranges_of(alloc: Global, resolved: &ResolvedNest) -> Result<Ranges, NoMemory>
    ensures { IfOk result (λ ranges. ranges ≡ ranges_of resolved.now) }
{
    Ranges::of(alloc, resolved.spans.as_slice())
}

/// A nest with numbers for names.
fn numbered(
    alloc: Global,
    scope: &NestScope<'_, '_>,
    line: u64,
    nest: &RawNest,
) -> Result<Nest, NoMemory>
    requires readable { IsReadableNest nest.now }
    requires near { All (IsNear scope.now) nest.now.vars }
    ensures { IfOk result (λ checked. checked ≡ checked_nest scope.now line nest.now) }
{
    let vars = checked_spans(alloc, scope, nest.vars.as_slice())?;
    let guards = checked_guards(alloc, scope, nest.guards.as_slice())?;
    let target = checked_ref(alloc, scope, &nest.target)?;
    let body = checked_expr(alloc, scope, EXPRESSION_LEVELS, &nest.body)?;
    Ok(Nest {
        line,
        vars,
        guards,
        target,
        replace: nest.replace,
        body,
    })
}

/// The nest, where it breaks no rule.
fn checked(alloc: Global, draft: &Draft<'_>, line: u64, nest: &RawNest) -> Result<Nest, Stop>
    requires { IsReadableNest nest.now }
    ensures ok { IfOk result (λ checked.
        (broken_rule draft.now (form.Nest nest.now) ≡ None) × (checked ≡ checked_nest (scope_of draft.now nest.now) line nest.now)) }
    ensures few { IfOk result (λ checked. length draft.now.job.nests < MOST_NESTS) }
    ensures err { IfErr result (StopsAt (broken_rule draft.now (form.Nest nest.now))) }
{
    let variables = variables(alloc, nest.vars.as_slice())?;
    let scope = NestScope {
        names: &draft.names,
        variables: &variables,
        extents: draft.job.extents.as_slice(),
    };
    let resolved = look_up(alloc, &scope, nest)?;
    try_rules(alloc, draft, nest, &resolved)?;
    let nest = numbered(alloc, &scope, line, nest)?;
    Ok(nest)
}

/// `doany ..`, which is one more nest and the next turn. J3 to J5 and J8 to J15 are tried.
pub(crate) fn add_nest(
    alloc: Global,
    draft: &mut Draft<'_>,
    line: u64,
    nest: &RawNest,
) -> Result<(), Stop>
    requires { IsReadableNest nest.now }
    ensures ok { OnOk result (Joins draft.old draft.new line (form.Nest nest.now)) }
    ensures err { IfErr result (StopsAt (broken_rule draft.old (form.Nest nest.now))) }
{
    let nest = checked(alloc, draft, line, nest)?;
    let turn = draft.job.nests.len() as u32;
    draft.job.nests.push(nest)?;
    draft.job.turns.push(turn)?;
    Ok(())
}
