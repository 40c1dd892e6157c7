ghost use Rattle.std.specs.Prelude.{◌≡◌, ◌<◌, ◌≤◌, ℕ, option_map, length, IfOk, IfSome};
ghost use Rattle.job_text.specs.NestReading.{span_at, to_at, vars_at, vars_from, name_at, rel_at, guard_at, guards_at, guards_from, comma_at, whole_at, assign_at, statement_at, nest_at};
ghost use Rattle.job_text.specs.Reading.{Gives, seen, following, named};

use crate::expressions::expression;
use crate::lists::{with_last, with_next};
use crate::stop::Stop;
use crate::sums::{reference, sum};
use crate::tokens::{Mark, Name, Token};
use bern_base::{EXPRESSION_LEVELS, Items, RawExpr, RawGuard, RawNest, RawVar, Rel, Text};
use std::alloc::Global;

/// A whole nest line.
#[tactic(auto, unfolding(crate::specs::NestReading::nest_at))]
pub(crate) fn nest(alloc: Global, tokens: &[Token]) -> Result<RawNest, Stop>
    ensures { (n : ℕ) → length tokens.now < n → Gives (λ nest. nest) result (nest_at n tokens.now) }
{
    match tokens {
        [Token::Mark(Mark::Doany), rest @ ..] => {
            let (vars, rest) = variables(alloc, rest)?;
            let (guards, rest) = guards(alloc, rest)?;
            statement(alloc, vars, guards, rest)
        }
        _ => Err(Stop::NoForm),
    }
}

/// The part of a nest from its colon on.
#[tactic(auto, unfolding(crate::specs::NestReading::statement_at))]
fn statement(
    alloc: Global,
    vars: Items<RawVar>,
    guards: Items<RawGuard>,
    tokens: &[Token],
) -> Result<RawNest, Stop>
    ensures { (n : ℕ) → length tokens.now < n → Gives (λ nest. nest) result (statement_at n vars guards tokens.now) }
{
    match tokens {
        [Token::Mark(Mark::Colon), rest @ ..] => {
            let (target, rest) = reference(alloc, rest)?;
            let (replace, rest) = assignment(rest)?;
            let body = whole_expression(alloc, rest)?;
            Ok(RawNest {
                vars,
                guards,
                target,
                replace,
                body,
            })
        }
        _ => Err(Stop::NoForm),
    }
}

/// Whether the target is replaced (`=`) or added to (`+=`), and what follows.
fn assignment<'a>(tokens: &'a [Token]) -> Result<(bool, &'a [Token]), Stop>
    ensures value { Gives seen result (assign_at tokens.now) }
    ensures shorter { IfOk result (λ p. length p.1.now < length tokens.now) }
{
    match tokens {
        [Token::Mark(Mark::Assign), rest @ ..] => Ok((true, rest)),
        [Token::Mark(Mark::Add), rest @ ..] => Ok((false, rest)),
        _ => Err(Stop::NoForm),
    }
}

/// An expression that is all there is.
#[tactic(auto, unfolding(crate::specs::NestReading::whole_at))]
fn whole_expression(alloc: Global, tokens: &[Token]) -> Result<RawExpr, Stop>
    ensures { (n : ℕ) → length tokens.now < n → Gives (λ body. body) result (whole_at n tokens.now) }
{
    let (body, rest) = expression(alloc, EXPRESSION_LEVELS, tokens)?;
    match rest {
        [] => Ok(body),
        _ => Err(Stop::NoForm),
    }
}

/// The variables of a nest, one at least.
fn variables<'a>(alloc: Global, tokens: &'a [Token]) -> Result<(Items<RawVar>, &'a [Token]), Stop>
    ensures value { (n : ℕ) → length tokens.now < n → Gives seen result (vars_at n tokens.now) }
    ensures shorter { IfOk result (λ p. length p.1.now < length tokens.now) }
{
    match tokens {
        [Token::Name(name), rest @ ..] => variables_from(alloc, name, rest),
        _ => Err(Stop::NoForm),
    }
}

/// The variables, the first of this name.
fn variables_from<'a>(
    alloc: Global,
    first: &'a Name,
    tokens: &'a [Token],
) -> Result<(Items<RawVar>, &'a [Token]), Stop>
    ensures value { (n : ℕ) → length tokens.now < n → Gives seen result (vars_from n first.now tokens.now) }
    ensures shorter { IfOk result (λ p. length p.1.now < length tokens.now) }
{
    let mut vars = Items::new(alloc);
    let mut name = first;
    let mut rest = tokens;
    loop {
        let (var, after) = span(alloc, name, rest)?;
        match next_name(after) {
            Some((next, more)) => {
                vars = with_next(vars, var)?;
                name = next;
                rest = more;
            }
            None => return Ok((with_last(vars, var)?, after)),
        }
    }
}

/// The name of the next variable, and what follows it.
fn next_name<'a>(tokens: &'a [Token]) -> Option<(&'a Name, &'a [Token])>
    ensures value { option_map named result ≡ name_at tokens.now }
    ensures shorter { IfSome result (λ p. length p.1.now < length tokens.now) }
{
    match tokens {
        [Token::Name(name), rest @ ..] => Some((name, rest)),
        _ => None,
    }
}

/// The bounds of the variable of this name.
#[tactic(auto, unfolding(crate::specs::NestReading::span_at))]
fn span<'a>(alloc: Global, name: &Name, tokens: &'a [Token]) -> Result<(RawVar, &'a [Token]), Stop>
    ensures value { Gives seen result (span_at name.now tokens.now) }
    ensures shorter { IfOk result (λ p. length p.1.now < length tokens.now) }
{
    let (lo, rest) = sum(alloc, tokens)?;
    match rest {
        [Token::Mark(Mark::Dots), rest @ ..] => {
            let (hi, rest) = sum(alloc, rest)?;
            let name = Text::from_bytes(alloc, name.as_bytes())?;
            Ok((RawVar { name, lo, hi }, rest))
        }
        _ => Err(Stop::NoForm),
    }
}

/// The guards after `where`, or none.
fn guards<'a>(alloc: Global, tokens: &'a [Token]) -> Result<(Items<RawGuard>, &'a [Token]), Stop>
    ensures value { (n : ℕ) → length tokens.now < n → Gives seen result (guards_at n tokens.now) }
    ensures shorter { IfOk result (λ p. length p.1.now ≤ length tokens.now) }
{
    match tokens {
        [Token::Mark(Mark::Where), rest @ ..] => guards_from(alloc, rest),
        _ => Ok((Items::new(alloc), tokens)),
    }
}

/// Guards with commas between them.
fn guards_from<'a>(
    alloc: Global,
    tokens: &'a [Token],
) -> Result<(Items<RawGuard>, &'a [Token]), Stop>
    ensures value { (n : ℕ) → length tokens.now < n → Gives seen result (guards_from n tokens.now) }
    ensures shorter { IfOk result (λ p. length p.1.now < length tokens.now) }
{
    let mut guards = Items::new(alloc);
    let mut rest = tokens;
    loop {
        let (guard, after) = guard(alloc, rest)?;
        match next_comma(after) {
            Some(next) => {
                guards = with_next(guards, guard)?;
                rest = next;
            }
            None => return Ok((with_last(guards, guard)?, after)),
        }
    }
}

/// What follows the comma that joins the next guard.
fn next_comma(tokens: &[Token]) -> Option<&[Token]>
    ensures value { option_map following result ≡ comma_at tokens.now }
    ensures shorter { IfSome result (λ next. length next.now < length tokens.now) }
{
    match tokens {
        [Token::Mark(Mark::Comma), next @ ..] => Some(next),
        _ => None,
    }
}

/// A comparison of two sums.
#[tactic(auto, unfolding(crate::specs::NestReading::guard_at))]
fn guard<'a>(alloc: Global, tokens: &'a [Token]) -> Result<(RawGuard, &'a [Token]), Stop>
    ensures value { Gives seen result (guard_at tt tokens.now) }
    ensures shorter { IfOk result (λ p. length p.1.now < length tokens.now) }
{
    let (left, rest) = sum(alloc, tokens)?;
    let (rel, rest) = relation(rest)?;
    let (right, rest) = sum(alloc, rest)?;
    Ok((RawGuard { left, rel, right }, rest))
}

fn relation<'a>(tokens: &'a [Token]) -> Result<(Rel, &'a [Token]), Stop>
    ensures value { Gives seen result (rel_at tokens.now) }
    ensures shorter { IfOk result (λ p. length p.1.now < length tokens.now) }
{
    match tokens {
        [Token::Mark(Mark::Lt), rest @ ..] => Ok((Rel::Lt, rest)),
        [Token::Mark(Mark::Le), rest @ ..] => Ok((Rel::Le, rest)),
        [Token::Mark(Mark::Gt), rest @ ..] => Ok((Rel::Gt, rest)),
        [Token::Mark(Mark::Ge), rest @ ..] => Ok((Rel::Ge, rest)),
        [Token::Mark(Mark::Eq), rest @ ..] => Ok((Rel::Eq, rest)),
        [Token::Mark(Mark::Ne), rest @ ..] => Ok((Rel::Ne, rest)),
        _ => Err(Stop::NoForm),
    }
}
