ghost use Rattle.std.specs.Prelude.{◌≡◌, ◌<◌, ℕ, option_map, length, IfOk, IfSome};
ghost use Rattle.job_text.specs.NestReading.{list_at, sign_at, star_at, factor_at, factors_at, product_at, products_at, expr_at};
ghost use Rattle.job_text.specs.Reading.{Gives, seen, following};

use crate::lists::{with_last, with_next};
use crate::stop::Stop;
use crate::sums::{first_sign, next_sign, reference};
use crate::tokens::{Mark, Token};
use bern_base::{Items, RawExpr, RawFactor, RawProduct};
use std::alloc::Global;

/// Products, each after its sign, with parentheses at most this many levels deep, itself counted.
#[cycle(expression)]
#[tactic(auto, unfolding(crate::specs::NestReading::expr_at))]
pub(crate) fn expression<'a>(
    alloc: Global,
    levels: u32,
    tokens: &'a [Token],
) -> Result<(RawExpr, &'a [Token]), Stop>
    ensures value { (n : ℕ) → length tokens.now < n → Gives seen result (expr_at n levels tokens.now) }
    ensures shorter { IfOk result (λ p. length p.1.now < length tokens.now) }
{
    if levels == 0 {
        return Err(Stop::NoForm);
    }
    let (minus, rest) = first_sign(tokens);
    let (sums, rest) = products(alloc, levels - 1, minus, rest)?;
    Ok((RawExpr { sums }, rest))
}

/// The products of a sum, the first with this sign.
#[cycle(expression)]
fn products<'a>(
    alloc: Global,
    levels: u32,
    minus: bool,
    tokens: &'a [Token],
) -> Result<(Items<RawProduct>, &'a [Token]), Stop>
    ensures value { (n : ℕ) → length tokens.now < n → Gives seen result (products_at n levels minus tokens.now) }
    ensures shorter { IfOk result (λ p. length p.1.now < length tokens.now) }
{
    let mut products = Items::new(alloc);
    let mut minus = minus;
    let mut rest = tokens;
    loop {
        let (product, after) = product(alloc, levels, minus, rest)?;
        match next_sign(after) {
            Some((sign, next)) => {
                products = with_next(products, product)?;
                minus = sign;
                rest = next;
            }
            None => return Ok((with_last(products, product)?, after)),
        }
    }
}

/// Factors with stars between them.
#[cycle(expression)]
#[tactic(auto, unfolding(crate::specs::NestReading::product_at))]
fn product<'a>(
    alloc: Global,
    levels: u32,
    minus: bool,
    tokens: &'a [Token],
) -> Result<(RawProduct, &'a [Token]), Stop>
    ensures value { (n : ℕ) → length tokens.now < n → Gives seen result (product_at (expr_at n levels) n minus tokens.now) }
    ensures shorter { IfOk result (λ p. length p.1.now < length tokens.now) }
{
    let (factors, rest) = factors(alloc, levels, tokens)?;
    Ok((RawProduct { minus, factors }, rest))
}

#[cycle(expression)]
fn factors<'a>(
    alloc: Global,
    levels: u32,
    tokens: &'a [Token],
) -> Result<(Items<RawFactor>, &'a [Token]), Stop>
    ensures value { (n : ℕ) → length tokens.now < n → Gives seen result (factors_at (expr_at n levels) n tokens.now) }
    ensures shorter { IfOk result (λ p. length p.1.now < length tokens.now) }
{
    let mut factors = Items::new(alloc);
    let mut rest = tokens;
    loop {
        let (factor, after) = factor(alloc, levels, rest)?;
        match next_star(after) {
            Some(next) => {
                factors = with_next(factors, factor)?;
                rest = next;
            }
            None => return Ok((with_last(factors, factor)?, after)),
        }
    }
}

/// A number, an element of an array, or an expression in parentheses.
#[cycle(expression)]
#[tactic(auto, unfolding(crate::specs::NestReading::factor_at))]
fn factor<'a>(
    alloc: Global,
    levels: u32,
    tokens: &'a [Token],
) -> Result<(RawFactor, &'a [Token]), Stop>
    ensures value { (n : ℕ) → length tokens.now < n → Gives seen result (factor_at (expr_at n levels) tokens.now) }
    ensures shorter { IfOk result (λ p. length p.1.now < length tokens.now) }
{
    match tokens {
        [Token::Num(number), rest @ ..] => Ok((RawFactor::Num(*number), rest)),
        [Token::Mark(Mark::Paren), rest @ ..] => {
            let (inner, rest) = expression(alloc, levels, rest)?;
            match rest {
                [Token::Mark(Mark::Unparen), rest @ ..] => Ok((RawFactor::Group(inner), rest)),
                _ => Err(Stop::NoForm),
            }
        }
        _ => {
            let (read, rest) = reference(alloc, tokens)?;
            Ok((RawFactor::Read(read), rest))
        }
    }
}

/// What follows the star that joins the next factor.
fn next_star(tokens: &[Token]) -> Option<&[Token]>
    ensures value { option_map following result ≡ star_at tokens.now }
    ensures shorter { IfSome result (λ next. length next.now < length tokens.now) }
{
    match tokens {
        [Token::Mark(Mark::Star), next @ ..] => Some(next),
        _ => None,
    }
}
