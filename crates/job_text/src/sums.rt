ghost use Rattle.std.specs.Prelude.{◌≡◌, ◌<◌, ◌≤◌, Some, option_map, length, IfOk, IfSome};
ghost use Rattle.job_text.specs.NestReading.{limited_item, item_at, items_at, sign_at, first_sign, sum_at, second_at, subs_at, closed_at, ref_at};
ghost use Rattle.job_text.specs.Reading.{Gives, seen};

use crate::lists::{with_last, with_next};
use crate::stop::Stop;
use crate::tokens::{Mark, Token};
use bern_base::{Items, MOST_ITEMS, MOST_SUM_NUMBER, RawItem, RawRef, RawSum, Text};
use std::alloc::Global;

/// An array's name and its subscripts in brackets.
#[tactic(auto, unfolding(crate::specs::NestReading::ref_at))]
pub(crate) fn reference<'a>(
    alloc: Global,
    tokens: &'a [Token],
) -> Result<(RawRef, &'a [Token]), Stop>
    ensures value { Gives seen result (ref_at tokens.now) }
    ensures shorter { IfOk result (λ p. length p.1.now < length tokens.now) }
{
    match tokens {
        [Token::Name(name), Token::Mark(Mark::Open), rest @ ..] => {
            let (subs, rest) = subscripts(alloc, rest)?;
            match rest {
                [Token::Mark(Mark::Close), rest @ ..] => {
                    let name = Text::from_bytes(alloc, name.as_bytes())?;
                    Ok((RawRef { name, subs }, rest))
                }
                _ => Err(Stop::NoForm),
            }
        }
        _ => Err(Stop::NoForm),
    }
}

/// One subscript, or two with a comma between them.
#[tactic(auto, unfolding(crate::specs::NestReading::subs_at))]
fn subscripts<'a>(alloc: Global, tokens: &'a [Token]) -> Result<(Items<RawSum>, &'a [Token]), Stop>
    ensures value { Gives seen result (subs_at tokens.now) }
    ensures shorter { IfOk result (λ p. length p.1.now < length tokens.now) }
{
    let (row, rest) = sum(alloc, tokens)?;
    match rest {
        [Token::Mark(Mark::Comma), rest @ ..] => {
            let (col, rest) = sum(alloc, rest)?;
            let subs = vec![in alloc; row, col]?;
            Ok((Items::from_vec(subs), rest))
        }
        _ => {
            let subs = vec![in alloc; row]?;
            Ok((Items::from_vec(subs), rest))
        }
    }
}

/// A sum of at most [`MOST_ITEMS`] items.
#[tactic(auto, unfolding(crate::specs::NestReading::sum_at))]
pub(crate) fn sum<'a>(alloc: Global, tokens: &'a [Token]) -> Result<(RawSum, &'a [Token]), Stop>
    ensures value { Gives seen result (sum_at tokens.now) }
    ensures shorter { IfOk result (λ p. length p.1.now < length tokens.now) }
{
    let (minus, rest) = first_sign(tokens);
    let (items, rest) = items(alloc, minus, rest)?;
    Ok((RawSum { items }, rest))
}

/// The items of a sum, the first with this sign.
fn items<'a>(
    alloc: Global,
    minus: bool,
    tokens: &'a [Token],
) -> Result<(Items<RawItem>, &'a [Token]), Stop>
    ensures value { Gives seen result (items_at minus tokens.now) }
    ensures shorter { IfOk result (λ p. length p.1.now < length tokens.now) }
{
    let mut items = Items::new(alloc);
    let mut minus = minus;
    let mut rest = tokens;
    for _ in 0..MOST_ITEMS {
        let (item, after) = item(alloc, minus, rest)?;
        match next_sign(after) {
            Some((sign, next)) => {
                items = with_next(items, item)?;
                minus = sign;
                rest = next;
            }
            None => return Ok((with_last(items, item)?, after)),
        }
    }
    Err(Stop::NoForm)
}

/// A number, a multiple of a name, or a name alone.
#[tactic(auto, unfolding(crate::specs::NestReading::item_at))]
fn item<'a>(alloc: Global, minus: bool, tokens: &'a [Token]) -> Result<(RawItem, &'a [Token]), Stop>
    ensures value { Gives seen result (item_at minus tokens.now) }
    ensures shorter { IfOk result (λ p. length p.1.now < length tokens.now) }
{
    match tokens {
        [
            Token::Num(number),
            Token::Mark(Mark::Star),
            Token::Name(name),
            rest @ ..,
        ] => {
            let name = Text::from_bytes(alloc, name.as_bytes())?;
            limited(minus, *number, Some(name), rest)
        }
        [Token::Num(number), rest @ ..] => limited(minus, *number, None, rest),
        [Token::Name(name), rest @ ..] => {
            let name = Text::from_bytes(alloc, name.as_bytes())?;
            Ok((
                RawItem {
                    minus,
                    number: 1,
                    name: Some(name),
                },
                rest,
            ))
        }
        _ => Err(Stop::NoForm),
    }
}

/// An item whose number is at most [`MOST_SUM_NUMBER`], and what follows it.
fn limited<'a>(
    minus: bool,
    number: u64,
    name: Option<Text>,
    rest: &'a [Token],
) -> Result<(RawItem, &'a [Token]), Stop>
    ensures value { Gives seen result (limited_item minus number name rest.now) }
    ensures rest { IfOk result (λ p. length p.1.now ≤ length rest.now) }
{
    if number <= u64::from(MOST_SUM_NUMBER) {
        Ok((
            RawItem {
                minus,
                number,
                name,
            },
            rest,
        ))
    } else {
        Err(Stop::NoForm)
    }
}

/// Whether a minus begins a sum, and what follows it.
pub(crate) fn first_sign(tokens: &[Token]) -> (bool, &[Token])
    ensures value { seen result ≡ first_sign tokens.now }
    ensures shorter { length result.1.now ≤ length tokens.now }
{
    match tokens {
        [Token::Mark(Mark::Minus), rest @ ..] => (true, rest),
        _ => (false, tokens),
    }
}

/// The sign that joins the next part of a sum: whether it is a minus, and what follows it.
pub(crate) fn next_sign(tokens: &[Token]) -> Option<(bool, &[Token])>
    ensures value { option_map seen result ≡ sign_at tokens.now }
    ensures shorter { IfSome result (λ p. length p.1.now < length tokens.now) }
{
    match tokens {
        [Token::Mark(Mark::Minus), rest @ ..] => Some((true, rest)),
        [Token::Mark(Mark::Plus), rest @ ..] => Some((false, rest)),
        _ => None,
    }
}
