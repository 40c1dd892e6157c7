ghost use Rattle.std.specs.Prelude.{◌≡◌, ◌∷◌, IfSome};
ghost use Rattle.mm_text.specs.Fronts.{BeginsWithNatural, BeginsWithInteger, BeginsWithBlank, BeginsWithEnd};

use crate::numerals::{
    Natural, Number, is_digit, is_minus, is_plus, leading_digits, number_of, unsigned,
};
use crate::word_list::is_blank;

/// The number of at most 19 digits that some bytes begin with, and what stands after it.
#[inline(always)]
pub(crate) fn short_natural(bytes: &[u8]) -> Option<(Natural, &[u8])>
    ensures { IfSome result (λ n. BeginsWithNatural bytes.now n.0 n.1.now) }
{
    let (number, len) = leading_digits(bytes);
    if len == 0 {
        return None;
    }
    Some((Natural::Small(number), &bytes[len..]))
}

/// As `short_natural`, with one digit more. The greatest value has 20 of them.
#[inline(always)]
fn natural(bytes: &[u8]) -> Option<(Natural, &[u8])>
    ensures { IfSome result (λ n. BeginsWithNatural bytes.now n.0 n.1.now) }
{
    let (front, rest) = short_natural(bytes)?;
    if rest.is_empty() || !is_digit(rest[0]) {
        return Some((front, rest));
    }
    Some((front.with_digit(rest[0] - b'0'), &rest[1..]))
}

/// As `integer`, with a sign or without.
#[inline(never)]
fn signed(bytes: &[u8]) -> Option<(Number, &[u8])>
    ensures { IfSome result (λ n. BeginsWithInteger bytes.now n.0 n.1.now) }
{
    let (size, rest) = natural(unsigned(bytes))?;
    Some((number_of(is_minus(bytes), size), rest))
}

/// The integer of at most 20 digits that some bytes begin with, and what stands after it. Most have no sign.
#[inline(always)]
pub(crate) fn integer(bytes: &[u8]) -> Option<(Number, &[u8])>
    ensures { IfSome result (λ n. BeginsWithInteger bytes.now n.0 n.1.now) }
{
    if is_minus(bytes) || is_plus(bytes) {
        return signed(bytes);
    }
    let (size, rest) = natural(bytes)?;
    Some((number_of(false, size), rest))
}

/// What stands after the blank that some bytes begin with.
pub(crate) fn after_blank(bytes: &[u8]) -> Option<&[u8]>
    ensures { IfSome result (λ rest. BeginsWithBlank bytes.now rest.now) }
{
    if bytes.is_empty() || !is_blank(bytes[0]) {
        return None;
    }
    Some(&bytes[1..])
}

/// What stands after the line feed that some bytes begin with.
fn after_feed(bytes: &[u8]) -> Option<&[u8]>
    ensures { IfSome result (λ rest. bytes.now ≡ 10 ∷ rest.now) }
{
    if bytes.is_empty() || bytes[0] != b'\n' {
        return None;
    }
    Some(&bytes[1..])
}

/// What stands after the end of a line that some bytes begin with.
pub(crate) fn after_end(bytes: &[u8]) -> Option<&[u8]>
    ensures { IfSome result (λ rest. BeginsWithEnd bytes.now rest.now) }
{
    match after_feed(bytes) {
        Some(rest) => Some(rest),
        None => match bytes {
            [b'\r', after @ ..] => after_feed(after),
            _ => None,
        },
    }
}
