ghost use Rattle.std.specs.Prelude.{◌≡◌, ◌<◌, ◌≤◌, length, true, option_map, List, OnOk, IsErrOf};
ghost use Rattle.std.specs.List.{position_or_len};
ghost use Rattle.job_text.specs.declared.tokens.Token.{Token};
ghost use Rattle.job_text.specs.Names.{is_digit, is_name_start};
ghost use Rattle.job_text.specs.Tokens.{single_at, mark_at, digits_end, number_at, word_end, word_token, word_at, first_token, Lexes};
ghost use Rattle.job_text.specs.Reading.{seen};

use crate::lines::trimmed;
use crate::marks::{double_mark, single_mark};
use crate::names::{is_digit, is_name, is_name_byte, is_name_start};
use crate::numbers::number;
use crate::stop::Stop;
use crate::tokens::{Mark, Name, Token};
use crate::words::is;

/// Puts the tokens of a nest line into a list, in the place of what it held.
pub(crate) fn lex(text: &[u8], tokens: &mut Vec<Token>) -> Result<(), Stop>
    ensures found { OnOk result (Lexes text.now tokens.new.items) }
    ensures none { IsErrOf result Stop.NoForm → (any : List Token) → ¬ (Lexes text.now any) }
{
    tokens.clear();
    let mut rest = text;
    loop {
        let start = trimmed(rest);
        if start.is_empty() {
            return Ok(());
        }
        match token(start) {
            Some((token, after)) => {
                tokens.push(token)?;
                rest = after;
            }
            None => return Err(Stop::NoForm),
        }
    }
}

/// The token at the front of a text, and what follows it.
fn token(text: &[u8]) -> Option<(Token, &[u8])>
    ensures { option_map seen result ≡ first_token text.now }
{
    match text {
        [first, rest @ ..] => {
            if is_digit(*first) {
                number_token(text)
            } else if is_name_start(*first) {
                word(text)
            } else {
                mark(*first, rest)
            }
        }
        [] => None,
    }
}

/// The number that the digits at the front write, taken whole.
fn number_token(text: &[u8]) -> Option<(Token, &[u8])>
    ensures { option_map seen result ≡ number_at text.now }
{
    let end = digits_end(text);
    let number = number(&text[..end])?;
    Some((Token::Num(number), &text[end..]))
}

fn digits_end(text: &[u8]) -> usize
    ensures { result ≡ digits_end text.now }
{
    text.iter()
        .position(|byte| !is_digit(*byte))
        .unwrap_or(text.len())
}

/// The word that the letters, digits and `_` at the front make, taken whole.
fn word(text: &[u8]) -> Option<(Token, &[u8])>
    ensures { option_map seen result ≡ word_at text.now }
{
    let end = word_end(text);
    let token = word_token(&text[..end])?;
    Some((token, &text[end..]))
}

fn word_end(text: &[u8]) -> usize
    ensures { result ≡ word_end text.now }
{
    text.iter()
        .position(|byte| !is_name_byte(*byte))
        .unwrap_or(text.len())
}

fn word_token(word: &[u8]) -> Option<Token>
    ensures { result ≡ word_token word.now }
{
    if is(word, b"doany") {
        Some(Token::Mark(Mark::Doany))
    } else if is(word, b"where") {
        Some(Token::Mark(Mark::Where))
    } else if is_name(word) {
        Some(Token::Name(Name::from_bytes(word)))
    } else {
        None
    }
}

/// The mark that begins with this byte: of two bytes where there is one, else of one.
fn mark(first: u8, rest: &[u8]) -> Option<(Token, &[u8])>
    ensures { option_map seen result ≡ mark_at first rest.now }
{
    match rest {
        [second, after @ ..] => match double_mark(first, *second) {
            Some(mark) => Some((Token::Mark(mark), after)),
            None => single(first, rest),
        },
        [] => single(first, rest),
    }
}

fn single(first: u8, rest: &[u8]) -> Option<(Token, &[u8])>
    ensures { option_map seen result ≡ single_at first rest.now }
{
    let mark = single_mark(first)?;
    Some((Token::Mark(mark), rest))
}
