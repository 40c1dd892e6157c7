ghost use Rattle.std.specs.Prelude.{◌≡◌, ◌≤◌, length, IsTrue};
ghost use Rattle.std.specs.List.{list_all};
ghost use Rattle.job_text.specs.Names.{is_name_start, is_digit, is_name_byte, is_keyword, is_among, line_words, joining_words, place_words, level_words, starts_name, is_name, is_file_byte, is_file_name};

use crate::words::is;

/// A letter or `_`.
pub(crate) fn is_name_start(byte: u8) -> bool
    ensures { result ≡ is_name_start byte }
{
    matches!(byte, b'a'..=b'z' | b'A'..=b'Z' | b'_')
}

pub(crate) fn is_digit(byte: u8) -> bool
    ensures { result ≡ is_digit byte }
{
    byte.is_ascii_digit()
}

/// A letter, a digit or `_`.
pub(crate) fn is_name_byte(byte: u8) -> bool
    ensures { result ≡ is_name_byte byte }
{
    is_name_start(byte) || is_digit(byte)
}

fn is_keyword(word: &[u8]) -> bool
    ensures { result ≡ is_keyword word.now }
{
    is_line_word(word) || is_joining_word(word) || is_place_word(word) || is_level_word(word)
}

/// A word that begins a line.
fn is_line_word(word: &[u8]) -> bool
    ensures { result ≡ is_among line_words word.now }
{
    is(word, b"extent")
        || is(word, b"place")
        || is(word, b"format")
        || is(word, b"array")
        || is(word, b"doany")
        || is(word, b"print")
        || is(word, b"repeat")
        || is(word, b"end")
        || is(word, b"move")
}

/// A word that joins the parts of a line.
fn is_joining_word(word: &[u8]) -> bool
    ensures { result ≡ is_among joining_words word.now }
{
    is(word, b"where")
        || is(word, b"from")
        || is(word, b"zero")
        || is(word, b"by")
        || is(word, b"on")
        || is(word, b"to")
}

/// A word of places.
fn is_place_word(word: &[u8]) -> bool
    ensures { result ≡ is_among place_words word.now }
{
    is(word, b"block") || is(word, b"cyclic") || is(word, b"listed")
}

/// A word of levels.
fn is_level_word(word: &[u8]) -> bool
    ensures { result ≡ is_among level_words word.now }
{
    is(word, b"row")
        || is(word, b"col")
        || is(word, b"dense")
        || is(word, b"packed")
        || is(word, b"list")
        || is(word, b"jagged")
        || is(word, b"diagonal")
        || is(word, b"permute")
        || is(word, b"blocks")
        || is(word, b"hashed")
}

fn are_name_bytes(word: &[u8]) -> bool
    ensures { result ≡ list_all is_name_byte word.now }
{
    word.iter().all(|byte| is_name_byte(*byte))
}

fn are_file_bytes(word: &[u8]) -> bool
    ensures { result ≡ list_all is_file_byte word.now }
{
    word.iter().all(|byte| is_file_byte(*byte))
}

fn starts_name(word: &[u8]) -> bool
    ensures { result ≡ starts_name word.now }
{
    match word {
        [first, ..] => is_name_start(*first),
        [] => false,
    }
}

/// A letter or `_`, then letters, digits and `_`, at most 32 bytes, and no keyword.
pub(crate) fn is_name(word: &[u8]) -> bool
    ensures value { result ≡ is_name word.now }
    ensures short { IsTrue result → length word.now ≤ 32 }
{
    starts_name(word) && word.len() <= 32 && are_name_bytes(word) && !is_keyword(word)
}

fn is_file_byte(byte: u8) -> bool
    ensures { result ≡ is_file_byte byte }
{
    (b'!'..=b'~').contains(&byte) && byte != b'#'
}

/// 1 to 255 bytes from `!` to `~`, without `#`.
pub(crate) fn is_file_name(word: &[u8]) -> bool
    ensures { result ≡ is_file_name word.now }
{
    1 <= word.len() && word.len() <= 255 && are_file_bytes(word)
}
