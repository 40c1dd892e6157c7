ghost use Rattle.std.specs.Prelude.{◌≡◌, IfOk};
ghost use Rattle.std.specs.List.{before_first, position_or_len};
ghost use Rattle.std.specs.Str.Lines.{strip_carriage_return};
ghost use Rattle.job_text.specs.Lines.{lines, without_feed, is_hash, is_blank, is_some_text, trimmed, said};

use crate::pieces::Piece;
use bern_base::NoMemory;
use bstr::ByteSlice;
use std::alloc::Global;

/// The lines of a file, each without its feed and one carriage return before it.
pub(crate) fn lines<'a>(alloc: Global, bytes: &'a [u8]) -> Result<Vec<Piece<'a>>, NoMemory>
    ensures { IfOk result (λ found. found.items ≡ lines bytes.now) }
{
    let lines = bytes
        .lines_with_terminator()
        .map(|line| Piece::new(without_end(line)))
        .collect(alloc)?;
    Ok(lines)
}

fn without_end(line: &[u8]) -> &[u8]
    ensures { result.now ≡ strip_carriage_return (without_feed line.now) }
{
    without_return(without_feed(line))
}

fn without_feed(line: &[u8]) -> &[u8]
    ensures { result.now ≡ without_feed line.now }
{
    match line {
        [front @ .., b'\n'] => front,
        _ => line,
    }
}

fn without_return(line: &[u8]) -> &[u8]
    ensures { result.now ≡ strip_carriage_return line.now }
{
    match line {
        [front @ .., b'\r'] => front,
        _ => line,
    }
}

/// What a line says: up to its comment, without the blanks before it.
pub(crate) fn said(line: &[u8]) -> &[u8]
    ensures { result.now ≡ said line.now }
{
    trimmed(before_comment(line))
}

fn before_comment(line: &[u8]) -> &[u8]
    ensures { result.now ≡ before_first is_hash line.now }
{
    &line[..comment_start(line)]
}

/// Where the comment of a line begins: its length where there is none.
fn comment_start(line: &[u8]) -> usize
    ensures { result ≡ position_or_len is_hash line.now }
{
    line.iter()
        .position(|byte| *byte == b'#')
        .unwrap_or(line.len())
}

/// A text from its first byte on that is no blank.
pub(crate) fn trimmed(text: &[u8]) -> &[u8]
    ensures { result.now ≡ trimmed text.now }
{
    let mut rest = text;
    while let [b' ' | b'\t', after @ ..] = rest {
        rest = after;
    }
    rest
}

/// A space or a tab.
pub(crate) fn is_blank(byte: u8) -> bool
    ensures { result ≡ is_blank byte }
{
    byte == b' ' || byte == b'\t'
}

pub(crate) fn is_some_text(text: &[u8]) -> bool
    ensures { result ≡ is_some_text text.now }
{
    !matches!(text, [])
}
