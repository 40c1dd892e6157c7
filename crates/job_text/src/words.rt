ghost use Rattle.std.specs.Prelude.{◌≡◌, IfOk};
ghost use Rattle.std.specs.Str.{bytes_eq};
ghost use Rattle.job_text.specs.Lines.{words};

use crate::lines::{is_blank, is_some_text};
use crate::pieces::Piece;
use bern_base::NoMemory;
use std::alloc::Global;

/// The words of a text, which blanks separate.
pub(crate) fn words<'a>(alloc: Global, text: &'a [u8]) -> Result<Vec<Piece<'a>>, NoMemory>
    ensures { IfOk result (λ found. found.items ≡ words text.now) }
{
    let words = text
        .split(|byte| is_blank(*byte))
        .filter(|word| is_some_text(word))
        .map(|word| Piece::new(word))
        .collect(alloc)?;
    Ok(words)
}

/// Whether a word is this one.
pub(crate) fn is(word: &[u8], other: &[u8]) -> bool
    ensures { result ≡ bytes_eq word.now other.now }
{
    word == other
}
