ghost use Rattle.std.specs.Prelude.{◌≡◌};
ghost use Rattle.mm_profile.specs.Lines.{words};
ghost use Rattle.mm_profile.specs.Kinds.{same_letters, format_of, field_of, symmetry_of, kind_of, kind_named, banner_of};

use crate::word_list::five_words;
use bern_base::Rule;
use mm_profile::{Field, Format, Kind, Symmetry};

/// Whether two texts are the same without regard to ASCII case.
fn same_letters(word: &[u8], text: &[u8]) -> bool
    ensures { result ≡ same_letters word.now text.now }
{
    word.eq_ignore_ascii_case(text)
}

fn format_of(word: &[u8]) -> Option<Format>
    ensures { result ≡ format_of word.now }
{
    if same_letters(word, b"coordinate") {
        Some(Format::Coordinate)
    } else if same_letters(word, b"array") {
        Some(Format::Array)
    } else {
        None
    }
}

fn field_of(word: &[u8]) -> Option<Field>
    ensures { result ≡ field_of word.now }
{
    if same_letters(word, b"integer") {
        Some(Field::Integer)
    } else if same_letters(word, b"pattern") {
        Some(Field::Pattern)
    } else {
        None
    }
}

fn symmetry_of(word: &[u8]) -> Option<Symmetry>
    ensures { result ≡ symmetry_of word.now }
{
    if same_letters(word, b"general") {
        Some(Symmetry::General)
    } else if same_letters(word, b"symmetric") {
        Some(Symmetry::Symmetric)
    } else if same_letters(word, b"skew-symmetric") {
        Some(Symmetry::Skew)
    } else {
        None
    }
}

/// The kind of three words that are known, where there is such a kind.
fn kind_of(format: Option<Format>, field: Option<Field>, symmetry: Option<Symmetry>) -> Option<Kind>
    ensures { result ≡ kind_of format field symmetry }
{
    match (format?, field?, symmetry?) {
        (Format::Array, Field::Pattern, _) => None,
        (Format::Coordinate, Field::Pattern, Symmetry::Skew) => None,
        (format, field, symmetry) => Some(Kind {
            format,
            field,
            symmetry,
        }),
    }
}

/// The kind that the words after the mark name.
fn kind_named(object: &[u8], format: &[u8], field: &[u8], symmetry: &[u8]) -> Option<Kind>
    ensures { result ≡ kind_named object.now format.now field.now symmetry.now }
{
    if same_letters(object, b"matrix") {
        kind_of(format_of(format), field_of(field), symmetry_of(symmetry))
    } else {
        None
    }
}

/// What line 1 says. Rule M1: it has five words, and the first is the mark. Rule M2: the others name a kind of file.
pub(crate) fn banner_of(line: &[u8]) -> Result<Kind, Rule>
    ensures { result ≡ banner_of (words line.now) }
{
    let Some((mark, object, format, field, symmetry)) = five_words(line) else {
        return Err(Rule::M1);
    };
    if !same_letters(mark, b"%%MatrixMarket") {
        return Err(Rule::M1);
    }
    match kind_named(object, format, field, symmetry) {
        Some(kind) => Ok(kind),
        None => Err(Rule::M2),
    }
}
