ghost use Rattle.std.specs.Prelude.{◌≡◌};
ghost use Rattle.std.specs.List.{position_or_len};
ghost use Rattle.job_text.specs.WordReading.{name_of, file_of, extent_of, kind_of, place_of, print_of, format_of, comma_place, extents_of, source_of, axis_of, array_of, form_of};
ghost use Rattle.job_text.specs.Reading.{Gives};

use crate::levels::levels;
use crate::names::{is_file_name, is_name};
use crate::numbers::number;
use crate::pieces::Piece;
use crate::stop::Stop;
use crate::words::is;
use bern_base::{Axis, Form, Items, RawKind, Text};
use std::alloc::Global;

/// The form of a line other than a nest, by its first word. A new form of words is one more case.
#[tactic(auto, unfolding(crate::specs::WordReading::form_of))]
pub(crate) fn word_form(alloc: Global, words: &[Piece]) -> Result<Form, Stop>
    ensures { Gives (λ form. form) result (form_of words.now) }
{
    match words {
        [key, rest @ ..] => {
            let key = key.bytes();
            if is(key, b"extent") {
                extent(alloc, rest)
            } else if is(key, b"place") {
                place(alloc, rest)
            } else if is(key, b"format") {
                format(alloc, rest)
            } else if is(key, b"array") {
                array(alloc, rest)
            } else if is(key, b"print") {
                print(alloc, rest)
            } else {
                Err(Stop::NoForm)
            }
        }
        [] => Err(Stop::NoForm),
    }
}

/// `NAME NUM`
#[tactic(auto, unfolding(crate::specs::WordReading::extent_of))]
fn extent(alloc: Global, words: &[Piece]) -> Result<Form, Stop>
    ensures { Gives (λ form. form) result (extent_of words.now) }
{
    match words {
        [name, size] => {
            let name = name_text(alloc, name.bytes())?;
            let size = number(size.bytes()).ok_or(Stop::NoForm)?;
            Ok(Form::Extent { name, size })
        }
        _ => Err(Stop::NoForm),
    }
}

/// `NAME NAME KIND`
#[tactic(auto, unfolding(crate::specs::WordReading::place_of))]
fn place(alloc: Global, words: &[Piece]) -> Result<Form, Stop>
    ensures { Gives (λ form. form) result (place_of words.now) }
{
    match words {
        [name, extent, rest @ ..] => {
            let name = name_text(alloc, name.bytes())?;
            let extent = name_text(alloc, extent.bytes())?;
            let kind = kind(alloc, rest)?;
            Ok(Form::Place { name, extent, kind })
        }
        _ => Err(Stop::NoForm),
    }
}

/// `block`, `cyclic NUM` or `listed FILE`
#[tactic(auto, unfolding(crate::specs::WordReading::kind_of))]
fn kind(alloc: Global, words: &[Piece]) -> Result<RawKind, Stop>
    ensures { Gives (λ kind. kind) result (kind_of words.now) }
{
    match words {
        [word] => {
            if is(word.bytes(), b"block") {
                Ok(RawKind::Block)
            } else {
                Err(Stop::NoForm)
            }
        }
        [word, which] => {
            let word = word.bytes();
            if is(word, b"cyclic") {
                let block = number(which.bytes()).ok_or(Stop::NoForm)?;
                Ok(RawKind::Cyclic(block))
            } else if is(word, b"listed") {
                let file = file_text(alloc, which.bytes())?;
                Ok(RawKind::Listed(file))
            } else {
                Err(Stop::NoForm)
            }
        }
        _ => Err(Stop::NoForm),
    }
}

/// `NAME LEVELS`
#[tactic(auto, unfolding(crate::specs::WordReading::format_of))]
fn format(alloc: Global, words: &[Piece]) -> Result<Form, Stop>
    ensures { Gives (λ form. form) result (format_of words.now) }
{
    match words {
        [name, rest @ ..] => {
            let name = name_text(alloc, name.bytes())?;
            let shape = levels(alloc, rest)?;
            Ok(Form::Format { name, shape })
        }
        _ => Err(Stop::NoForm),
    }
}

/// `NAME EXTENTS NAME AXIS by NAME SOURCE`
#[tactic(auto, unfolding(crate::specs::WordReading::array_of))]
fn array(alloc: Global, words: &[Piece]) -> Result<Form, Stop>
    ensures { Gives (λ form. form) result (array_of words.now) }
{
    match words {
        [name, sizes, format, side, by, place, rest @ ..] => {
            if is(by.bytes(), b"by") {
                let name = name_text(alloc, name.bytes())?;
                let extents = extents(alloc, sizes.bytes())?;
                let format = name_text(alloc, format.bytes())?;
                let axis = axis(side.bytes()).ok_or(Stop::NoForm)?;
                let place = name_text(alloc, place.bytes())?;
                let file = source(alloc, rest)?;
                Ok(Form::Array {
                    name,
                    extents,
                    format,
                    axis,
                    place,
                    file,
                })
            } else {
                Err(Stop::NoForm)
            }
        }
        _ => Err(Stop::NoForm),
    }
}

/// `zero`, or `from FILE`
#[tactic(auto, unfolding(crate::specs::WordReading::source_of))]
fn source(alloc: Global, words: &[Piece]) -> Result<Option<Text>, Stop>
    ensures { Gives (λ file. file) result (source_of words.now) }
{
    match words {
        [word] => {
            if is(word.bytes(), b"zero") {
                Ok(None)
            } else {
                Err(Stop::NoForm)
            }
        }
        [word, file] => {
            if is(word.bytes(), b"from") {
                let file = file_text(alloc, file.bytes())?;
                Ok(Some(file))
            } else {
                Err(Stop::NoForm)
            }
        }
        _ => Err(Stop::NoForm),
    }
}

/// One name, or two with a comma between them.
#[tactic(auto, unfolding(crate::specs::WordReading::extents_of))]
fn extents(alloc: Global, word: &[u8]) -> Result<Items<Text>, Stop>
    ensures { Gives (λ names. names) result (extents_of word.now) }
{
    let comma = comma_place(word);
    if comma < word.len() {
        let rows = name_text(alloc, &word[..comma])?;
        let cols = name_text(alloc, &word[comma + 1..])?;
        let names = vec![in alloc; rows, cols]?;
        Ok(Items::from_vec(names))
    } else {
        let only = name_text(alloc, word)?;
        let names = vec![in alloc; only]?;
        Ok(Items::from_vec(names))
    }
}

fn comma_place(word: &[u8]) -> usize
    ensures { result ≡ comma_place word.now }
{
    word.iter()
        .position(|byte| *byte == b',')
        .unwrap_or(word.len())
}

/// `NAME`
#[tactic(auto, unfolding(crate::specs::WordReading::print_of))]
fn print(alloc: Global, words: &[Piece]) -> Result<Form, Stop>
    ensures { Gives (λ form. form) result (print_of words.now) }
{
    match words {
        [name] => {
            let name = name_text(alloc, name.bytes())?;
            Ok(Form::Print { name })
        }
        _ => Err(Stop::NoForm),
    }
}

/// `row` or `col`
pub(crate) fn axis(word: &[u8]) -> Option<Axis>
    ensures { result ≡ axis_of word.now }
{
    if is(word, b"row") {
        Some(Axis::Row)
    } else if is(word, b"col") {
        Some(Axis::Col)
    } else {
        None
    }
}

fn name_text(alloc: Global, word: &[u8]) -> Result<Text, Stop>
    ensures { Gives (λ name. name) result (name_of word.now) }
{
    if is_name(word) {
        Ok(Text::from_bytes(alloc, word)?)
    } else {
        Err(Stop::NoForm)
    }
}

pub(crate) fn file_text(alloc: Global, word: &[u8]) -> Result<Text, Stop>
    ensures { Gives (λ file. file) result (file_of word.now) }
{
    if is_file_name(word) {
        Ok(Text::from_bytes(alloc, word)?)
    } else {
        Err(Stop::NoForm)
    }
}
