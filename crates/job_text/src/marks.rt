ghost use Rattle.std.specs.Prelude.{◌≡◌};
ghost use Rattle.job_text.specs.Marks.{double_mark, equal_mark, single_mark};

use crate::tokens::Mark;

/// The mark of two bytes.
pub(crate) fn double_mark(first: u8, second: u8) -> Option<Mark>
    ensures { result ≡ double_mark first second }
{
    if second == b'=' {
        equal_mark(first)
    } else if second == b'.' {
        if first == b'.' {
            Some(Mark::Dots)
        } else {
            None
        }
    } else {
        None
    }
}

/// The mark of a byte and `=`.
fn equal_mark(first: u8) -> Option<Mark>
    ensures { result ≡ equal_mark first }
{
    if first == b'+' {
        Some(Mark::Add)
    } else if first == b'<' {
        Some(Mark::Le)
    } else if first == b'>' {
        Some(Mark::Ge)
    } else if first == b'=' {
        Some(Mark::Eq)
    } else if first == b'!' {
        Some(Mark::Ne)
    } else {
        None
    }
}

/// The mark of one byte.
pub(crate) fn single_mark(byte: u8) -> Option<Mark>
    ensures { result ≡ single_mark byte }
{
    match byte {
        b'[' => Some(Mark::Open),
        b']' => Some(Mark::Close),
        b'(' => Some(Mark::Paren),
        b')' => Some(Mark::Unparen),
        b',' => Some(Mark::Comma),
        b':' => Some(Mark::Colon),
        b'*' => Some(Mark::Star),
        b'+' => Some(Mark::Plus),
        b'-' => Some(Mark::Minus),
        b'=' => Some(Mark::Assign),
        b'<' => Some(Mark::Lt),
        b'>' => Some(Mark::Gt),
        _ => None,
    }
}
