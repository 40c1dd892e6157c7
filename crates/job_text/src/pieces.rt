ghost use Rattle.std.specs.Prelude.{◌≡◌};

use std::marker::Model;

/// A part of a text, as a line or a word; contracts see its bytes.
#[derive(Drop)]
pub(crate) struct Piece<'a> {
    text: &'a [u8],
}

impl<'a> Model for Piece<'a> {
    ghost use Rattle.std.specs.Prelude.{List, ℕ};

    ghost Value = { List ℕ };

    ghost view = { λ p. p.text.now };
}

impl<'a> Piece<'a> {
    pub(crate) fn new(text: &'a [u8]) -> Piece<'a>
        ensures { result ≡ text.now }
    {
        Piece { text }
    }

    pub(crate) fn bytes(&self) -> &'a [u8]
        ensures { result.now ≡ self.now }
    {
        self.text
    }
}
