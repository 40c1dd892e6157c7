ghost use Rattle.std.specs.Prelude.{◌≡◌, ◌≤◌, length};

use arrayvec::ArrayVec;
use std::marker::Model;

/// A sign of a nest line.
#[derive(Clone, Copy)]
pub(crate) enum Mark {
    /// `..`
    Dots,
    /// `[`
    Open,
    /// `]`
    Close,
    /// `(`
    Paren,
    /// `)`
    Unparen,
    /// `,`
    Comma,
    /// `:`
    Colon,
    /// `*`
    Star,
    /// `+`
    Plus,
    /// `-`
    Minus,
    /// `=`
    Assign,
    /// `+=`
    Add,
    /// `<`
    Lt,
    /// `<=`
    Le,
    /// `>`
    Gt,
    /// `>=`
    Ge,
    /// `==`
    Eq,
    /// `!=`
    Ne,
    /// `doany`
    Doany,
    /// `where`
    Where,
}

/// A word of a nest line.
#[derive(Drop)]
pub(crate) enum Token {
    Name(Name),
    Num(u64),
    Mark(Mark),
}

/// A name of at most 32 bytes, which stand in the token itself; contracts see the bytes.
#[derive(Drop)]
pub(crate) struct Name {
    bytes: ArrayVec<u8, 32>,
}

impl Model for Name {
    ghost use Rattle.std.specs.Prelude.{List, ℕ};

    ghost Value = { List ℕ };

    ghost view = { λ name. name.bytes.items };
}

impl Name {
    pub(crate) fn from_bytes(word: &[u8]) -> Name
        requires { length word.now ≤ 32 }
        ensures { result ≡ word.now }
    {
        let mut bytes = ArrayVec::new();
        bytes.try_extend_from_slice(word).unwrap();
        Name { bytes }
    }

    pub(crate) fn as_bytes(&self) -> &[u8]
        ensures { result.now ≡ self.now }
    {
        self.bytes.as_slice()
    }
}
