//! The tokens of a declaration text.

/// The signs of the grammar.
#[derive(Clone, Copy, Debug, PartialEq, Eq)]
pub enum Sign {
    Semicolon,
    Comma,
    Colon,
    OpenParen,
    CloseParen,
    OpenBrace,
    CloseBrace,
}

/// The reserved words, which can't be names.
#[derive(Clone, Copy, Debug, PartialEq, Eq)]
pub enum Reserved {
    Resource,
    Operation,
    Path,
    End,
    Cell,
    Tally,
    Queue,
}

/// Where a byte can occur: what it can begin, or belong to.
#[derive(Clone, Copy, Debug, PartialEq, Eq)]
pub enum Class {
    Space,
    Sign(Sign),
    Letter,
    Digit,
    Underscore,
    Other,
}

/// A token, with the offset of its first byte.
#[derive(Clone, Copy, Debug)]
pub enum Token<'a> {
    Sign(u32, Sign),
    Reserved(u32, Reserved),
    Name(u32, &'a str),
    Number(u32, &'a [u8]),
}

impl Token<'_> {
    ghost use Rattle.std.specs.Prelude.{◌≡◌};
    ghost use Rattle.path_lex.specs.Spelling.{view};

    /// The offset of its first byte.
    pub fn at(&self) -> u32
        ensures { result ≡ (view self.now).at }
    {
        match self {
            Token::Sign(at, _)
            | Token::Reserved(at, _)
            | Token::Name(at, _)
            | Token::Number(at, _) => *at,
        }
    }
}
