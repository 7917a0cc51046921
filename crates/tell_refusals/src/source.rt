//! Texts, and the files that they come from.

/// A text, or a part of one, and where it comes from.
#[derive(Clone, Copy)]
pub struct Source<'a> {
    /// The name of its file.
    pub name: &'a str,
    /// The text.
    pub text: &'a [u8],
    /// How many lines of the file precede it.
    pub lines_before: usize,
}

impl<'a> Source<'a> {
    /// The whole of a file.
    pub fn whole(name: &'a str, text: &'a [u8]) -> Source<'a> {
        Source {
            name,
            text,
            lines_before: 0,
        }
    }
}

/// What a command reads under a declaration.
#[derive(Clone, Copy)]
pub enum Subject<'a> {
    /// Nothing.
    Nothing,
    /// Attempts.
    Attempts(Source<'a>),
    /// A journal, and the room that counts unless its text names one.
    Journal(Source<'a>, u32),
    /// A script.
    Script(Source<'a>),
}
