//! What a declaration text says, part by part.

/// A law as it is in a text.
#[derive(Clone, Copy)]
pub(crate) enum LawText<'a> {
    /// A cell.
    Cell,
    /// A tally.
    Tally,
    /// A queue; these are the digits of its capacity.
    Queue(&'a [u8]),
}

/// A part of a text. In a path, operands come before their operator, and braces before and after their content.
#[derive(Clone, Copy)]
pub(crate) enum Part<'a> {
    /// A resource has this name.
    Resource(&'a str),
    /// The resource has this law.
    Law(LawText<'a>),
    /// The resource has an operation of this name.
    Operation(&'a str),
    /// A path of the resource begins.
    Path,
    /// An operation in the path.
    Name(&'a str),
    /// The last two trees of the path are joined by `;`.
    Sequence,
    /// The last two trees of the path are joined by `,`.
    Selection,
    /// A brace opens.
    Opening,
    /// Braces without a bound close around the last tree of the path.
    Closing,
    /// Braces whose bound has these digits close around the last tree of the path.
    Bound(&'a [u8]),
    /// The path ends.
    End,
}
