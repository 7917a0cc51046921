//! The lines of a journal, for contracts alone.

ghost use Rattle.std.specs.Prelude.{◌≡◌};
ghost use Rattle.std.specs.Borrow.{ftrue};
ghost use Rattle.path_system.specs.Inner.Pasts.{Lines, none, one_more, rotated};

use path_model::Line;
use std::marker::Model;

/// The lines of a journal as contracts see them: those that rotations gave away, and those since. It takes no memory, and nothing
/// reads it when the program runs.
#[derive(Drop)]
pub(crate) struct Past {
    pub ghost lines: { Lines },
}

impl Model for Past {
    ghost also_owns = { λ _. ftrue };
}

impl Past {
    /// No lines.
    pub fn new() -> Past
        ensures { result.lines ≡ none }
    {
        Past {}
    }

    /// One line more.
    pub fn with(_before: &Past, _line: &Line) -> Past
        ensures { result.lines ≡ one_more _before.now.lines _line.now }
    {
        Past {}
    }

    /// The lines so far are earlier ones.
    pub fn rotated(_before: &Past) -> Past
        ensures { result.lines ≡ rotated _before.now.lines }
    {
        Past {}
    }
}
