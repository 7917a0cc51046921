//! The versions of journals' texts.

ghost use Rattle.std.specs.Prelude.{◌≡◌};
ghost use Rattle.path_journal.specs.CutTexts.{has_marks, heads, room_of};

use path_model::Line;
use std::alloc::{Allocator, Global};

/// The version of a journal's text, with the room that its first line names: 1 to [`MOST_LINES`](path_model::MOST_LINES).
#[derive(Clone, Copy, Debug, PartialEq, Eq)]
pub enum Version {
    /// Only lines.
    One,
    /// A first line `journal 2 room` and the room, and lines.
    Two(u32),
    /// A first line `journal 3 room` and the room, and lines, of which each may begin with `+`: it was written while the line before it
    /// may not have been on the disk.
    Three(u32),
}

impl Version {
    /// The room that the first line names; `None` in version 1.
    pub fn room(self) -> Option<u32>
        ensures { result ≡ room_of self }
    {
        match self {
            Version::One => None,
            Version::Two(room) | Version::Three(room) => Some(room),
        }
    }

    /// Whether lines may have marks.
    pub(crate) fn has_marks(self) -> bool
        ensures { result ≡ has_marks self }
    {
        match self {
            Version::Three(_) => true,
            _ => false,
        }
    }

    /// How many lines precede those of the journal.
    pub(crate) fn heads(self) -> u32
        ensures { result ≡ heads self }
    {
        match self {
            Version::One => 0,
            _ => 1,
        }
    }
}

/// A journal in a text that may end anywhere.
#[derive(Drop)]
pub struct CutText<A: Allocator + Copy = Global> {
    /// The version of the text; `One` too where a first line is cut.
    pub version: Version,
    /// The lines that have their line feed, in order.
    pub lines: Vec<Line, A>,
    /// How many bytes of the text these lines and the first line have, with their line feeds. What follows is a torn end.
    pub bytes: usize,
}
