//! Texts of attempts and of journals.

ghost use Rattle.std.specs.Prelude.{◌≡◌, IfNone, IfOk, IfSome};
ghost use Rattle.path_lines.specs.declared.texts.TextFault.TheVariants as faults;
ghost use Rattle.tell_places.specs.Places.{IsLineSpot, number_of};

use crate::finding::Finding;
use crate::lines::{found, line_of, too_long};
use crate::wording::{KEPT_HEAD, Wrong, wanted_words};
use path_decl::Decl;
use path_journal::stop_in;
use path_lines::{LIMIT, Stop, TextFault, Wanted, first_entry, stop_at};
use path_model::OutOfMemory;
use std::alloc::Allocator;

/// What the lines of a text are.
#[derive(Clone, Copy, Debug, PartialEq, Eq)]
pub enum TextKind {
    /// Attempts.
    Attempts,
    /// Attempts with their replies.
    Journal,
}

/// Where the line of this number, counted from 0, stops being one of such a text; `None` if it is one, and lacks its line feed.
fn stop_of<A: Allocator + Copy>(
    decl: &Decl<A>,
    kind: TextKind,
    text: &[u8],
    number: u32,
    line: &[u8],
) -> Option<Stop> {
    match kind {
        TextKind::Attempts => first_entry(decl, line).err(),
        TextKind::Journal => stop_in(decl, text, number, line),
    }
}

/// What could stand where this line stops.
fn words_at(line: &[u8], wanted: Wanted) -> &'static str {
    if wanted == Wanted::Head && line.starts_with(b"journal 3") {
        KEPT_HEAD
    } else {
        wanted_words(wanted)
    }
}

/// Where a text of this kind has this fault, which [`read_attempts`](path_lines::read_attempts) or
/// [`read_journal`](path_journal::read_journal) found in it; `None` if memory was wanting then. Fails only if allocation fails. The
/// cost is two passes over the text up to the end of the fault's line, and a look at each declared name.
pub fn text_finding<'a, A: Allocator + Copy>(
    alloc: A,
    decl: &Decl<A>,
    kind: TextKind,
    text: &'a [u8],
    fault: TextFault,
) -> Result<Option<Finding<'a, A>>, OutOfMemory>
    ensures spot { IfOk result (λ found. IfSome found (λ finding. IsLineSpot text.now (number_of fault) finding.spot)) }
    ensures none { IfOk result (λ found. IfNone found (fault ≡ faults.OutOfMemory)) }
{
    let (number, wrong) = match fault {
        TextFault::OutOfMemory => return Ok(None),
        TextFault::TooLong => return Ok(Some(too_long(alloc, text, LIMIT, Wrong::TooLong))),
        TextFault::BadLine(number) => (number, Wrong::Line),
        TextFault::Undeclared(number) => (number, Wrong::Undeclared),
    };
    let line = line_of(text, number);
    let (stop, wrong) = match stop_of(decl, kind, text, number, line) {
        Some(stop) => (stop, wrong),
        None => (stop_at(b"", Wanted::End), Wrong::NoLineFeed),
    };
    let words = words_at(line, stop.wanted);
    Ok(Some(found(alloc, decl, text, number, stop, wrong, words)?))
}
