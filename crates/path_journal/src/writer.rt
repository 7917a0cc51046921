//! From a journal to its text.

ghost use Rattle.std.specs.Prelude.{◌≡◌, ◌++◌, ◌∷◌, [], IfOk, OnOk};
ghost use Rattle.std.specs.String.{string_bytes};
ghost use Rattle.path_journal.specs.JournalTexts.{RoomFits, front_text, lines_text, journal_text};
ghost use Rattle.path_journal.specs.JournalTexts.{kept_line};

use crate::head::write_head;
use path_decl::Decl;
use path_lines::push_line;
use path_model::{Line, OutOfMemory};
use std::alloc::Allocator;

/// What precedes the lines of a journal.
fn write_front<A: Allocator + Copy>(alloc: A, room: Option<u32>) -> Result<String<A>, OutOfMemory>
    requires { RoomFits room }
    ensures { IfOk result (λ text. string_bytes text ≡ front_text room) }
{
    let Some(room) = room else {
        return Ok(String::new(alloc));
    };
    let mut text = write_head(alloc, room)?;
    text.push_str("\n")?;
    Ok(text)
}

/// Appends lines, each with its line feed.
fn push_lines<A: Allocator + Copy, B: Allocator + Copy>(
    out: &mut String<A>,
    decl: &Decl<B>,
    lines: &[Line],
) -> Result<(), OutOfMemory>
    ensures { OnOk result (string_bytes out.new ≡ string_bytes out.old ++ lines_text decl.now.declaration lines.now) }
{
    for line in lines {
        push_line(out, decl, line)?;
        out.push_str("\n")?;
    }
    Ok(())
}

/// The text of a journal, each line with its line feed. With a room, which must be 1 to [`MOST_LINES`](path_model::MOST_LINES), it is
/// of version 2 and begins with a line that names the room; without one it is of version 1, and has only lines. Fails only if allocation
/// fails. The cost is that of the text.
pub fn write_journal<A: Allocator + Copy, B: Allocator + Copy>(
    alloc: A,
    decl: &Decl<B>,
    room: Option<u32>,
    lines: &[Line],
) -> Result<String<A>, OutOfMemory>
    requires { RoomFits room }
    ensures { IfOk result (λ text. string_bytes text ≡ journal_text decl.now.declaration room lines.now) }
{
    let mut text = write_front(alloc, room)?;
    push_lines(&mut text, decl, lines)?;
    Ok(text)
}

/// Appends a line of a text of version 3, with its line feed; with a mark, `+` precedes it. If allocation fails, what the text contains
/// isn't specified. Allocates only if the capacity of the text isn't enough.
pub fn push_kept_line<A: Allocator + Copy, B: Allocator + Copy>(
    out: &mut String<A>,
    decl: &Decl<B>,
    marked: bool,
    line: &Line,
) -> Result<(), OutOfMemory>
    ensures { OnOk result (string_bytes out.new ≡ string_bytes out.old ++ kept_line decl.now.declaration (marked, line.now)) }
{
    if marked {
        out.push_str("+")?;
    }
    push_line(out, decl, line)?;
    out.push_str("\n")?;
    Ok(())
}
