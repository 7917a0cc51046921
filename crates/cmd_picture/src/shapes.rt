//! The pieces of a picture. The functions fail only if allocation fails; what the text contains then isn't specified.

use path_decl::Decl;
use path_lines::{push_line, push_operation};
use path_model::{Line, OpId, OutOfMemory, Reply};
use std::alloc::Allocator;

/// Pixels between two lines of the journal.
pub const STEP: u64 = 36;

/// Pixels left of the first line.
pub const LEFT: u64 = 110;

/// Pixels above the first lane.
pub const TOP: u64 = 48;

/// Pixels of the strip of a lane in which refused starts stand.
pub const STRIP: u64 = 24;

/// Pixels of a row of a lane.
pub const ROW: u64 = 22;

/// Colours for light and dark, and shapes that tell all apart without them.
pub const STYLE: &str = "<style>\n\
    text{font:12px system-ui,sans-serif;fill:#111}\n\
    .paper{fill:#fff}.rule{stroke:#999}.grid{stroke:#ddd}.small{font-size:10px}\n\
    .bar{fill:#cfe2ff;stroke:#111}.live{fill-opacity:.35;stroke-dasharray:4 3}\n\
    .tick{stroke:#a00;stroke-width:3}.use{fill:#111;stroke:#111}.not{fill:#fff;stroke:#a00;stroke-width:2}\n\
    @media (prefers-color-scheme:dark){\n\
    text{fill:#eee}.paper{fill:#16181d}.rule{stroke:#888}.grid{stroke:#333}\n\
    .bar{fill:#27476e;stroke:#eee}.tick{stroke:#ff8a80}.use{fill:#eee;stroke:#eee}.not{fill:#16181d;stroke:#ff8a80}\n\
    }\n</style>\n";

/// How far the line of this number, from 0, stands from the left.
pub fn across(at: usize) -> u64 {
    (at as u64).saturating_mul(STEP).saturating_add(LEFT)
}

/// How far a row stands below the top of its lane.
pub fn down(row: usize) -> u64 {
    (row as u64).saturating_mul(ROW).saturating_add(STRIP)
}

/// The entity for a sign of XML; `None` for any other.
fn entity(sign: char) -> Option<&'static str> {
    match sign {
        '&' => Some("&amp;"),
        '<' => Some("&lt;"),
        '>' => Some("&gt;"),
        '"' => Some("&quot;"),
        _ => None,
    }
}

/// Appends a text in which the signs of XML are written as entities.
pub fn push_escaped<A: Allocator + Copy>(
    out: &mut String<A>,
    text: &str,
) -> Result<(), OutOfMemory> {
    for sign in text.chars() {
        match entity(sign) {
            Some(entity) => out.push_str(entity)?,
            None => out.push(sign)?,
        }
    }
    Ok(())
}

/// Appends the title of a line: its number, counted from 1, and its text in a journal.
pub fn push_title<A: Allocator + Copy>(
    alloc: A,
    out: &mut String<A>,
    decl: &Decl<A>,
    at: usize,
    line: &Line,
) -> Result<(), OutOfMemory> {
    let number = (at as u64).saturating_add(1);
    let mut text = String::new(alloc);
    push_line(&mut text, decl, line)?;
    write!(out, "<title>line {number}: ")?;
    push_escaped(out, &text)?;
    out.push_str("</title>")?;
    Ok(())
}

/// Appends the name of an operation at a place, if it fits in the width.
pub fn push_name<A: Allocator + Copy>(
    alloc: A,
    out: &mut String<A>,
    decl: &Decl<A>,
    op: OpId,
    (x, y, width): (u64, u64, u64),
) -> Result<(), OutOfMemory> {
    let mut name = String::new(alloc);
    push_operation(&mut name, decl, op)?;
    if (name.len() as u64).saturating_mul(7) > width {
        return Ok(());
    }
    write!(out, "<text x=\"{x}\" y=\"{y}\">")?;
    push_escaped(out, &name)?;
    out.push_str("</text>")?;
    Ok(())
}

/// What stands over the tick of a refused start: the number of the path that forbids it, or why else it is refused.
pub fn push_cause<A: Allocator + Copy>(
    out: &mut String<A>,
    reply: Reply,
) -> Result<(), OutOfMemory> {
    match reply {
        Reply::Blocked(path) => {
            let number = path.0;
            write!(out, "{number}")?;
        }
        Reply::NoRoom => out.push_str("room")?,
        _ => out.push_str("?")?,
    }
    Ok(())
}
