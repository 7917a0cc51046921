//! A fault, told to people.

use crate::likely::Likely;
use crate::places::{Spot, boundary, goes_on};
use crate::wording::Wrong;
use path_model::OutOfMemory;
use std::alloc::{Allocator, Global};

/// The most bytes of a line that are shown before a place, and from it on.
const SHOWN: usize = 100;

/// Where a text is at fault, and why.
#[derive(Drop)]
pub struct Finding<'a, A: Allocator + Copy = Global> {
    /// Where.
    pub spot: Spot<'a>,
    /// What is wrong there.
    pub wrong: Wrong,
    /// What could stand there instead; empty if that can't be said in few words.
    pub wanted: String<A>,
    /// The declared name that is nearest to an undeclared one; empty if none is near.
    pub nearest: String<A>,
    /// The likely cause, if what stands there tells it.
    pub likely: Option<Likely>,
}

/// How a character of the text is shown: as itself, a tab too; any other that controls how text is laid out by a sign for it.
fn shown(sign: char) -> char {
    match sign {
        '\t' => '\t',
        '\r' => '\u{240d}',
        '\0'..='\u{1f}'
        | '\u{7f}'..='\u{9f}'
        | '\u{200e}'..='\u{200f}'
        | '\u{2028}'..='\u{202e}'
        | '\u{2066}'..='\u{2069}'
        | '\u{feff}' => '\u{fffd}',
        _ => sign,
    }
}

/// Appends a text that is UTF-8.
fn push_text<A: Allocator + Copy>(out: &mut String<A>, text: &str) -> Result<(), OutOfMemory> {
    for sign in text.chars() {
        out.push(shown(sign))?;
    }
    Ok(())
}

/// Appends bytes that aren't UTF-8: each that doesn't go on with a character is shown by one.
fn push_bytes<A: Allocator + Copy>(out: &mut String<A>, bytes: &[u8]) -> Result<(), OutOfMemory> {
    for byte in bytes {
        if !goes_on(*byte) {
            let sign = if *byte < 128 {
                char::from(*byte)
            } else {
                '\u{fffd}'
            };
            out.push(shown(sign))?;
        }
    }
    Ok(())
}

/// Appends a part of a line: as many characters as it has columns.
fn push_part<A: Allocator + Copy>(out: &mut String<A>, part: &[u8]) -> Result<(), OutOfMemory> {
    match std::str::from_utf8(part) {
        Ok(text) => push_text(out, text),
        Err(_) => push_bytes(out, part),
    }
}

/// Appends what leads to the carets: a space for each character, but a tab for a tab.
fn push_lead<A: Allocator + Copy>(out: &mut String<A>, before: &[u8]) -> Result<(), OutOfMemory> {
    for byte in before {
        if !goes_on(*byte) {
            out.push(if *byte == b'\t' { '\t' } else { ' ' })?;
        }
    }
    Ok(())
}

/// The part of the line before the place that is shown, and the part from the place on.
fn parts<'a>(spot: &Spot<'a>) -> (&'a [u8], &'a [u8]) {
    let start = boundary(spot.text, spot.at.saturating_sub(SHOWN));
    let end = boundary(spot.text, spot.at.saturating_add(SHOWN));
    let before = spot.text.get(start..spot.at).unwrap_or(&[]);
    let rest = spot.text.get(spot.at..end).unwrap_or(&[]);
    (before, rest)
}

/// Appends the line and the carets below the token.
fn push_line<A: Allocator + Copy>(out: &mut String<A>, spot: &Spot<'_>) -> Result<(), OutOfMemory> {
    let (before, rest) = parts(spot);
    push_part(out, before)?;
    push_part(out, rest)?;
    out.push('\n')?;
    push_lead(out, before)?;
    for _ in 0..spot.carets().min(SHOWN) {
        out.push('^')?;
    }
    out.push('\n')?;
    Ok(())
}

/// Appends a line with a text and what it is; nothing if the text is empty.
fn push_told<A: Allocator + Copy>(
    out: &mut String<A>,
    what: &str,
    text: &str,
) -> Result<(), OutOfMemory> {
    if !text.is_empty() {
        write!(out, "{what}{text}\n")?;
    }
    Ok(())
}

/// Appends what a finding says, in three lines and up to three more: `FILE:LINE:COLUMN: ` and what is wrong; the line; a caret below each
/// character of the token; what could stand there; the nearest name; the likely cause. Lines and columns count from 1, and columns are
/// characters: bytes that don't go on with one. A tab leads on to the carets as a tab; other control characters, and what isn't
/// UTF-8, are shown by signs. Of a line, the 100 bytes before the place and the 100 from it on are shown, in whole characters.
///
/// Fails only if allocation fails; what the text contains then isn't specified.
pub fn push_finding<A: Allocator + Copy>(
    out: &mut String<A>,
    name: &str,
    finding: &Finding<'_, A>,
) -> Result<(), OutOfMemory> {
    let (line, column, wrong) = (finding.spot.line, finding.spot.column(), finding.wrong);
    write!(out, "{name}:{line}:{column}: {wrong}\n")?;
    push_line(out, &finding.spot)?;
    push_told(out, "expected ", &finding.wanted)?;
    push_told(out, "nearest name: ", &finding.nearest)?;
    match finding.likely {
        Some(likely) => Ok(writeln!(out, "likely: {likely}")?),
        None => Ok(()),
    }
}
