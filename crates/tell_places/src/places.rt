//! Lines and columns.

ghost use Rattle.std.specs.Prelude.{◌≡◌, ℕ, ◌+◌, ◌<◌, ◌≤◌, ◌^◌, List, IfNone, IfSome, length, min};
ghost use Rattle.tell_places.specs.Places.{IsBehind, IsSpotAt, IsSpotBehind};

use path_fields::{cut, until};

/// A place in a text.
#[derive(Clone, Copy, Debug)]
pub struct Spot<'a> {
    /// The number of the line, from 1.
    pub line: usize,
    /// The bytes of the line, without its line feed.
    pub text: &'a [u8],
    /// How many bytes of the line precede the place.
    pub at: usize,
    /// How many bytes of the line the token has that begins there; 0 at the end of the line.
    pub width: usize,
}

/// Whether a byte ends a token: white space, or a sign of the languages.
fn ends_token(byte: u8) -> bool {
    matches!(
        byte,
        b' ' | b'\t' | b'\r' | b'\n' | b';' | b',' | b':' | b'(' | b')' | b'{' | b'}'
    )
}

/// How many bytes the token at the beginning of a line has: up to the next white space or sign, but at least one if there is one.
fn token_width(rest: &[u8]) -> usize {
    match rest.iter().position(|byte| ends_token(*byte)) {
        Some(0) => 1,
        Some(width) => width,
        None => rest.len(),
    }
}

/// The place behind so many bytes of a line, which so many lines precede.
fn spot_on(lines: usize, line: &[u8], at: usize) -> Spot<'_>
    requires few { lines + 1 < 2 ^ 64 }
    requires within { at ≤ length line.now }
    ensures number { result.line ≡ lines + 1 }
    ensures bytes { result.text.now ≡ line.now }
    ensures place { result.at ≡ at }
{
    Spot {
        line: lines + 1,
        text: line,
        at,
        width: token_width(&line[at..]),
    }
}

/// The place of the byte with this offset; of the end of the text if there is none. One pass over the text up to the end of its line.
pub fn spot_at(text: &[u8], offset: usize) -> Spot<'_>
    ensures { IsSpotAt text.now (min offset (length text.now)) result }
{
    let mut lines = 0usize;
    let mut rest = text;
    let mut left = offset.min(text.len());
    while let Some((line, after)) = cut(rest, b'\n') {
        if left <= line.len() {
            return spot_on(lines, line, left);
        }
        lines += 1;
        left -= line.len() + 1;
        rest = after;
    }
    spot_on(lines, rest, left)
}

/// What follows so many lines of a text; `None` if it has fewer line feeds. One pass over these lines.
pub fn behind(text: &[u8], lines: u32) -> Option<&[u8]>
    ensures some { IfSome result (λ rest. IsBehind text.now lines rest.now) }
    ensures none { IfNone result ((rest : List ℕ) → IsBehind text.now lines rest → ⊥) }
{
    let mut count = 0;
    let mut rest = text;
    while count < lines {
        let (_, after) = cut(rest, b'\n')?;
        rest = after;
        count += 1;
    }
    Some(rest)
}

/// The place on the line behind so many others, where so many bytes of that line are left; the end of the text if it has no such line.
/// A pass over the text up to the end of the line.
pub fn spot_behind(text: &[u8], lines: u32, left: usize) -> Spot<'_>
    ensures { IsSpotBehind text.now lines result }
{
    match behind(text, lines) {
        Some(rest) => {
            let (line, _) = until(rest, b'\n');
            spot_on(lines as usize, line, line.len().saturating_sub(left))
        }
        None => spot_at(text, text.len()),
    }
}

/// Whether a byte goes on with a character of several bytes.
pub fn goes_on(byte: u8) -> bool {
    byte & 0xc0 == 0x80
}

/// The first place from this one on at which a character of the text begins; the end of the text if there is none.
pub fn boundary(text: &[u8], at: usize) -> usize {
    match text.iter().skip(at).position(|byte| !goes_on(*byte)) {
        Some(more) => at.saturating_add(more),
        None => text.len(),
    }
}

/// How many characters these bytes have: bytes that don't go on with one.
pub fn columns(bytes: &[u8]) -> usize {
    bytes.iter().filter(|byte| !goes_on(**byte)).count()
}

impl<'a> Spot<'a> {
    /// The bytes of the token.
    pub fn token(&self) -> &'a [u8] {
        let end = self.at.saturating_add(self.width);
        self.text.get(self.at..end).unwrap_or(&[])
    }

    /// The column, from 1, in characters.
    pub fn column(&self) -> usize {
        let before = self.text.get(..self.at).unwrap_or(self.text);
        columns(before).saturating_add(1)
    }

    /// How many characters the token has, at least 1.
    pub fn carets(&self) -> usize {
        columns(self.token()).max(1)
    }
}
