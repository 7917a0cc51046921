//! Likely causes that a byte tells.

use crate::places::Spot;
use path_lines::{REPLIES, spelled, word};
use std::fmt;
use std::fmt::Display;

/// A likely cause of a fault.
#[derive(Clone, Copy, Debug, PartialEq, Eq)]
pub enum Likely {
    /// The text begins with the bytes of a byte order mark.
    ByteOrderMark,
    /// A carriage return stands there.
    CarriageReturn,
    /// A tab stands there.
    Tab,
    /// The line is blank.
    BlankLine,
    /// A word is written with capitals.
    UpperCase,
    /// A number begins with 0.
    LeadingZero,
    /// A space stands there.
    Space,
    /// The token has a byte past ASCII.
    PastAscii,
    /// A comment begins there, as other languages have them.
    Comment,
    /// A name has a sign in it that names don't have.
    Sign,
    /// An operation or a path stands outside of a resource.
    OutsideResource,
    /// This word of the language is misspelled.
    Misspelled(&'static str),
}

/// The cause, and what to do about it.
impl Display for Likely {
    fn fmt<W: fmt::Write>(&self, f: &mut fmt::Formatter<W>) -> fmt::Result {
        let words = match *self {
            Likely::Misspelled(word) => return write!(f, "a misspelled `{word}`"),
            Likely::ByteOrderMark => "the file begins with a byte order mark; save it without one",
            Likely::CarriageReturn => "a carriage return; save the file with line feeds alone",
            Likely::Tab => "a tab; write one space",
            Likely::BlankLine => "a blank line; take it out",
            Likely::UpperCase => "capital letters; write the word in small ones",
            Likely::LeadingZero => "a number with a leading zero; write it without",
            Likely::Space => "a space too many",
            Likely::PastAscii => "a character that isn't ASCII",
            Likely::Comment => "a comment; there are none, so take it out",
            Likely::Sign => "a name has letters, digits and _, and begins with a letter",
            Likely::OutsideResource => {
                "a path stands in a resource, as in `resource r cell operation a, b path a ; b end end`"
            }
        };
        f.write_str(words)
    }
}

/// The words of the languages that have no capitals, but for those of replies.
const WORDS: &[&str] = &[
    "start",
    "use",
    "finish",
    "put",
    "take",
    "look",
    "add",
    "process",
    "enter",
    "leave",
    "end",
    "resource",
    "operation",
    "path",
    "cell",
    "tally",
    "queue",
    "journal",
    "room",
];

/// Whether these bytes are this word, but for capitals.
fn is_in_capitals(token: &[u8], word: &[u8]) -> bool {
    word != token && word.eq_ignore_ascii_case(token)
}

/// Whether these bytes are a word of the languages or the first of a reply, but for capitals.
fn is_word_in_capitals(token: &[u8]) -> bool {
    WORDS
        .iter()
        .any(|known| is_in_capitals(token, known.as_bytes()))
        || REPLIES.iter().any(|reply| is_in_capitals(token, word(spelled(*reply).0.as_bytes()).0))
}

/// Whether these bytes begin with 0 and a digit.
fn has_leading_zero(token: &[u8]) -> bool {
    match token {
        [b'0', second, ..] => second.is_ascii_digit(),
        _ => false,
    }
}

/// Whether a name can have this byte behind its first.
fn is_of_a_name(byte: u8) -> bool {
    byte.is_ascii_alphanumeric() || byte == b'_'
}

/// Whether a comment begins here: with `#`, but not with a number behind it, which is how an undeclared operation is written; or with `//`
/// or `--`.
fn begins_comment(rest: &[u8]) -> bool {
    match rest {
        [b'#', second, ..] => !second.is_ascii_digit(),
        [b'#'] | [b'/', b'/', ..] | [b'-', b'-', ..] => true,
        _ => false,
    }
}

/// Whether the token is a name but for a sign, or the place is such a sign behind the letters of a name.
fn is_name_with_sign(before: &[u8], token: &[u8]) -> bool {
    let follows_name = before.last().is_some_and(|byte| is_of_a_name(*byte));
    let begins = token.first().is_some_and(|byte| byte.is_ascii_alphabetic());
    let has_sign = token
        .iter()
        .any(|byte| byte.is_ascii_graphic() && !is_of_a_name(*byte));
    has_sign && (begins || follows_name)
}

/// What a token of one byte tells that is white space.
fn told_by(byte: u8) -> Option<Likely> {
    match byte {
        b'\r' => Some(Likely::CarriageReturn),
        b'\t' => Some(Likely::Tab),
        b' ' => Some(Likely::Space),
        _ => None,
    }
}

/// The likely cause of a fault at this place, if a byte there tells it. One pass over the line.
pub fn likely_at(spot: &Spot<'_>) -> Option<Likely> {
    let rest = spot.text.get(spot.at..).unwrap_or(&[]);
    let token = spot.token();
    if spot.line == 1 && spot.at < 3 && spot.text.starts_with(b"\xef\xbb\xbf") {
        return Some(Likely::ByteOrderMark);
    }
    if has_leading_zero(token) {
        return Some(Likely::LeadingZero);
    }
    if is_word_in_capitals(token) {
        return Some(Likely::UpperCase);
    }
    if !token.is_ascii() {
        return Some(Likely::PastAscii);
    }
    if is_blank(spot.text) {
        return Some(Likely::BlankLine);
    }
    if begins_comment(rest) {
        return Some(Likely::Comment);
    }
    if is_name_with_sign(spot.text.get(..spot.at).unwrap_or(&[]), token) {
        return Some(Likely::Sign);
    }
    told_by(*rest.first()?)
}

/// Whether a line has nothing but spaces and tabs.
fn is_blank(line: &[u8]) -> bool {
    line.iter().all(|byte| matches!(*byte, b' ' | b'\t'))
}
