//! The first lines of a head: what it says of its file and of the files before.

ghost use Rattle.std.specs.Prelude.{◌≡◌, ◌≢◌, ◌++◌, ◌∷◌, ℕ, List, Option, IfSome, IfNone, OnErr, IfOk};
ghost use Rattle.std.specs.Bool.{OnTrue, OnFalse};
ghost use Rattle.hex.specs.Hex.{encode_lower};
ghost use Rattle.sha2.specs.Sha256.{sha256};
ghost use Rattle.path_model.specs.Rooms.{IsRoom};
ghost use Rattle.path_head.specs.declared.hash.Sum.{Sum};
ghost use Rattle.path_head.specs.declared.front.Counts.{Counts};
ghost use Rattle.path_head.specs.declared.front.Front.{Front};
ghost use Rattle.path_head.specs.HeadTexts.{room_before, counts_before, link_before, front_before};
ghost use Rattle.path_head.specs.HeadTexts.{CountsFit, LinkFits, IsLinked, FrontFits};

use crate::hash::{Sum, digits_of, first_sum};
use crate::number::number_before;
use path_fields::strip;
use path_model::MOST_LINES;
use sha2::{Digest, Sha256};

/// What there was in the files before.
#[derive(Clone, Copy, Debug, PartialEq, Eq)]
pub struct Counts {
    /// How many lines.
    pub lines: u64,
    /// How many of them admitted starts.
    pub starts: u64,
    /// The highest number of a worker who made one of them; 0 if there is none.
    pub highest: u32,
    /// How many files.
    pub files: u64,
}

/// What a head says of its file and of the files before.
#[derive(Clone, Copy, Debug, PartialEq, Eq)]
pub struct Front {
    /// The room of the journal, 1 to [`MOST_LINES`].
    pub room: u32,
    /// What there was in the files before.
    pub before: Counts,
    /// The SHA-256 of all bytes of the file before; `None` in the first.
    pub link: Option<Sum>,
}

/// What follows a line that is this word and the SHA-256 of these bytes.
pub(crate) fn sum_line<'a>(text: &'a [u8], word: &[u8], of: &[u8]) -> Option<&'a [u8]>
    ensures some { IfSome result (λ rest. text.now ≡ word.now ++ (encode_lower (sha256 of.now) ++ 10 ∷ rest.now)) }
    ensures none { IfNone result ((rest : List ℕ) → text.now ≢ word.now ++ (encode_lower (sha256 of.now) ++ 10 ∷ rest)) }
{
    let sum = Sha256::digest(of);
    let digits = digits_of(sum);
    let rest = strip(text, word)?;
    let rest = strip(rest, &digits[..])?;
    let rest = strip(rest, b"\n")?;
    Some(rest)
}

/// The room of the first line, and what follows the line.
fn room_line(text: &[u8]) -> Option<(u32, &[u8])>
    ensures some { IfSome result (λ p. (text.now ≡ room_before p.0 p.1.now) × IsRoom p.0) }
    ensures none { IfNone result ((room : ℕ) (rest : List ℕ) → IsRoom room → text.now ≢ room_before room rest) }
{
    let rest = strip(text, b"journal 4 room ")?;
    let (room, rest) = number_before(rest, u64::from(MOST_LINES), b"\n")?;
    if room == 0 {
        return None;
    }
    Some((room as u32, rest))
}

/// The counts of a line, and what follows the line.
fn counts_line(text: &[u8]) -> Option<(Counts, &[u8])>
    ensures some { IfSome result (λ p. (text.now ≡ counts_before p.0 p.1.now) × CountsFit p.0) }
    ensures none { IfNone result ((c : Counts) (rest : List ℕ) → CountsFit c → text.now ≢ counts_before c rest) }
{
    let rest = strip(text, b"after ")?;
    let (lines, rest) = number_before(rest, u64::MAX, b" lines ")?;
    let (starts, rest) = number_before(rest, u64::MAX, b" starts ")?;
    let (highest, rest) = number_before(rest, 4_294_967_295, b" workers ")?;
    let (files, rest) = number_before(rest, u64::MAX, b" files\n")?;
    let counts = Counts {
        lines,
        starts,
        highest: highest as u32,
        files,
    };
    Some((counts, rest))
}

/// The link of a line, and what follows the line; without a link, what follows the line of the declaration.
fn link_line<'a>(print: &[u8], text: &'a [u8]) -> Option<(Option<Sum>, &'a [u8])>
    ensures some { IfSome result (λ p. (text.now ≡ link_before print.now p.0 p.1.now) × LinkFits p.0) }
    ensures none { IfNone result ((link : Option Sum) (rest : List ℕ) → LinkFits link → text.now ≢ link_before print.now link rest) }
{
    let rest = strip(text, b"link ")?;
    if let Some((sum, rest)) = first_sum(rest) {
        let rest = strip(rest, b"\n")?;
        return Some((Some(sum), rest));
    }
    let rest = strip(rest, b"-\ndeclares ")?;
    let rest = strip(rest, print)?;
    let rest = strip(rest, b"\n")?;
    Some((None, rest))
}

/// Whether there is a link exactly if there were files before.
fn is_linked(files: u64, link: Option<Sum>) -> bool
    ensures yes { OnTrue result (IsLinked files link) }
    ensures no { OnFalse result (IsLinked files link → ⊥) }
{
    match link {
        None => files == 0,
        Some(_) => files > 0,
    }
}

/// The first lines of a head, and what follows them; else the number of the line that is none of them.
pub(crate) fn front_lines<'a>(print: &[u8], text: &'a [u8]) -> Result<(Front, &'a [u8]), usize>
    ensures ok { IfOk result (λ p. (text.now ≡ front_before print.now p.0 p.1.now) × FrontFits p.0) }
    ensures err { OnErr result ((f : Front) (rest : List ℕ) → FrontFits f → text.now ≢ front_before print.now f rest) }
{
    let Some((room, rest)) = room_line(text) else {
        return Err(0);
    };
    let Some(rest) = sum_line(rest, b"of ", print) else {
        return Err(1);
    };
    let Some((before, rest)) = counts_line(rest) else {
        return Err(2);
    };
    let Some((link, rest)) = link_line(print, rest) else {
        return Err(3);
    };
    if !is_linked(before.files, link) {
        return Err(3);
    }
    let front = Front { room, before, link };
    Ok((front, rest))
}
