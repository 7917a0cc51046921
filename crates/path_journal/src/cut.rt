//! Texts of journals that may end anywhere.

ghost use Rattle.std.specs.Prelude.{◌≡◌, ◌≢◌, ℕ, ◌+◌, ◌<◌, ◌≤◌, ◌↔◌, ◌++◌, ◌∷◌, Bool, true, false, List, length, vec_len};
ghost use Rattle.std.specs.Prelude.{IfOk, IfErr, IfSome, IfNone, IsErrOf, All};
ghost use Rattle.std.specs.Bool.{OnTrue, OnFalse};
ghost use Rattle.path_model.specs.declared.journal.Line.{Line};
ghost use Rattle.path_lines.specs.declared.texts.TextFault.TheVariants as faults;
ghost use Rattle.path_journal.specs.declared.version.Version.{Version};
ghost use Rattle.path_journal.specs.declared.version.Version.TheVariants.{One};
ghost use Rattle.path_journal.specs.JournalTexts.{LineFits, journal_line, Kept, KeptFits, kept_line, kept_text};
ghost use Rattle.path_journal.specs.JournalFaults.{HasUndeclaredFirst, BeginsNoLine, BeginsUndeclared};
ghost use Rattle.path_journal.specs.CutTexts.{AreLinesRead, HasLineBehind, IsDamage};
ghost use Rattle.path_journal.specs.CutTexts.{front_of, VersionFits, HasNoHead, IsCutJournal, IsCutFault, IsNoCutJournal};

use crate::head::{read_head, read_kept_head};
use crate::record::{first_record, next_record};
use crate::version::{CutText, Version};
use path_decl::Decl;
use path_fields::{cut, strip};
use path_lines::{LIMIT, LineFault, Recent, TextFault, fault_at};
use path_model::Line;
use std::alloc::Allocator;

/// The line without a mark that a text begins with, and what follows its line feed; `None` if it begins with none.
fn plain_line<'a, A: Allocator + Copy>(
    decl: &Decl<A>,
    recent: &mut Recent,
    text: &'a [u8],
) -> Option<(Line, &'a [u8])>
    ensures fits { IfSome result (λ p. LineFits p.0) }
    ensures parts { IfSome result (λ p. text.now ≡ journal_line decl.now.declaration p.0 ++ p.1.now) }
    ensures none { IfNone result ((l : Line) (after : List ℕ) → LineFits l → text.now ≢ journal_line decl.now.declaration l ++ after) }
{
    let Ok((line, length)) = next_record(decl, recent, text) else {
        return None;
    };
    let Some(after) = strip(&text[length..], b"\n") else {
        return None;
    };
    Some((line, after))
}

/// The line that a text begins with, and what follows its line feed; `None` if it begins with none. With marks, a `+` may precede it.
fn whole_line<'a, A: Allocator + Copy>(
    decl: &Decl<A>,
    recent: &mut Recent,
    text: &'a [u8],
    marks: bool,
) -> Option<(Line, &'a [u8])>
    ensures some { IfSome result (λ p. (m : Bool) × KeptFits marks (m, p.0)
        × (text.now ≡ kept_line decl.now.declaration (m, p.0) ++ p.1.now)) }
    ensures shorter { IfSome result (λ p. length p.1.now < length text.now) }
    ensures none { IfNone result (BeginsNoLine decl.now.declaration marks text.now) }
{
    if marks {
        if let Some(behind) = strip(text, b"+") {
            return plain_line(decl, recent, behind);
        }
    }
    plain_line(decl, recent, text)
}

/// The lines that a text begins with, each with its line feed, and what follows the last.
pub fn whole_lines<'a, A: Allocator + Copy, B: Allocator + Copy>(
    alloc: B,
    decl: &Decl<A>,
    text: &'a [u8],
    marks: bool,
) -> Result<(Vec<Line, B>, &'a [u8]), TextFault>
    ensures read { IfOk result (λ p. AreLinesRead decl.now.declaration marks text.now p.0.items p.1.now) }
    ensures few { IfOk result (λ p. vec_len p.0 + length p.1.now ≤ length text.now) }
    ensures memory { IfErr result (λ e. e ≡ faults.OutOfMemory) }
    ensures end { IfOk result (λ p. BeginsNoLine decl.now.declaration marks p.1.now) }
{
    let mut lines = Vec::new(alloc);
    let mut recent = Recent::new();
    let mut rest = text;
    while let Some((line, after)) = whole_line(decl, &mut recent, rest, marks) {
        lines.push(line)?;
        rest = after;
    }
    Ok((lines, rest))
}

/// Whether a line without a mark stands somewhere behind a line feed, with its own.
fn has_line_behind<A: Allocator + Copy>(decl: &Decl<A>, text: &[u8]) -> bool
    ensures yes { OnTrue result (HasLineBehind decl.now.declaration text.now) }
    ensures no { OnFalse result (HasLineBehind decl.now.declaration text.now → ⊥) }
{
    let mut recent = Recent::new();
    let mut rest = text;
    while let Some((_, after)) = cut(rest, b'\n') {
        if plain_line(decl, &mut recent, after).is_some() {
            return true;
        }
        rest = after;
    }
    false
}

/// Whether the text begins with a line without a mark that has its line feed, and is right except for the name that it starts.
fn plain_undeclared<A: Allocator + Copy>(decl: &Decl<A>, text: &[u8]) -> bool
    ensures yes { OnTrue result (HasUndeclaredFirst decl.now.declaration text.now) }
    ensures no { OnFalse result (HasUndeclaredFirst decl.now.declaration text.now → ⊥) }
{
    let Some((line, _)) = cut(text, b'\n') else {
        return false;
    };
    match first_record(decl, line) {
        Err(stop) => stop.fault == LineFault::Undeclared,
        Ok(_) => false,
    }
}

/// Whether the text begins with a line that has its line feed, and is right except for the name that it starts.
pub fn begins_undeclared<A: Allocator + Copy>(decl: &Decl<A>, text: &[u8], marks: bool) -> bool
    ensures yes { OnTrue result (BeginsUndeclared decl.now.declaration marks text.now) }
    ensures no { OnFalse result (BeginsUndeclared decl.now.declaration marks text.now → ⊥) }
{
    if marks {
        if let Some(behind) = strip(text, b"+") {
            return plain_undeclared(decl, behind);
        }
    }
    plain_undeclared(decl, text)
}

/// Why what follows the whole lines of a text isn't a torn end; `None` if it is one.
fn damage_of<A: Allocator + Copy>(decl: &Decl<A>, rest: &[u8], marks: bool) -> Option<LineFault>
    ensures undeclared { IfNone result (BeginsUndeclared decl.now.declaration marks rest.now → ⊥) }
    ensures behind { IfNone result (HasLineBehind decl.now.declaration rest.now → ⊥) }
    ensures some { IfSome result (λ fault. IsDamage decl.now.declaration marks rest.now fault) }
{
    if begins_undeclared(decl, rest, marks) {
        return Some(LineFault::Undeclared);
    }
    if has_line_behind(decl, rest) {
        return Some(LineFault::Bad);
    }
    None
}

/// A version, and what follows the line feed with which a text begins.
fn behind_feed(version: Version, text: &[u8]) -> Option<(Version, &[u8])>
    ensures some { IfSome result (λ p. (p.0 ≡ version) × (text.now ≡ 10 ∷ p.1.now)) }
    ensures none { IfNone result ((after : List ℕ) → text.now ≢ 10 ∷ after) }
{
    let body = strip(text, b"\n")?;
    Some((version, body))
}

/// The version that the whole first line of a text names, and what follows its line feed; `None` if no head stands there whole.
fn whole_head(text: &[u8]) -> Option<(Version, &[u8])>
    ensures fits { IfSome result (λ p. VersionFits p.0 × (p.0 ≢ One)) }
    ensures parts { IfSome result (λ p. text.now ≡ front_of p.0 ++ p.1.now) }
    ensures none { IfNone result (HasNoHead text.now) }
{
    match read_head(text) {
        Ok((room, rest)) => behind_feed(Version::Two(room), rest),
        Err(_) => match read_kept_head(text) {
            Ok((room, rest)) => behind_feed(Version::Three(room), rest),
            Err(_) => None,
        },
    }
}

/// The version of a text, and what follows its head. A text without a whole head is of version 1.
fn version_of(text: &[u8]) -> (Version, &[u8])
    ensures fits { VersionFits result.0 }
    ensures no_head { result.0 ≡ One → HasNoHead text.now }
    ensures parts { text.now ≡ front_of result.0 ++ result.1.now }
{
    match whole_head(text) {
        Some(found) => found,
        None => (Version::One, text),
    }
}

/// The version of a text, by its first line if that has its line feed; a text that begins with no whole head is of version 1. Whoever opens
/// a file again finds the room of its journal so. A few passes over the first line; allocates nothing.
pub fn version_in(text: &[u8]) -> Version
    ensures fits { VersionFits result }
    ensures no_head { result ≡ One → HasNoHead text.now }
    ensures head { (body : List ℕ) × (text.now ≡ front_of result ++ body) }
{
    let (version, _) = version_of(text);
    version
}

/// Reads a journal, of any version, in a text that may end anywhere: it may be cut, or end with what a crash left there, as zeros or an
/// old block. The lines that are read are those whose line feed is before that, and the result says in how many bytes they stand. A text
/// whose first line is cut has no lines.
///
/// What follows the last whole line is no torn end where a whole line stands behind it, except for one that begins with `+` in
/// version 3, nor where it is right but for a name that isn't declared. Then the text is refused, with the place of the broken line:
/// `BadLine`, or `Undeclared` for a name; the head is line 0. Fails with `TooLong` exactly when the text has more than [`LIMIT`] bytes, and
/// with `OutOfMemory` if allocation fails. Two passes over the lines, and two over what follows them.
pub fn read_cut<A: Allocator + Copy, B: Allocator + Copy>(
    alloc: B,
    decl: &Decl<A>,
    text: &[u8],
) -> Result<CutText<B>, TextFault>
    ensures ok { IfOk result (λ j. IsCutJournal decl.now.declaration text.now j.version j.lines.items j.bytes) }
    // A text has one such journal.
    ensures one { IfOk result (λ j. (version : Version) (ls : List Line) (bytes : ℕ)
        → IsCutJournal decl.now.declaration text.now version ls bytes → (version ≡ j.version) × (ls ≡ j.lines.items) × (bytes ≡ j.bytes)) }
    ensures err { IfErr result (λ e. IsCutFault decl.now.declaration text.now e) }
    ensures too_long { IsErrOf result faults.TooLong ↔ (134217728 < length text.now) }
    // Any error but TooLong and OutOfMemory: the text isn't such a journal.
    ensures none { IfErr result (λ e. e ≢ faults.TooLong → e ≢ faults.OutOfMemory → IsNoCutJournal decl.now.declaration text.now) }
{
    if text.len() > LIMIT {
        return Err(TextFault::TooLong);
    }
    let (version, body) = version_of(text);
    let marks = version.has_marks();
    let (lines, rest) = whole_lines(alloc, decl, body, marks)?;
    if let Some(fault) = damage_of(decl, rest, marks) {
        return Err(fault_at(version.heads() + lines.len() as u32, fault));
    }
    Ok(CutText {
        version,
        lines,
        bytes: text.len() - rest.len(),
    })
}
