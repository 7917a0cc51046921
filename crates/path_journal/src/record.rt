//! From the first line of a text to a line of a journal.
//!
//! A line with a wrong reply is bad, whatever its attempt.

ghost use Rattle.std.specs.Prelude.{◌≡◌, ◌≢◌, length, IfOk, IfErr, IfSome, OnErr};
ghost use Rattle.path_lines.specs.LineTexts.{line_text, journal_line_text};
ghost use Rattle.path_lines.specs.AttemptTexts.{EntryFits, IsFirstLine, IsLineFault, IsNoEntry};
ghost use Rattle.path_journal.specs.JournalTexts.{LineFits};
ghost use Rattle.path_journal.specs.JournalFaults.{IsFirstRecordFault};

use crate::reply::{read_told, usual_told};
use path_decl::Decl;
use path_fields::{at_end, cut, until};
use path_lines::{LineFault, Recent, Stop, Wanted, first_entry, stop_at, usual_front};
use path_model::{Attempt, Line};
use std::alloc::Allocator;

/// A stop in the attempt of a line, behind which so many more bytes follow: where the attempt could end, a reply has to follow.
fn in_attempt(stop: Stop, behind: usize) -> Stop
    ensures { result.fault ≡ stop.fault }
{
    let wanted = match stop.wanted {
        Wanted::End => Wanted::Colon,
        wanted => wanted,
    };
    Stop {
        fault: stop.fault,
        left: stop.left.saturating_add(behind),
        wanted,
    }
}

/// The worker and the attempt of which these bytes are the whole text; so many more bytes follow in the line.
fn whole_entry<A: Allocator + Copy>(
    decl: &Decl<A>,
    text: &[u8],
    behind: usize,
) -> Result<(u32, Attempt), Stop>
    ensures ok { IfOk result (λ e. (text.now ≡ line_text decl.now.declaration e.0 e.1) × EntryFits e) }
    ensures err { OnErr result (IsNoEntry decl.now.declaration text.now) }
    ensures fault { IfErr result (λ stop. IsLineFault decl.now.declaration text.now stop.fault) }
{
    match first_entry(decl, text) {
        Ok(line) => {
            if line.length < text.len() {
                return Err(in_attempt(stop_at(&text[line.length..], Wanted::End), behind));
            }
            Ok((line.worker, line.attempt))
        }
        Err(stop) => {
            let stop = in_attempt(stop, behind);
            match cut(text, b'\n') {
                Some(_) => Err(Stop {
                    fault: LineFault::Bad,
                    ..stop
                }),
                None => Err(stop),
            }
        }
    }
}

/// The line of a journal in the first line of a text, and how many bytes it has without its line feed. The error says why there is
/// none, and where the line stops being one: in its attempt if that is none, else in its reply. Two passes over the attempt, one over
/// the reply; allocates nothing.
pub fn first_record<A: Allocator + Copy>(decl: &Decl<A>, text: &[u8]) -> Result<(Line, usize), Stop>
    ensures line { IfOk result (λ p. IsFirstLine (journal_line_text decl.now.declaration p.0) text.now) }
    ensures fits { IfOk result (λ p. LineFits p.0) }
    ensures length { IfOk result (λ p. p.1 ≡ length (journal_line_text decl.now.declaration p.0)) }
    ensures err { IfErr result (λ stop. IsFirstRecordFault decl.now.declaration text.now stop.fault) }
{
    let (front, told) = until(text, b':');
    let entry = whole_entry(decl, front, told.len());
    let (reply, rest) = match read_told(told) {
        Ok(read) => read,
        Err(stop) => return Err(Stop {
            fault: LineFault::Bad,
            ..entry.err().unwrap_or(stop)
        }),
    };
    let (worker, attempt) = entry?;
    let line = Line {
        worker,
        attempt,
        reply,
    };
    Ok((line, text.len() - rest.len()))
}

/// The same, if the line is in the form that nearly all have.
#[inline(always)]
fn usual_record<A: Allocator + Copy>(
    decl: &Decl<A>,
    recent: &Recent,
    text: &[u8],
) -> Option<(Line, usize)>
    ensures line { IfSome result (λ p. IsFirstLine (journal_line_text decl.now.declaration p.0) text.now) }
    ensures fits { IfSome result (λ p. LineFits p.0) }
    ensures length { IfSome result (λ p. p.1 ≡ length (journal_line_text decl.now.declaration p.0)) }
{
    let (worker, attempt, told) = usual_front(decl, recent, text, b':')?;
    let (reply, rest) = usual_told(told)?;
    let rest = at_end(rest)?;
    let line = Line {
        worker,
        attempt,
        reply,
    };
    Some((line, text.len() - rest.len()))
}

/// The same as [`first_record`], and quicker where the line is in the usual form. Names that were read are noted.
#[inline(always)]
pub fn next_record<A: Allocator + Copy>(
    decl: &Decl<A>,
    recent: &mut Recent,
    text: &[u8],
) -> Result<(Line, usize), Stop>
    ensures line { IfOk result (λ p. IsFirstLine (journal_line_text decl.now.declaration p.0) text.now) }
    ensures fits { IfOk result (λ p. LineFits p.0) }
    ensures length { IfOk result (λ p. p.1 ≡ length (journal_line_text decl.now.declaration p.0)) }
    ensures err { IfErr result (λ stop. IsFirstRecordFault decl.now.declaration text.now stop.fault) }
{
    if let Some(record) = usual_record(decl, recent, text) {
        return Ok(record);
    }
    let (line, length) = first_record(decl, text)?;
    recent.note(decl, line.attempt);
    Ok((line, length))
}
