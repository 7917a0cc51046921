//! The room that a journal lacks.

use crate::journal::examined;
use path_audit::{Examined, Wrong};
use path_decl::Decl;
use path_journal::read_journal;
use path_model::{Line, MOST_LINES, OutOfMemory, Reply};
use path_read::read;
use std::alloc::Allocator;

/// How many of the lines are right.
fn right_lines<A: Allocator + Copy>(examined: &Examined<A>, lines: &[Line]) -> usize {
    match examined.wrong() {
        Some(wrong) => wrong.line as usize,
        None => lines.len(),
    }
}

/// How far the lines of a journal are right in a room.
#[derive(Clone, Copy)]
struct Reach {
    /// How many of the lines are right.
    right: usize,
    /// How many places these take, with one for each activation that is live behind them.
    places: usize,
}

/// How far these lines are right in this room.
fn reach_in<A: Allocator + Copy>(
    alloc: A,
    decl: &Decl<A>,
    lines: &[Line],
    room: u32,
) -> Result<Reach, OutOfMemory> {
    let Ok(tried) = examined(alloc, decl, room, lines) else {
        return Err(OutOfMemory);
    };
    let right = right_lines(&tried, lines);
    let live = tried.live(alloc)?.len();
    Ok(Reach {
        right,
        places: right.saturating_add(live),
    })
}

/// The least room in which more than `right` lines are right, and as many as in the largest; `None` if there is none.
///
/// It has a place for each of these lines and for each activation that is live behind them, and one more if the last line that wanted
/// places is a refused start, which wants two and takes one. The replay has gone on past the first wrong line, where one activation more
/// or less may be live. So there are four rooms to try.
fn least_room<A: Allocator + Copy>(
    alloc: A,
    decl: &Decl<A>,
    lines: &[Line],
    right: usize,
) -> Result<Option<u32>, OutOfMemory> {
    let largest = reach_in(alloc, decl, lines, MOST_LINES)?;
    if largest.right <= right {
        return Ok(None);
    }
    let taken = u32::try_from(largest.places).unwrap_or(MOST_LINES);
    let least = taken.saturating_sub(1).max(1);
    for room in least..MOST_LINES.min(taken.saturating_add(3)) {
        if reach_in(alloc, decl, lines, room)?.right == largest.right {
            return Ok(Some(room));
        }
    }
    Ok(Some(MOST_LINES))
}

/// In which room a wrong line that lacked a place would be right; nothing of any other line.
pub fn room_hint<A: Allocator + Copy>(
    alloc: A,
    decl: &Decl<A>,
    lines: &[Line],
    wrong: Wrong,
) -> Result<String<A>, OutOfMemory> {
    let mut text = String::new(alloc);
    if let Reply::NoRoom = wrong.owed {
        match least_room(alloc, decl, lines, wrong.line as usize)? {
            Some(room) => writeln!(
                text,
                "   right with --room {room}, or with that room in its head"
            )?,
            None => text.push_str("   wrong in any room\n")?,
        }
    }
    Ok(text)
}

/// A journal that is full at its first wrong line, which is right in a larger room.
#[derive(Clone, Copy, Debug, PartialEq, Eq)]
pub struct FullJournal {
    /// The number of that line in the text, from 1, where a head is line 1.
    pub line: u32,
    /// The journal's room.
    pub room: u32,
    /// Whether the head of the text names it.
    pub is_named: bool,
    /// The least room in which as many lines are right as in the largest.
    pub enough: u32,
}

/// Where the journal in a text is full, in a room of `room` lines unless its head names one; `None` if its first wrong line wants more than
/// room, and also if no line is wrong, a text is refused, or memory is wanting. The cost is that of six audits at most.
pub fn full_journal<A: Allocator + Copy>(
    alloc: A,
    declaration: &[u8],
    room: u32,
    text: &[u8],
) -> Option<FullJournal> {
    let decl = read(alloc, declaration).ok()?;
    let journal = read_journal(alloc, &decl, text).ok()?;
    let is_named = journal.room.is_some();
    let room = journal.room.unwrap_or(room);
    let wrong = examined(alloc, &decl, room, &journal.lines).ok()?.wrong()?;
    if wrong.owed != Reply::NoRoom {
        return None;
    }
    let enough = least_room(alloc, &decl, &journal.lines, wrong.line as usize).ok()??;
    Some(FullJournal {
        line: wrong.line.saturating_add(if is_named { 2 } else { 1 }),
        room,
        is_named,
        enough,
    })
}
