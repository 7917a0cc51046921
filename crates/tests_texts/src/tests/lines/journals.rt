//! Texts of journals.

use crate::tests::lines::declaration::declared;
use path_decl::Decl;
use path_journal::{read_journal, write_head, write_journal};
use path_lines::{TextFault, write_line};
use path_model::{ActId, Attempt, Line, MOST_LINES, OpId, OutOfMemory, PathId, Reply, Verb};
use std::alloc::{Allocator, Global};
use std::process::Abort;
use test_support::{Refusing, WITHOUT_NUMBER, refuse_in_turn};

const DECLARATION: &[u8] =
    b"resource slot cell operation deposit, remove path deposit ; remove end end";

/// Each reply that brings a number, with numbers at both ends of their range.
const NUMBERED: [Reply; 6] = [
    Reply::Started(ActId(0)),
    Reply::Started(ActId(u64::MAX)),
    Reply::Blocked(PathId(0)),
    Reply::Blocked(PathId(u32::MAX)),
    Reply::Used(0),
    Reply::Used(u64::MAX),
];

/// Each attempt, with numbers at both ends of their range.
const ATTEMPTS: [Attempt; 10] = [
    Attempt::Start(OpId(0)),
    Attempt::Start(OpId(1)),
    Attempt::Start(OpId(2)),
    Attempt::Start(OpId(u32::MAX)),
    Attempt::Apply(ActId(0), Verb::Put(u64::MAX)),
    Attempt::Apply(ActId(u64::MAX), Verb::Take),
    Attempt::Apply(ActId(1), Verb::Look),
    Attempt::Apply(ActId(1), Verb::Add(0)),
    Attempt::Finish(ActId(0)),
    Attempt::Finish(ActId(u64::MAX)),
];

// Whether a text is a journal of this room and these lines.
fn is_journal<A: Allocator + Copy>(
    alloc: A,
    decl: &Decl,
    text: &str,
    room: Option<u32>,
    lines: &[Line],
) -> Result<bool, TextFault> {
    let journal = read_journal(alloc, decl, text.as_bytes())?;
    let is_room = journal.room == room;
    let are_lines = journal.lines.as_slice() == lines;
    drop(journal);
    Ok(is_room && are_lines)
}

// Whether the text of a line is a journal of that line.
fn is_read_again(heap: Global, decl: &Decl, line: Line) -> bool {
    match write_line(heap, decl, &line) {
        Ok(text) => is_journal(heap, decl, text.as_str(), None, &[line]) == Ok(true),
        Err(OutOfMemory) => false,
    }
}

// Checks each of these replies after an attempt.
fn check_again(rt: &impl Abort, heap: Global, decl: &Decl, attempt: Attempt, replies: &[Reply]) {
    for reply in replies {
        let line = Line {
            worker: 7,
            attempt,
            reply: *reply,
        };
        assert!(rt; is_read_again(heap, decl, line), "{attempt:?}, {reply:?}");
    }
}

// Checks each of these replies after each of these attempts.
fn check_all_again(
    rt: &impl Abort,
    heap: Global,
    decl: &Decl,
    attempts: &[Attempt],
    replies: &[Reply],
) {
    for attempt in attempts {
        check_again(rt, heap, decl, *attempt, replies);
    }
}

/// What is written is read back, each reply after each attempt.
#[test]
fn reads_what_was_written(rt: HostRuntime) {
    let decl = declared(&rt, rt.alloc(), DECLARATION);
    check_all_again(&rt, rt.alloc(), &decl, &ATTEMPTS, &NUMBERED);
    check_all_again(&rt, rt.alloc(), &decl, &ATTEMPTS, &WITHOUT_NUMBER);
    drop(decl);
}

const LINES: [Line; 2] = [
    Line {
        worker: 1,
        attempt: Attempt::Start(OpId(0)),
        reply: Reply::Started(ActId(0)),
    },
    Line {
        worker: 1,
        attempt: Attempt::Finish(ActId(0)),
        reply: Reply::Finished,
    },
];

// Checks each text with the room that it names, and how many of these lines it has, from the first on.
fn check_texts(
    rt: &impl Abort,
    heap: Global,
    decl: &Decl,
    lines: &[Line],
    rows: &[(&str, Option<u32>, usize)],
) {
    for (text, room, count) in rows {
        let is_read = match lines.get(..*count) {
            Some(front) => is_journal(heap, decl, text, *room, front) == Ok(true),
            None => false,
        };
        assert!(rt; is_read, "at {text}");
    }
}

const VERSIONS: [(&str, Option<u32>, usize); 18] = [
    ("", None, 0),
    ("1 start deposit: started 0", None, 1),
    ("1 start deposit: started 0\n", None, 1),
    ("1 start deposit: started 0\n1 finish 0: finished", None, 2),
    (
        "1 start deposit: started 0\n1 finish 0: finished\n",
        None,
        2,
    ),
    ("journal 2 room 1", Some(1), 0),
    ("journal 2 room 1\n", Some(1), 0),
    ("journal 2 room 1048576\n", Some(1_048_576), 0),
    ("journal 2 room 2\n1 start deposit: started 0", Some(2), 1),
    ("journal 2 room 2\n1 start deposit: started 0\n", Some(2), 1),
    (
        "journal 2 room 2\n1 start deposit: started 0\n1 finish 0: finished",
        Some(2),
        2,
    ),
    (
        "journal 2 room 1\n1 start deposit: started 0\n1 finish 0: finished\n",
        Some(1),
        2,
    ),
    ("journal 3 room 1\n", Some(1), 0),
    ("journal 3 room 1048576\n", Some(1_048_576), 0),
    ("journal 3 room 2\n1 start deposit: started 0\n", Some(2), 1),
    (
        "journal 3 room 2\n+1 start deposit: started 0\n",
        Some(2),
        1,
    ),
    (
        "journal 3 room 2\n1 start deposit: started 0\n+1 finish 0: finished\n",
        Some(2),
        2,
    ),
    (
        "journal 3 room 2\n+1 start deposit: started 0\n1 finish 0: finished\n",
        Some(2),
        2,
    ),
];

#[test]
fn reads_lines_of_each_version(rt: HostRuntime) {
    let decl = declared(&rt, rt.alloc(), DECLARATION);
    check_texts(&rt, rt.alloc(), &decl, &LINES, &VERSIONS);
    drop(decl);
}

// Whether the head of a room has this text.
fn is_head_of<A: Allocator + Copy>(alloc: A, room: u32, want: &str) -> Result<bool, OutOfMemory> {
    if room == 0 || room > MOST_LINES {
        return Ok(false);
    }
    let text = write_head(alloc, room)?;
    let is_so = text.as_str() == want;
    drop(text);
    Ok(is_so)
}

// Whether the head of a room has this text, and this is a journal without lines.
fn has_head(heap: Global, decl: &Decl, room: u32, text: &str) -> bool {
    is_head_of(heap, room, text) == Ok(true)
        && is_journal(heap, decl, text, Some(room), &[]) == Ok(true)
}

fn check_heads(rt: &impl Abort, heap: Global, decl: &Decl, rows: &[(u32, &str)]) {
    for (room, text) in rows {
        assert!(rt; has_head(heap, decl, *room, text), "at {text}");
    }
}

const HEADS: [(u32, &str); 4] = [
    (1, "journal 2 room 1"),
    (2, "journal 2 room 2"),
    (4096, "journal 2 room 4096"),
    (1_048_576, "journal 2 room 1048576"),
];

#[test]
fn each_head_is_read_again(rt: HostRuntime) {
    let decl = declared(&rt, rt.alloc(), DECLARATION);
    check_heads(&rt, rt.alloc(), &decl, &HEADS);
    drop(decl);
}

#[test]
fn each_request_of_a_head_is_refused(rt: HostRuntime) {
    let refused = refuse_in_turn(rt.alloc(), OutOfMemory, |heap: &Refusing<Global>| {
        is_head_of(heap, MOST_LINES, "journal 2 room 1048576")
    });
    assert_eq!(rt; refused, Ok(()));
}

// Refuses each request of reading a text in turn; then these lines must be read.
fn refuse_while_reading(rt: &impl Abort, heap: Global, decl: &Decl, text: &str, room: Option<u32>) {
    let refused = refuse_in_turn(heap, TextFault::OutOfMemory, |heap: &Refusing<Global>| {
        is_journal(heap, decl, text, room, &LINES)
    });
    assert_eq!(rt; refused, Ok(()));
}

#[test]
fn each_request_of_a_journal_is_refused(rt: HostRuntime) {
    let decl = declared(&rt, rt.alloc(), DECLARATION);
    let first = "1 start deposit: started 0\n1 finish 0: finished\n";
    refuse_while_reading(&rt, rt.alloc(), &decl, first, None);
    let second = "journal 2 room 2\n1 start deposit: started 0\n1 finish 0: finished";
    refuse_while_reading(&rt, rt.alloc(), &decl, second, Some(2));
    drop(decl);
}

/// A line that was admitted, and one that wasn't.
const WRITTEN: [Line; 2] = [
    Line {
        worker: 1,
        attempt: Attempt::Start(OpId(0)),
        reply: Reply::Started(ActId(0)),
    },
    Line {
        worker: 2,
        attempt: Attempt::Start(OpId(7)),
        reply: Reply::UnknownOperation,
    },
];

// Whether the journal of these lines has this text.
fn is_written_so<A: Allocator + Copy>(
    alloc: A,
    decl: &Decl,
    room: Option<u32>,
    want: &str,
) -> Result<bool, OutOfMemory> {
    if room == Some(0) || room > Some(MOST_LINES) {
        return Ok(false);
    }
    let text = write_journal(alloc, decl, room, &WRITTEN)?;
    let is_so = text.as_str() == want;
    drop(text);
    Ok(is_so)
}

#[test]
fn writes_journals_of_both_versions(rt: HostRuntime) {
    let decl = declared(&rt, rt.alloc(), DECLARATION);
    let (old, new) = (
        "1 start deposit: started 0\n2 start #7: unknown operation\n",
        "journal 2 room 9\n1 start deposit: started 0\n2 start #7: unknown operation\n",
    );
    assert_eq!(rt; is_written_so(rt.alloc(), &decl, None, old), Ok(true));
    let refused = refuse_in_turn(rt.alloc(), OutOfMemory, |heap: &Refusing<Global>| {
        is_written_so(heap, &decl, Some(9), new)
    });
    assert_eq!(rt; refused, Ok(()));
    drop(decl);
}
