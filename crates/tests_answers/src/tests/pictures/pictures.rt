//! What stands in a picture.

use cmd_picture::{picture_bytes, picture_journal_bytes};
use std::alloc::{Allocator, Global};
use std::process::Abort;
use tell_base::Status;

/// The room of all pictures but one.
pub(crate) const ROOM: u32 = 100;

/// A declaration whose deposits and removals alternate.
pub(crate) const SLOT: &str =
    "resource slot cell operation deposit, remove path deposit ; remove end end";

/// How a call ends: its status, its output, and its standard error.
pub(crate) type Ended = (Status, Vec<u8>, Vec<u8>);

/// Draws attempts.
pub(crate) fn drawn<A: Allocator + Copy>(
    alloc: A,
    heap: Global,
    declaration: &str,
    room: u32,
    attempts: &str,
) -> Ended {
    let mut out = Vec::new(heap);
    let mut err = Vec::new(heap);
    let (declaration, attempts) = (declaration.as_bytes(), attempts.as_bytes());
    let status = picture_bytes(alloc, declaration, room, attempts, &mut out, &mut err);
    (status, out, err)
}

/// Draws a journal.
pub(crate) fn drawn_journal<A: Allocator + Copy>(
    alloc: A,
    heap: Global,
    declaration: &str,
    journal: &str,
) -> Ended {
    let mut out = Vec::new(heap);
    let mut err = Vec::new(heap);
    let (declaration, journal) = (declaration.as_bytes(), journal.as_bytes());
    let status = picture_journal_bytes(alloc, declaration, journal, &mut out, &mut err);
    (status, out, err)
}

// How often a part stands in a text, one behind the other.
fn count(text: &str, part: &str) -> usize {
    text.split(part).count().saturating_sub(1)
}

// Checks that a picture was drawn, and that each part stands in it so often.
fn check_parts(rt: &impl Abort, ended: &Ended, parts: &[(&str, usize)]) {
    let (status, out, err) = ended;
    assert!(rt; *status == Status::Done && err.is_empty());
    let text = std::str::from_utf8(out).expect(rt, "it is UTF-8");
    for (part, often) in parts {
        assert_eq!(rt; count(text, part), *often, "{part}");
    }
}

const ATTEMPTS: &str =
    "1 start deposit\n2 start remove\n1 use 0 put 7\n1 finish 0\n2 start remove\n2 use 1 look\n\
    2 use 0 look\n3 start #9";

/// What stands in the picture of these attempts: a finished bar and a live one, three lanes, a tick with the path's number and one of an
/// undeclared operation, two dots and a ring.
const PARTS: &[(&str, usize)] = &[
    ("class=\"bar\"", 1),
    ("class=\"bar live\"", 1),
    (">worker ", 3),
    ("class=\"tick\"", 2),
    (">0</text>", 1),
    (">?</text>", 1),
    ("class=\"use\"", 2),
    ("class=\"not\"", 1),
    ("<title>line 2: 2 start remove: blocked 0</title>", 1),
    (">deposit</text>", 1),
    (">8 lines</text>", 1),
    ("<svg ", 1),
    ("</svg>\n", 1),
];

#[test]
fn slot(rt: HostRuntime) {
    let ended = drawn(rt.alloc(), rt.alloc(), SLOT, ROOM, ATTEMPTS);
    check_parts(&rt, &ended, PARTS);
}

const JOURNAL: &str =
    "1 start deposit: started 0\n1 start deposit: started 1\n1 finish 5: finished\n";

/// Two bars of one worker, in two rows; a line that finishes what isn't live is left out.
const JOURNAL_PARTS: &[(&str, usize)] = &[
    ("class=\"bar live\"", 2),
    (" y=\"72\"", 1),
    (" y=\"94\"", 1),
    (">3 lines</text>", 1),
    ("class=\"not\"", 0),
];

#[test]
fn a_journal_whose_replies_were_not_owed(rt: HostRuntime) {
    let ended = drawn_journal(rt.alloc(), rt.alloc(), SLOT, JOURNAL);
    check_parts(&rt, &ended, JOURNAL_PARTS);
}

const NO_LINES: &[(&str, usize)] = &[(">0 lines</text>", 1), ("<svg ", 1), (">worker ", 0)];

#[test]
fn no_lines(rt: HostRuntime) {
    let ended = drawn(rt.alloc(), rt.alloc(), SLOT, ROOM, "");
    check_parts(&rt, &ended, NO_LINES);
}

const NO_ROOM: &[(&str, usize)] = &[
    (">1 line</text>", 1),
    ("class=\"tick\"", 1),
    (">room</text>", 1),
    ("<title>line 1: 1 start deposit: no room</title>", 1),
];

#[test]
fn a_start_without_room(rt: HostRuntime) {
    let ended = drawn(rt.alloc(), rt.alloc(), SLOT, 1, "1 start deposit\n");
    check_parts(&rt, &ended, NO_ROOM);
}

// As many stale finishes.
fn finishes(rt: &impl Abort, heap: Global, count: u32) -> String {
    let mut text = String::new(heap);
    for _ in 0..count {
        text.push_str("7 finish 0\n").expect(rt, "there is memory");
    }
    text
}

const MANY: &[(&str, usize)] = &[
    (">the first 2000 of 2001 lines</text>", 1),
    ("class=\"not\"", 2000),
    ("<title>line 2000: ", 1),
    ("<title>line 2001: ", 0),
];

#[test]
fn the_first_two_thousand_lines(rt: HostRuntime) {
    let attempts = finishes(&rt, rt.alloc(), 2001);
    let ended = drawn(rt.alloc(), rt.alloc(), SLOT, ROOM, &attempts);
    check_parts(&rt, &ended, MANY);
}
