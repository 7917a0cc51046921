//! How far lines are read that are at fault.

use crate::tests::lines::declaration::declared;
use path_decl::Decl;
use path_journal::stop_in;
use path_lines::{
    LineFault, REPLIES, Stop, Wanted, after, end, first_entry, keyword, last, number_to, spelled,
    stop_at, word,
};
use std::process::Abort;

const DECLARATION: &[u8] = b"resource slot cell operation deposit, remove end";

/// The first line of a journal of version 2.
const HEAD: &[u8] = b"journal 2 room 9";

/// The first line of a journal of version 3.
const KEPT_HEAD: &[u8] = b"journal 3 room 9";

/// What is told of a line: its fault, how many of its bytes are left, and what could stand there.
type Row<'a> = (&'a str, LineFault, usize, Wanted);

/// What a line is.
#[derive(Clone, Copy, Debug, PartialEq, Eq)]
enum Kind {
    Attempt,
    Record,
    Kept,
}

// Where a line stops being one of this kind, the first of its text, or the second behind the head of version 3.
fn stop_of(decl: &Decl, kind: Kind, line: &str) -> Option<Stop> {
    match kind {
        Kind::Attempt => first_entry(decl, line.as_bytes()).err(),
        Kind::Record => stop_in(decl, line.as_bytes(), 0, line.as_bytes()),
        Kind::Kept => stop_in(decl, KEPT_HEAD, 1, line.as_bytes()),
    }
}

// Checks where each line stops being one of this kind.
fn check(rt: &impl Abort, decl: &Decl, kind: Kind, rows: &[Row<'_>]) {
    for (line, fault, left, wanted) in rows {
        let want = Stop {
            fault: *fault,
            left: *left,
            wanted: *wanted,
        };
        assert!(rt; stop_of(decl, kind, line) == Some(want), "at {line}");
    }
}

const ATTEMPTS: [Row<'static>; 11] = [
    ("4294967296 finish 0", LineFault::Bad, 19, Wanted::Worker),
    ("1\tfinish 0", LineFault::Bad, 9, Wanted::Space),
    ("1 finished 0", LineFault::Bad, 10, Wanted::Attempt),
    ("1 finish\t0", LineFault::Bad, 2, Wanted::Space),
    ("1 finish x", LineFault::Bad, 1, Wanted::Activation),
    ("1 finish 0 ", LineFault::Bad, 1, Wanted::End),
    ("1 use 0 lookup", LineFault::Bad, 6, Wanted::Verb),
    ("1 use 0 put -1", LineFault::Bad, 2, Wanted::Value),
    ("1 start #0", LineFault::Bad, 2, Wanted::Operation),
    ("1 start steal", LineFault::Undeclared, 5, Wanted::Operation),
    ("1 start remove it", LineFault::Bad, 3, Wanted::End),
];

#[test]
fn attempts(rt: HostRuntime) {
    let decl = declared(&rt, rt.alloc(), DECLARATION);
    check(&rt, &decl, Kind::Attempt, &ATTEMPTS);
    drop(decl);
}

const RECORDS: [Row<'static>; 14] = [
    ("1 finish 0", LineFault::Bad, 0, Wanted::Colon),
    ("1 finish 0 : stale", LineFault::Bad, 8, Wanted::Colon),
    ("1 finish 0:stale", LineFault::Bad, 6, Wanted::Colon),
    ("1 finish 0: stall", LineFault::Bad, 5, Wanted::Reply),
    ("1 finish 0: stale!", LineFault::Bad, 1, Wanted::End),
    (
        "1 start remove: blocked 4294967296",
        LineFault::Bad,
        10,
        Wanted::ReplyNumber,
    ),
    ("1 start remove: started", LineFault::Bad, 0, Wanted::Space),
    (
        "1 start steal: stale",
        LineFault::Undeclared,
        12,
        Wanted::Operation,
    ),
    (
        "1 start steal: stall",
        LineFault::Bad,
        12,
        Wanted::Operation,
    ),
    ("journal 2 room 0", LineFault::Bad, 1, Wanted::Head),
    ("journal 3 room 0", LineFault::Bad, 1, Wanted::Head),
    ("journal 3 rooms 9", LineFault::Bad, 17, Wanted::Head),
    ("journal 4 room 9", LineFault::Bad, 16, Wanted::Head),
    ("+1 finish 0: stale", LineFault::Bad, 18, Wanted::Worker),
];

const KEPT: [Row<'static>; 5] = [
    ("+1 finish 0: stall", LineFault::Bad, 5, Wanted::Reply),
    ("1 finish 0: stall", LineFault::Bad, 5, Wanted::Reply),
    ("++1 finish 0: stale", LineFault::Bad, 18, Wanted::Worker),
    (
        "+1 start steal: stale",
        LineFault::Undeclared,
        12,
        Wanted::Operation,
    ),
    ("journal 3 room 9", LineFault::Bad, 16, Wanted::Worker),
];

#[test]
fn records(rt: HostRuntime) {
    let decl = declared(&rt, rt.alloc(), DECLARATION);
    check(&rt, &decl, Kind::Record, &RECORDS);
    check(&rt, &decl, Kind::Kept, &KEPT);
    let is_right = stop_in(&decl, HEAD, 0, HEAD).is_none()
        && stop_in(&decl, HEAD, 1, HEAD).is_some()
        && stop_in(&decl, HEAD, 1, b"1 start remove: blocked 4294967295").is_none()
        && stop_in(&decl, KEPT_HEAD, 0, KEPT_HEAD).is_none()
        && stop_in(&decl, KEPT_HEAD, 1, b"+1 start remove: blocked 4294967295").is_none();
    drop(decl);
    assert!(rt; is_right);
}

// Whether the readers that others are made of read these beginnings, and stop at these.
fn are_read(text: &[u8]) -> bool {
    word(text) == (b"take_2#".as_slice(), b" 18".as_slice())
        && keyword(text, b"take").is_none()
        && keyword(text, b"take_2#") == Some(b" 18".as_slice())
        && after(b" 18", b" ", Wanted::Space) == Ok(b"18".as_slice())
        && after(b"18", b" ", Wanted::Space) == Err(stop_at(b"18", Wanted::Space))
        && number_to(b"18 x", 18, Wanted::Value) == Ok((18, b" x".as_slice()))
        && number_to(b"18 x", 17, Wanted::Value) == Err(stop_at(b"18 x", Wanted::Value))
        && last(b"18\nx", 18, Wanted::Value) == Ok((18, b"\nx".as_slice()))
        && last(b"18 x", 18, Wanted::Value) == Err(stop_at(b" x", Wanted::End))
        && end(b"\n") == Ok(())
        && end(b" ") == Err(stop_at(b" ", Wanted::End))
}

#[test]
fn beginnings(rt: HostRuntime) {
    assert!(rt; are_read(b"take_2# 18"));
}

#[test]
fn each_kind_of_reply_has_its_words(rt: HostRuntime) {
    let numbered = REPLIES
        .iter()
        .filter(|reply| spelled(**reply).1 == Some(0))
        .count();
    let plain = REPLIES
        .iter()
        .filter(|reply| spelled(**reply).1.is_none())
        .count();
    assert!(rt; numbered == 3 && plain == 10);
}
