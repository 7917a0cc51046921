//! Texts on both sides of each limit.

use super::{SLOT, expect, put, put_number};
use path_lex::DeclFault;
use std::alloc::Global;
use std::process::Abort;

// A front, a piece repeated this many times, and a back.
pub(super) fn repeated(
    rt: &impl Abort,
    heap: Global,
    front: &str,
    piece: &str,
    times: u32,
    back: &str,
) -> String {
    let mut text = String::new(heap);
    put(rt, &mut text, front);
    for _time in 0..times {
        put(rt, &mut text, piece);
    }
    put(rt, &mut text, back);
    text
}

/// A front, a piece, how often it is repeated, a back, and the fault of the text, if it has one.
type Repeated<'a> = (&'a str, &'a str, u32, &'a str, Option<DeclFault>);

const REPEATED: &[Repeated<'static>] = &[
    // The longest word.
    ("resource ", "x", 32, "", Some(DeclFault::Unexpected(41))),
    ("resource ", "x", 33, "", Some(DeclFault::WordTooLong(9))),
    // The longest text.
    (SLOT, " ", 65_536 - 74, "", None),
    (SLOT, " ", 65_536 - 74, "_", Some(DeclFault::TooLong)),
    // The most paths.
    (
        "resource r cell operation a ",
        "path a end ",
        256,
        "end",
        None,
    ),
    (
        "resource r cell operation a ",
        "path a end ",
        257,
        "end",
        Some(DeclFault::TooMany(2844)),
    ),
    // The tree of a path with very many names isn't deep.
    (
        "resource r cell operation a path a",
        ";a",
        20_000,
        " end end",
        Some(DeclFault::RepeatedName(35)),
    ),
];

// Checks that each of these texts has the fault of its row, or none.
fn expect_repeated(rt: &impl Abort, heap: Global, rows: &[Repeated<'_>]) {
    for (front, piece, times, back, want) in rows {
        let text = repeated(rt, heap, front, piece, *times, back);
        expect(rt, heap, &text, *want);
    }
}

#[test]
fn repetitions(rt: HostRuntime) {
    expect_repeated(&rt, rt.alloc(), REPEATED);
}

// Checks that a path inside `depth` parentheses has this fault, or none.
fn nested(rt: &impl Abort, heap: Global, depth: u32, want: Option<DeclFault>) {
    let front = "resource r cell operation a path ";
    let open = repeated(rt, heap, front, "(", depth, "a");
    let text = repeated(rt, heap, &open, ")", depth, " end end");
    expect(rt, heap, &text, want);
}

#[test]
fn depth(rt: HostRuntime) {
    nested(&rt, rt.alloc(), 32, None);
    nested(&rt, rt.alloc(), 33, Some(DeclFault::TooDeep(65)));
}

// Appends this many different names, with a sign after each except the last.
pub(super) fn put_names(rt: &impl Abort, text: &mut String, sign: &str, times: u32) {
    for number in 0..times {
        put(rt, text, if number > 0 { sign } else { "" });
        put(rt, text, "a");
        put_number(rt, text, number);
    }
}

// Checks that a declaration of `count` operations has this fault, or none.
fn operations(rt: &impl Abort, heap: Global, count: u32, want: Option<DeclFault>) {
    let mut text = String::new(heap);
    put(rt, &mut text, "resource r cell operation ");
    put_names(rt, &mut text, ",", count);
    put(rt, &mut text, " end");
    expect(rt, heap, &text, want);
}

#[test]
fn most_operations(rt: HostRuntime) {
    operations(&rt, rt.alloc(), 256, None);
    operations(&rt, rt.alloc(), 257, Some(DeclFault::TooMany(1196)));
}

// Checks that a path of `count` of 65 operations has this fault, or none.
fn names(rt: &impl Abort, heap: Global, count: u32, want: Option<DeclFault>) {
    let mut text = String::new(heap);
    put(rt, &mut text, "resource r cell operation ");
    put_names(rt, &mut text, ",", 65);
    put(rt, &mut text, " path ");
    put_names(rt, &mut text, ";", count);
    put(rt, &mut text, " end end");
    expect(rt, heap, &text, want);
}

#[test]
fn most_names(rt: HostRuntime) {
    names(&rt, rt.alloc(), 64, None);
    names(&rt, rt.alloc(), 65, Some(DeclFault::TooMany(527)));
}

// Appends as many resources as a file may have, each with an operation.
pub(super) fn put_resources(rt: &impl Abort, text: &mut String) {
    for number in 0..64 {
        put(rt, text, "resource r");
        put_number(rt, text, number);
        put(rt, text, " cell operation a");
        put_number(rt, text, number);
        put(rt, text, " end ");
    }
}

// Checks that as many resources as a file may have, followed by this text, have this fault, or none.
fn after_resources(rt: &impl Abort, heap: Global, back: &str, want: Option<DeclFault>) {
    let mut text = String::new(heap);
    put_resources(rt, &mut text);
    put(rt, &mut text, back);
    expect(rt, heap, &text, want);
}

#[test]
fn most_resources(rt: HostRuntime) {
    after_resources(&rt, rt.alloc(), "", None);
    let fault = Some(DeclFault::TooMany(2293));
    after_resources(&rt, rt.alloc(), "resource r cell operation a end", fault);
}
