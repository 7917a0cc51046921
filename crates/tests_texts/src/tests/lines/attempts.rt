//! Texts of attempts.

use crate::tests::lines::declaration::declared;
use path_decl::Decl;
use path_lines::{
    FirstLine, LineFault, TextFault, fault_at, first_entry, read_attempts, write_line,
};
use path_model::{ActId, Attempt, Line, OpId, OutOfMemory, Reply, Verb};
use std::alloc::{Allocator, Global};
use std::process::Abort;
use test_support::{Refusing, count_refusals};

const DECLARATION: &[u8] = b"resource r cell operation a, b path a ; b end end";

/// The content of a text of attempts: each attempt with its worker.
type Told<'a> = Result<&'a [(u32, Attempt)], TextFault>;

// Whether a text has this content.
fn tells(heap: Global, decl: &Decl, text: &str, want: Told) -> bool {
    match read_attempts(heap, decl, text.as_bytes()) {
        Ok(entries) => want == Ok(entries.as_slice()),
        Err(fault) => want == Err(fault),
    }
}

// Checks that each text has the content of its row.
fn check_all(rt: &impl Abort, heap: Global, decl: &Decl, rows: &[(&str, Told)]) {
    for (text, want) in rows {
        assert!(rt; tells(heap, decl, text, *want), "at {text:?}");
    }
}

/// Each form; texts without their last line feed; and texts with a line that isn't an attempt, of which the first is named.
const TEXTS: [(&str, Told<'static>); 8] = [
    (
        "0 start b\n1 use 2 put 3\n4 use 5 take\n6 use 7 look\n8 use 9 add 10\n11 finish 12",
        Ok(&[
            (0, Attempt::Start(OpId(1))),
            (1, Attempt::Apply(ActId(2), Verb::Put(3))),
            (4, Attempt::Apply(ActId(5), Verb::Take)),
            (6, Attempt::Apply(ActId(7), Verb::Look)),
            (8, Attempt::Apply(ActId(9), Verb::Add(10))),
            (11, Attempt::Finish(ActId(12))),
        ]),
    ),
    ("", Ok(&[])),
    ("1 start #2", Ok(&[(1, Attempt::Start(OpId(2)))])),
    ("1 start #2\n", Ok(&[(1, Attempt::Start(OpId(2)))])),
    ("1 start a\n\n", Err(TextFault::BadLine(1))),
    (
        "1 start a\n1 start c\n1 start #0\n",
        Err(TextFault::Undeclared(1)),
    ),
    (
        "1 start a\n1 start #2\n1 start #1",
        Err(TextFault::BadLine(2)),
    ),
    ("\n", Err(TextFault::BadLine(0))),
];

#[test]
fn reads_attempts(rt: HostRuntime) {
    let decl = declared(&rt, rt.alloc(), DECLARATION);
    check_all(&rt, rt.alloc(), &decl, &TEXTS);
    drop(decl);
}

// The attempt in the first line of a text.
fn first_line(decl: &Decl, text: &str) -> Result<FirstLine, LineFault> {
    first_entry(decl, text.as_bytes()).map_err(|stop| stop.fault)
}

// Checks the first line of each text: the worker, the attempt, and its length.
fn check_first_lines(rt: &impl Abort, decl: &Decl, rows: &[(&str, u32, Attempt, usize)]) {
    for (text, worker, attempt, length) in rows {
        let want = FirstLine {
            worker: *worker,
            attempt: *attempt,
            length: *length,
        };
        assert!(rt; first_line(decl, text) == Ok(want), "at {text}");
    }
}

const FIRST_LINES: [(&str, u32, Attempt, usize); 9] = [
    ("1 start b\n2 start a\n", 1, Attempt::Start(OpId(1)), 9),
    ("4294967295 start #2", u32::MAX, Attempt::Start(OpId(2)), 19),
    ("1 start #256\n", 1, Attempt::Start(OpId(256)), 12),
    (
        "1 start #4294967295\nx",
        1,
        Attempt::Start(OpId(u32::MAX)),
        19,
    ),
    (
        "0 use 0 put 0\n",
        0,
        Attempt::Apply(ActId(0), Verb::Put(0)),
        13,
    ),
    (
        "0 use 1 take\n\n",
        0,
        Attempt::Apply(ActId(1), Verb::Take),
        12,
    ),
    ("0 use 1 look", 0, Attempt::Apply(ActId(1), Verb::Look), 12),
    (
        "0 use 18446744073709551615 add 18446744073709551615\n",
        0,
        Attempt::Apply(ActId(u64::MAX), Verb::Add(u64::MAX)),
        51,
    ),
    ("7 finish 10\n", 7, Attempt::Finish(ActId(10)), 11),
];

// Checks that the first line of each text has this fault.
fn check_first_faults(rt: &impl Abort, decl: &Decl, texts: &[&str], want: LineFault) {
    for text in texts {
        assert!(rt; first_line(decl, text) == Err(want), "at {text:?}");
    }
}

/// The first line of each of these isn't an attempt. The declaration has the operations 0 and 1.
const BAD: [&str; 41] = [
    "",
    "\n1 start a",
    "1",
    "1 ",
    "1 start",
    "1 start ",
    "1 start  a",
    "1  start a",
    " 1 start a",
    "1 start a ",
    "1 start a\r\n",
    "1 start a b",
    "1 start #",
    "1 start #0",
    "1 start #1",
    "1 start #02",
    "1 start #2 ",
    "1 start ##2",
    "1 start 2",
    "1 start #4294967296",
    "1 start path",
    "1 start abcdefghijklmnopqrstuvwxyzabcdefg",
    "1 start \u{e9}",
    "4294967296 start a",
    "01 start a",
    "x start c",
    "1 Start a",
    "1 use 0",
    "1 use 0 ",
    "1 use 00 look",
    "1 use 0 look ",
    "1 use 0 put",
    "1 use 0 put ",
    "1 use 0 put 01",
    "1 use 0 put 18446744073709551616",
    "1 use 0 drop 1",
    "1 finish",
    "1 finish ",
    "1 finish #0",
    "1 finish 0 ",
    "%",
];

/// The first line of each of these names an operation that isn't declared.
const UNDECLARED: [&str; 4] = [
    "1 start c",
    "1 start c\n1 start a\n",
    "1 start A",
    "1 start abcdefghijklmnopqrstuvwxyzabcdef",
];

/// A line is read without what follows it.
#[test]
fn reads_the_first_line(rt: HostRuntime) {
    let decl = declared(&rt, rt.alloc(), DECLARATION);
    check_first_lines(&rt, &decl, &FIRST_LINES);
    drop(decl);
}

#[test]
fn refuses_a_bad_first_line(rt: HostRuntime) {
    let decl = declared(&rt, rt.alloc(), DECLARATION);
    check_first_faults(&rt, &decl, &BAD, LineFault::Bad);
    check_first_faults(&rt, &decl, &UNDECLARED, LineFault::Undeclared);
    drop(decl);
}

#[test]
fn places_a_fault(rt: HostRuntime) {
    let faults = [
        fault_at(3, LineFault::Bad),
        fault_at(3, LineFault::Undeclared),
    ];
    assert!(rt; faults == [TextFault::BadLine(3), TextFault::Undeclared(3)]);
}

// Whether this attempt, with a reply, is written this way.
fn is_written_so(heap: Global, decl: &Decl, first: FirstLine, want: &str) -> bool {
    let line = Line {
        worker: first.worker,
        attempt: first.attempt,
        reply: Reply::UnknownOperation,
    };
    match write_line(heap, decl, &line) {
        Ok(written) => written.as_str() == want,
        Err(OutOfMemory) => false,
    }
}

// Whether an attempt that is read from this text is written as that text.
fn is_written_back(heap: Global, decl: &Decl, text: &str, want: &str) -> bool {
    match first_line(decl, text) {
        Ok(first) => is_written_so(heap, decl, first, want),
        Err(_) => false,
    }
}

// Checks that the attempt in each text is written as the text of its row.
fn check_written_back(rt: &impl Abort, heap: Global, decl: &Decl, rows: &[(&str, &str)]) {
    for (text, want) in rows {
        assert!(rt; is_written_back(heap, decl, text, want), "at {text}");
    }
}

/// Numbers of operations and activations at the ends of their ranges, and how they are written.
const WRITTEN_BACK: [(&str, &str); 6] = [
    ("1 start #256", "1 start #256: unknown operation"),
    ("1 start #2", "1 start #2: unknown operation"),
    (
        "1 start #4294967295",
        "1 start #4294967295: unknown operation",
    ),
    (
        "4294967295 use 18446744073709551615 look",
        "4294967295 use 18446744073709551615 look: unknown operation",
    ),
    (
        "0 use 18446744073709551615 add 18446744073709551615",
        "0 use 18446744073709551615 add 18446744073709551615: unknown operation",
    ),
    (
        "1 finish 18446744073709551615",
        "1 finish 18446744073709551615: unknown operation",
    ),
];

/// An operation that isn't declared is read by its number, and written by it.
#[test]
fn numbers_are_written_back(rt: HostRuntime) {
    let decl = declared(&rt, rt.alloc(), DECLARATION);
    check_written_back(&rt, rt.alloc(), &decl, &WRITTEN_BACK);
    drop(decl);
}

// Whether a fault has this text.
fn is_spelled_so(heap: Global, fault: TextFault, want: &str) -> bool {
    match format!(in heap; "{fault}") {
        Ok(text) => text.as_str() == want,
        Err(_) => false,
    }
}

fn check_spellings(rt: &impl Abort, heap: Global, rows: &[(TextFault, &str)]) {
    for (fault, want) in rows {
        assert!(rt; is_spelled_so(heap, *fault, want), "at {want}");
    }
}

const SPELLED: [(TextFault, &str); 4] = [
    (TextFault::TooLong, "too long"),
    (TextFault::BadLine(3), "bad line 3"),
    (TextFault::Undeclared(3), "undeclared in line 3"),
    (TextFault::OutOfMemory, "out of memory"),
];

#[test]
fn spells_faults(rt: HostRuntime) {
    check_spellings(&rt, rt.alloc(), &SPELLED);
}

// Whether a text has this many attempts.
fn has_attempts<A: Allocator + Copy>(
    alloc: A,
    decl: &Decl,
    text: &[u8],
    count: usize,
) -> Result<bool, TextFault> {
    let entries = read_attempts(alloc, decl, text)?;
    Ok(entries.len() == count)
}

// Reading a text of two attempts makes one request, and says so if that is refused.
#[test]
fn each_request_of_a_reading_is_refused(rt: HostRuntime) {
    let decl = declared(&rt, rt.alloc(), DECLARATION);
    let refusals = count_refusals(
        rt.alloc(),
        TextFault::OutOfMemory,
        |heap: &Refusing<Global>| has_attempts(heap, &decl, b"1 start a\n2 start b\n", 2),
    );
    drop(decl);
    assert!(rt; refusals == Ok(1));
}
