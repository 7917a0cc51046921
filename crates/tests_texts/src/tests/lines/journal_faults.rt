//! Texts that are no journals.

use crate::tests::lines::declaration::declared;
use path_decl::Decl;
use path_journal::read_journal;
use path_lines::TextFault;
use std::alloc::Global;
use std::process::Abort;

const DECLARATION: &[u8] =
    b"resource slot cell operation deposit, remove path deposit ; remove end end";

// Why a text is refused, if it is.
fn fault_of(heap: Global, decl: &Decl, text: &str) -> Option<TextFault> {
    read_journal(heap, decl, text.as_bytes()).err()
}

// Checks that each of these texts has a bad first line.
fn check_bad(rt: &impl Abort, heap: Global, decl: &Decl, texts: &[&str]) {
    for text in texts {
        let fault = fault_of(heap, decl, text);
        assert!(rt; fault == Some(TextFault::BadLine(0)), "at {text:?}");
    }
}

/// No line has a second spelling.
const SECOND_SPELLINGS: [&str; 46] = [
    "\n",
    " ",
    "1 start deposit",
    "1 start deposit\n",
    "1 start deposit:",
    "1 start deposit: ",
    "1 start deposit:started 0",
    "1 start deposit:  started 0",
    "1 start deposit : started 0",
    "1 start deposit: started",
    "1 start deposit: started ",
    "1 start deposit: started  0",
    "1 start deposit: started 00",
    "1 start deposit: started 01",
    "1 start deposit: started +1",
    "1 start deposit: started 0 ",
    "1 start deposit: started 0\r",
    "1 start deposit: started 0\r\n",
    "1 start deposit: started 18446744073709551616",
    "1 start deposit: Started 0",
    "1 start deposit: blocked 00",
    "1 start deposit: blocked 4294967296",
    "1 start deposit: used",
    "1 start deposit: used 0x0",
    "1 start deposit: unknown  operation",
    "1 start deposit: unknown",
    "1 start deposit: not yours ",
    "1 start deposit: not",
    "1 start deposit: stale 0",
    "1 start deposit: finished 0",
    "1 start deposit: no room: no room",
    "1 start deposit\n: started 0",
    "1 start deposit: \nstarted 0",
    "1 start\ndeposit: started 0",
    "01 start deposit: started 0",
    "1  start deposit: started 0",
    " 1 start deposit: started 0",
    "4294967296 start deposit: started 0",
    "1 start #0: unknown operation",
    "1 start #01: unknown operation",
    "1 start #4294967296: unknown operation",
    "1 start path: unknown operation",
    "1 use 00 look: used 0",
    "1 finish 0 : finished",
    "%",
    "Journal 2 room 2",
];

/// A first line that begins with `j` is a head, or bad.
const OTHER_HEADS: [&str; 25] = [
    "j",
    "journal",
    "journal 2 room",
    "journal 2 room ",
    "journal 2 room 0",
    "journal 2 room 01",
    "journal 2 room 2 ",
    "journal 2 room 2\r\n",
    "journal 2  room 2",
    "journal 2 room  2",
    "journal 02 room 2",
    "journal 1 room 2",
    "journal 3 room 2",
    "journal 2 room 1048577",
    "journal 2 room 18446744073709551616",
    "journal 2 room #2",
    "journal 2 Room 2",
    "journal 2 room 2: started 0",
    "j\n1 start deposit: started 0\n",
    "journal 2 room 0\n1 start deposit: started 0\n",
    "journal 3 room 0\n",
    "journal 3 room 1048577\n",
    "journal 3 room 2 \n",
    "journal 4 room 2\n",
    "+1 start deposit: started 0\n",
];

// Checks that each text is refused with the fault of its row.
fn check_refused(rt: &impl Abort, heap: Global, decl: &Decl, rows: &[(&str, TextFault)]) {
    for (text, want) in rows {
        assert!(rt; fault_of(heap, decl, text) == Some(*want), "at {text:?}");
    }
}

/// The first faulty line is named, and the head counts as a line.
const FAULTY: [(&str, TextFault); 26] = [
    ("1 start deposit: started 0\n\n", TextFault::BadLine(1)),
    (
        "1 start deposit: started 0\n1 start x: started 1\n\n",
        TextFault::Undeclared(1),
    ),
    ("1 start x: started 0", TextFault::Undeclared(0)),
    ("1 start x: started", TextFault::BadLine(0)),
    ("1 start x", TextFault::BadLine(0)),
    ("1 start x: no room\n%", TextFault::Undeclared(0)),
    ("1 start Deposit: blocked 0", TextFault::Undeclared(0)),
    (
        "1 start abcdefghijklmnopqrstuvwxyzabcdef: stale",
        TextFault::Undeclared(0),
    ),
    (
        "1 start abcdefghijklmnopqrstuvwxyzabcdefg: stale",
        TextFault::BadLine(0),
    ),
    ("1 start queue: stale", TextFault::BadLine(0)),
    ("1 start x\n: started 0", TextFault::BadLine(0)),
    ("journal 2 room 2\n\n", TextFault::BadLine(1)),
    (
        "journal 2 room 2\njournal 2 room 2\n",
        TextFault::BadLine(1),
    ),
    (
        "journal 2 room 2\n1 start x: started 0\n",
        TextFault::Undeclared(1),
    ),
    (
        "journal 2 room 2\n1 start deposit: started 0\n1 finish 0: finished \n",
        TextFault::BadLine(2),
    ),
    (
        "1 start deposit: started 0\njournal 2 room 2\n",
        TextFault::BadLine(1),
    ),
    (
        "1 start deposit: started 0\n+1 finish 0: finished\n",
        TextFault::BadLine(1),
    ),
    (
        "journal 2 room 2\n+1 start deposit: started 0\n",
        TextFault::BadLine(1),
    ),
    (
        "journal 3 room 2\n1 start deposit: started 0",
        TextFault::BadLine(1),
    ),
    (
        "journal 3 room 2\n1 start deposit: started 0\n+1 finish 0: finished",
        TextFault::BadLine(2),
    ),
    (
        "journal 3 room 2\n1 start deposit: started 0\n\n",
        TextFault::BadLine(2),
    ),
    (
        "journal 3 room 2\n1 start deposit: started 0\n1 fin\n1 finish 0: finished\n",
        TextFault::BadLine(2),
    ),
    (
        "journal 3 room 2\n++1 start deposit: started 0\n",
        TextFault::BadLine(1),
    ),
    (
        "journal 3 room 2\n+1 start x: started 0\n",
        TextFault::Undeclared(1),
    ),
    (
        "journal 3 room 2\n1 start deposit: started 0\n1 start x: started 0\n%",
        TextFault::Undeclared(2),
    ),
    (
        "journal 3 room 2\n1 start x: started 0",
        TextFault::BadLine(1),
    ),
];

#[test]
fn refuses_other_spellings(rt: HostRuntime) {
    let decl = declared(&rt, rt.alloc(), DECLARATION);
    check_bad(&rt, rt.alloc(), &decl, &SECOND_SPELLINGS);
    check_bad(&rt, rt.alloc(), &decl, &OTHER_HEADS);
    drop(decl);
}

#[test]
fn names_the_first_faulty_line(rt: HostRuntime) {
    let decl = declared(&rt, rt.alloc(), DECLARATION);
    check_refused(&rt, rt.alloc(), &decl, &FAULTY);
    drop(decl);
}
