//! Texts that no editor writes: bytes that aren't UTF-8, zeros, and lines of any length.

use cmd_explain::{FileNames, explain_attempts, explain_declaration, explain_journal};
use std::alloc::Global;
use std::process::Abort;
use tell_base::Status;

/// A declaration whose operation has a name of one letter.
const LETTER: &[u8] = b"resource r cell operation a end";

/// The files of the faults.
const NAMES: FileNames<'static> = FileNames {
    declaration: "decl",
    text: "tries",
};

/// Texts, each refused as a declaration, as attempts and as a journal, and where each is at fault then.
const TEXTS: &[(&[u8], &str, &str, &str)] = &[
    (b"\0", "decl:1:1: ", "tries:1:1: ", "tries:1:1: "),
    (b"\xff\xfe", "decl:1:1: ", "tries:1:1: ", "tries:1:1: "),
    (
        b"\xef\xbb\xbf1 start a",
        "decl:1:1: ",
        "tries:1:1: ",
        "tries:1:1: ",
    ),
    (
        b"1 start \x80: started 0",
        "decl:1:9: ",
        "tries:1:9: ",
        "tries:1:9: ",
    ),
    (
        b"1 start a\0",
        "decl:1:10: ",
        "tries:1:10: ",
        "tries:1:10: ",
    ),
    (b"\x1b[2J", "decl:1:1: ", "tries:1:1: ", "tries:1:1: "),
];

// Checks that a text was refused with this status, that nothing was written, and that the fault begins with this place.
fn check_refused(
    rt: &impl Abort,
    status: Status,
    want: Status,
    out: &[u8],
    err: &[u8],
    place: &str,
) {
    assert!(rt; status == want && out.is_empty(), "at {place}");
    assert!(rt; err.starts_with(place.as_bytes()), "at {place}");
    assert!(rt;
        err.iter().all(|byte| *byte == b'\n' || *byte >= 32),
        "a control byte at {place}"
    );
}

fn check_text(rt: &impl Abort, heap: Global, row: &(&[u8], &str, &str, &str)) {
    let (text, as_declaration, as_attempts, as_journal) = *row;
    let (mut out, mut err) = (Vec::new(heap), Vec::new(heap));
    let status = explain_declaration(heap, text, NAMES, &mut out, &mut err);
    check_refused(
        rt,
        status,
        Status::DeclarationRefused,
        &out,
        &err,
        as_declaration,
    );
    err.clear();
    let status = explain_attempts(heap, LETTER, 9, text, NAMES, &mut out, &mut err);
    check_refused(rt, status, Status::TextRefused, &out, &err, as_attempts);
    err.clear();
    let status = explain_journal(heap, LETTER, 9, text, NAMES, &mut out, &mut err);
    check_refused(rt, status, Status::TextRefused, &out, &err, as_journal);
}

#[test]
fn bytes_that_are_no_text(rt: HostRuntime) {
    for row in TEXTS {
        check_text(&rt, rt.alloc(), row);
    }
}

/// How long the long line is.
const LONG: usize = 100_000;

#[test]
fn a_line_of_any_length(rt: HostRuntime) {
    let heap = rt.alloc();
    let text = Vec::from_elem(heap, b'a', LONG).expect(&rt, "there is memory");
    let (mut out, mut err) = (Vec::new(heap), Vec::new(heap));
    let status = explain_attempts(heap, LETTER, 9, &text, NAMES, &mut out, &mut err);
    check_refused(&rt, status, Status::TextRefused, &out, &err, "tries:1:1: ");
    assert!(&rt; err.len() < 500, "the line is shown in part");
}
