//! Texts of lines.

use crate::tests::lines::declaration::declared;
use path_decl::Decl;
use path_lines::{push_told, write_line};
use path_model::{ActId, Attempt, Line, OpId, OutOfMemory, PathId, Reply, Verb};
use std::alloc::{Allocator, Global};
use std::process::Abort;
use test_support::{Refusing, refuse_in_turn};

const DECLARATION: &[u8] = b"resource r cell operation a end";

// Whether this line of worker 7 has this text.
fn is_written_so(heap: Global, decl: &Decl, attempt: Attempt, reply: Reply, want: &str) -> bool {
    let line = Line {
        worker: 7,
        attempt,
        reply,
    };
    match write_line(heap, decl, &line) {
        Ok(text) => text.as_str() == want,
        Err(OutOfMemory) => false,
    }
}

// What follows an attempt, with the line feed.
fn told<A: Allocator + Copy>(alloc: A, reply: Reply) -> Result<Vec<u8, A>, OutOfMemory> {
    let mut bytes = Vec::new(alloc);
    push_told(&mut bytes, reply)?;
    Ok(bytes)
}

// Whether this text of a line ends in the text of its reply, without the line feed.
fn ends_in_its_reply(heap: Global, reply: Reply, text: &str) -> bool {
    match told(heap, reply) {
        Ok(mut bytes) => {
            bytes.pop() == Some(b'\n')
                && bytes.as_slice().starts_with(b": ")
                && text.as_bytes().ends_with(bytes.as_slice())
        }
        Err(OutOfMemory) => false,
    }
}

// Checks that each line has this text, and that its reply has the text after the colon.
fn check_written(rt: &impl Abort, heap: Global, decl: &Decl, rows: &[(Attempt, Reply, &str)]) {
    for (attempt, reply, want) in rows {
        let is_written = is_written_so(heap, decl, *attempt, *reply, want);
        assert!(rt;
            is_written && ends_in_its_reply(heap, *reply, want),
            "at {want}"
        );
    }
}

const EACH_REPLY: [(Attempt, Reply, &str); 13] = [
    (
        Attempt::Start(OpId(0)),
        Reply::Started(ActId(12)),
        "7 start a: started 12",
    ),
    (
        Attempt::Start(OpId(0)),
        Reply::Blocked(PathId(3)),
        "7 start a: blocked 3",
    ),
    (
        Attempt::Start(OpId(256)),
        Reply::UnknownOperation,
        "7 start #256: unknown operation",
    ),
    (
        Attempt::Apply(ActId(0), Verb::Put(9)),
        Reply::Full,
        "7 use 0 put 9: full",
    ),
    (
        Attempt::Apply(ActId(0), Verb::Take),
        Reply::Empty,
        "7 use 0 take: empty",
    ),
    (
        Attempt::Apply(ActId(0), Verb::Look),
        Reply::Used(u64::MAX),
        "7 use 0 look: used 18446744073709551615",
    ),
    (
        Attempt::Apply(ActId(0), Verb::Add(1)),
        Reply::Overflow,
        "7 use 0 add 1: overflow",
    ),
    (
        Attempt::Apply(ActId(0), Verb::Add(0)),
        Reply::NotOffered,
        "7 use 0 add 0: not offered",
    ),
    (
        Attempt::Apply(ActId(0), Verb::Look),
        Reply::DeviceFailed,
        "7 use 0 look: device failed",
    ),
    (
        Attempt::Finish(ActId(1)),
        Reply::Finished,
        "7 finish 1: finished",
    ),
    (Attempt::Finish(ActId(1)), Reply::Stale, "7 finish 1: stale"),
    (
        Attempt::Finish(ActId(1)),
        Reply::NotYours,
        "7 finish 1: not yours",
    ),
    (
        Attempt::Finish(ActId(1)),
        Reply::NoRoom,
        "7 finish 1: no room",
    ),
];

#[test]
fn each_reply_has_its_text(rt: HostRuntime) {
    let decl = declared(&rt, rt.alloc(), DECLARATION);
    check_written(&rt, rt.alloc(), &decl, &EACH_REPLY);
    drop(decl);
}

/// The line with the longest numbers.
const LONGEST: Line = Line {
    worker: u32::MAX,
    attempt: Attempt::Apply(ActId(u64::MAX), Verb::Put(u64::MAX)),
    reply: Reply::UnknownOperation,
};

const LONGEST_TEXT: &str =
    "4294967295 use 18446744073709551615 put 18446744073709551615: unknown operation";

// Whether a line has this text.
fn is_text_of<A: Allocator + Copy>(
    alloc: A,
    decl: &Decl,
    line: &Line,
    want: &str,
) -> Result<bool, OutOfMemory> {
    let text = write_line(alloc, decl, line)?;
    let is_so = text.as_str() == want;
    drop(text);
    Ok(is_so)
}

#[test]
fn each_request_of_a_line_is_refused(rt: HostRuntime) {
    let decl = declared(&rt, rt.alloc(), DECLARATION);
    let refused = refuse_in_turn(rt.alloc(), OutOfMemory, |heap: &Refusing<Global>| {
        is_text_of(heap, &decl, &LONGEST, LONGEST_TEXT)
    });
    assert_eq!(rt; refused, Ok(()));
    drop(decl);
}

// Whether a reply has this text.
fn is_told<A: Allocator + Copy>(alloc: A, reply: Reply, want: &[u8]) -> Result<bool, OutOfMemory> {
    let bytes = told(alloc, reply)?;
    let is_so = bytes.as_slice() == want;
    drop(bytes);
    Ok(is_so)
}

#[test]
fn each_request_of_a_reply_is_refused(rt: HostRuntime) {
    let refused = refuse_in_turn(rt.alloc(), OutOfMemory, |heap: &Refusing<Global>| {
        is_told(
            heap,
            Reply::Used(u64::MAX),
            b": used 18446744073709551615\n",
        )
    });
    assert_eq!(rt; refused, Ok(()));
}
