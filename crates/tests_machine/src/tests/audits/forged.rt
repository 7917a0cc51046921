//! Journals in which one reply was forged.

use crate::tests::audits::verdict::{DEPOSITED, SLOT, declared, opened};
use path_audit::{AuditFault, Verdict, audit};
use path_decl::Decl;
use path_journal::read_journal;
use path_model::{ActId, Line, OutOfMemory, PathId, Reply};
use std::alloc::Global;
use std::process::Abort;
use test_support::WITHOUT_NUMBER;

/// Each reply that brings a number, with three numbers.
const NUMBERED: [Reply; 9] = [
    Reply::Started(ActId(0)),
    Reply::Started(ActId(1)),
    Reply::Started(ActId(8)),
    Reply::Blocked(PathId(0)),
    Reply::Blocked(PathId(1)),
    Reply::Blocked(PathId(8)),
    Reply::Used(0),
    Reply::Used(1),
    Reply::Used(8),
];

// The lines, with this reply in line `number`.
fn with_reply(
    heap: Global,
    lines: &[Line],
    number: u32,
    reply: Reply,
) -> Result<Vec<Line>, OutOfMemory> {
    let mut forged = Vec::new(heap);
    for (n, line) in lines.iter().enumerate() {
        let reply = if n == number as usize {
            reply
        } else {
            line.reply
        };
        forged.push(Line { reply, ..*line })?;
    }
    Ok(forged)
}

// The verdict if line `number` of the deposit and its removal has this reply instead of its own: that line is wrong. But a device
// that failed to put leaves the 0, so the last line is wrong; and if it failed to look, nothing is wrong.
fn wanted(told: Reply, number: u32, reply: Reply) -> Verdict {
    if told == reply {
        return Verdict::Sound;
    }
    match (number, reply) {
        (2, Reply::DeviceFailed) => Verdict::WrongLine(5),
        (5, Reply::DeviceFailed) => Verdict::Sound,
        _ => Verdict::WrongLine(number),
    }
}

// The verdict on these lines of the slot.
fn found(
    heap: Global,
    decl: &Decl,
    openings: &[Vec<u64>],
    lines: &[Line],
) -> Result<Verdict, AuditFault> {
    audit(heap, decl, 4096, openings, lines)
}

// The verdict if one of these lines has this reply.
fn found_with(
    heap: Global,
    decl: &Decl,
    openings: &[Vec<u64>],
    lines: &[Line],
    number: u32,
    reply: Reply,
) -> Result<Verdict, AuditFault> {
    match with_reply(heap, lines, number, reply) {
        Ok(forged) => {
            let found = found(heap, decl, openings, &forged);
            drop(forged);
            found
        }
        Err(OutOfMemory) => Err(AuditFault::OutOfMemory),
    }
}

// Checks the verdict for each of these replies in one line.
fn check_line(
    rt: &impl Abort,
    heap: Global,
    decl: &Decl,
    openings: &[Vec<u64>],
    lines: &[Line],
    number: u32,
    replies: &[Reply],
) {
    let told = lines
        .get(number as usize)
        .expect(rt, "there is such a line")
        .reply;
    for reply in replies {
        let found = found_with(heap, decl, openings, lines, number, *reply);
        let want = Ok(wanted(told, number, *reply));
        assert!(rt; found == want, "line {number}: {reply:?}");
    }
}

// Checks the verdict for each of these replies in each of the first six lines.
fn check_each_line(
    rt: &impl Abort,
    heap: Global,
    decl: &Decl,
    openings: &[Vec<u64>],
    lines: &[Line],
    replies: &[Reply],
) {
    for number in 0..6u32 {
        check_line(rt, heap, decl, openings, lines, number, replies);
    }
}

// Checks the verdict for each of these replies in each of the first six lines of a text, if the one resource opens with 0.
fn check_text(rt: &impl Abort, heap: Global, decl: &Decl, text: &str, replies: &[Reply]) {
    let openings = opened(rt, heap, &[0]);
    let journal = read_journal(heap, decl, text.as_bytes()).expect(rt, "it is a journal");
    check_each_line(rt, heap, decl, &openings, &journal.lines, replies);
    drop(journal);
    drop(openings);
}

#[test]
fn finds_each_forged_reply(rt: HostRuntime) {
    let decl = declared(&rt, rt.alloc(), SLOT);
    check_text(&rt, rt.alloc(), &decl, DEPOSITED, &NUMBERED);
    check_text(&rt, rt.alloc(), &decl, DEPOSITED, &WITHOUT_NUMBER);
    drop(decl);
}
