//! Journals in which one reply was forged.

use crate::tests::resuming::going::{CASES, Case, declared, going, lines_in};
use path_model::{ActId, Line, OutOfMemory, PathId, Reply};
use path_shelf::Device;
use path_system::{ResumeFault, TakeFault};
use std::alloc::Global;
use std::process::Abort;
use test_support::WITHOUT_NUMBER;

/// Replies that bring a number.
const NUMBERED: [Reply; 6] = [
    Reply::Started(ActId(0)),
    Reply::Started(ActId(8)),
    Reply::Blocked(PathId(0)),
    Reply::Blocked(PathId(8)),
    Reply::Used(0),
    Reply::Used(8),
];

// The lines, with this reply in line `number`.
fn with_reply(
    heap: Global,
    lines: &[Line],
    number: usize,
    reply: Reply,
) -> Result<Vec<Line>, OutOfMemory> {
    let mut forged = Vec::new(heap);
    for (n, line) in lines.iter().enumerate() {
        let reply = if n == number { reply } else { line.reply };
        forged.push(Line { reply, ..*line })?;
    }
    Ok(forged)
}

// The reply that is owed to a line instead of its own, if the journal tells this and should tell that; `None` if both are right: a device
// may fail wherever it would serve.
fn owed_instead(told: Reply, forged: Reply) -> Option<Reply> {
    match (told, forged) {
        (Reply::Used(_), Reply::DeviceFailed) => None,
        (Reply::DeviceFailed, _) => None,
        _ if told == forged => None,
        _ => Some(told),
    }
}

// Whether this line was refused, since that reply is owed.
fn tells(fault: ResumeFault, number: usize, owed: Reply) -> bool {
    match fault {
        ResumeFault::Line(line, TakeFault::NotOwed(reply)) => {
            line as usize == number && reply == owed
        }
        _ => false,
    }
}

// Checks that no system goes on behind these lines, of which this one tells another reply than is owed.
fn refused(
    rt: &impl Abort,
    heap: Global,
    case: Case<'_>,
    forged: &[Line],
    number: usize,
    owed: Reply,
) {
    match going(rt, heap, case, forged) {
        Ok(system) => {
            drop(system);
            panic!(rt; "line {number} was taken");
        }
        Err((fault, devices)) => {
            assert!(rt; tells(fault, number, owed));
            assert!(rt; devices.len() == 1);
            drop(devices);
        }
    }
}

// Checks each of these replies in one line.
fn check_line(
    rt: &impl Abort,
    heap: Global,
    case: Case<'_>,
    lines: &[Line],
    number: usize,
    replies: &[Reply],
) {
    let told = lines.get(number).expect(rt, "there is such a line").reply;
    for reply in replies {
        if let Some(owed) = owed_instead(told, *reply) {
            let forged = with_reply(heap, lines, number, *reply).expect(rt, "enough memory");
            refused(rt, heap, case, &forged, number, owed);
            drop(forged);
        }
    }
}

// Checks forged replies in each line of a case.
fn check_case(rt: &impl Abort, heap: Global, case: Case<'_>) {
    let decl = declared(rt, heap, case.0);
    let lines = lines_in(rt, heap, &decl, case.2);
    drop(decl);
    for number in 0..lines.len() {
        check_line(rt, heap, case, &lines, number, &NUMBERED);
        check_line(rt, heap, case, &lines, number, &WITHOUT_NUMBER);
    }
    drop(lines);
}

#[test]
fn refuses_each_forged_line(rt: HostRuntime) {
    for case in CASES {
        check_case(&rt, rt.alloc(), case);
    }
}
