//! Journals in which many activations are live.

use crate::tests::audits::verdict::{declared, opened};
use path_audit::{AuditFault, Verdict, audit};
use path_decl::Decl;
use path_model::{ActId, Attempt, Line, OpId, OutOfMemory, Reply};
use std::alloc::Global;
use std::process::Abort;

/// An operation that any number of workers can execute at once.
const READERS: &[u8] = b"resource book cell operation read path { read } end end";

// The line of a worker's start of its own activation.
fn start_of(worker: u32) -> Line {
    Line {
        worker,
        attempt: Attempt::Start(OpId(0)),
        reply: Reply::Started(ActId(u64::from(worker))),
    }
}

// The line of its finish.
fn finish_of(worker: u32) -> Line {
    Line {
        worker,
        attempt: Attempt::Finish(ActId(u64::from(worker))),
        reply: Reply::Finished,
    }
}

// Adds the starts of `count` workers.
fn add_starts(lines: &mut Vec<Line>, count: u32) -> Result<(), OutOfMemory> {
    for worker in 0..count {
        lines.push(start_of(worker))?;
    }
    Ok(())
}

// Adds their finishes, the last started first or in the order of the starts.
fn add_finishes(lines: &mut Vec<Line>, count: u32, last_first: bool) -> Result<(), OutOfMemory> {
    for n in 0..count {
        let worker = if last_first { count - 1 - n } else { n };
        lines.push(finish_of(worker))?;
    }
    Ok(())
}

// The starts of `count` activations and then their finishes.
fn overlapping(heap: Global, count: u32, last_first: bool) -> Result<Vec<Line>, OutOfMemory> {
    let mut lines = Vec::new(heap);
    add_starts(&mut lines, count)?;
    add_finishes(&mut lines, count, last_first)?;
    Ok(lines)
}

// The verdict on these lines in this room.
fn found(
    heap: Global,
    decl: &Decl,
    openings: &[Vec<u64>],
    room: u32,
    lines: &[Line],
) -> Result<Verdict, AuditFault> {
    audit(heap, decl, room, openings, lines)
}

// The verdicts on these lines in a room for them, in a room with one place less, and in a large room with a further finish.
fn judged(
    rt: &impl Abort,
    heap: Global,
    decl: &Decl,
    openings: &[Vec<u64>],
    lines: &mut Vec<Line>,
) -> [Result<Verdict, AuditFault>; 3] {
    let enough = found(heap, decl, openings, 600, lines);
    let too_small = found(heap, decl, openings, 599, lines);
    assert!(rt; lines.push(finish_of(0)).is_ok());
    [enough, too_small, found(heap, decl, openings, 4096, lines)]
}

const JUDGED: [Result<Verdict, AuditFault>; 3] = [
    Ok(Verdict::Sound),
    Ok(Verdict::WrongLine(299)),
    Ok(Verdict::WrongLine(600)),
];

// Checks that the last start needs room for all lines, and that nothing finishes twice.
fn check_rooms(rt: &impl Abort, heap: Global, decl: &Decl, last_first: bool) {
    let openings = opened(rt, heap, &[0]);
    let mut lines = overlapping(heap, 300, last_first).expect(rt, "enough memory");
    let judged = judged(rt, heap, decl, &openings, &mut lines);
    drop(lines);
    drop(openings);
    assert_eq!(rt; judged, JUDGED);
}

#[test]
fn audits_many_live_activations(rt: HostRuntime) {
    let decl = declared(&rt, rt.alloc(), READERS);
    check_rooms(&rt, rt.alloc(), &decl, false);
    check_rooms(&rt, rt.alloc(), &decl, true);
    drop(decl);
}
