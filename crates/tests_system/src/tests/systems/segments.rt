//! The lists of lines that rotations give away, audited in order.

use crate::tests::systems::stepping::{SLOT, alone, declared, tried};
use path_audit::{SegmentsVerdict, audit_segments};
use path_decl::Decl;
use path_model::{ActId, Attempt, Line, OpId, Reply};
use path_shelf::Cell;
use path_system::System;
use std::alloc::Global;
use std::process::Abort;

/// The room of each segment.
const TWELVE: u32 = 12;

const DEPOSIT: OpId = OpId(0);

const REMOVE: OpId = OpId(1);

// The slot in a room of 12, over a cell that contains 3.
fn slot(rt: &impl Abort, alloc: Global) -> System<Cell> {
    let decl = declared(rt, alloc, SLOT).expect(rt, "enough memory");
    match tried(alloc, decl, alone(rt, alloc, Cell::new(3)), TWELVE) {
        Ok(system) => system,
        Err(_) => panic!(rt; "it was refused"),
    }
}

// Rotates, and keeps the lines that are given away.
fn rotate(
    rt: &impl Abort,
    alloc: Global,
    system: &mut System<Cell>,
    segments: &mut Vec<Vec<Line>>,
) {
    let places = Vec::with_capacity(alloc, TWELVE as usize).expect(rt, "enough memory");
    match system.rotate(places) {
        Ok(lines) => segments.push(lines).expect(rt, "enough memory"),
        Err(_) => panic!(rt; "there are places for all lines"),
    }
}

// Makes an attempt, if need be after a rotation.
fn attempt(
    rt: &impl Abort,
    alloc: Global,
    system: &mut System<Cell>,
    segments: &mut Vec<Vec<Line>>,
    attempt: Attempt,
) {
    if system.step(1, attempt) == Reply::NoRoom {
        rotate(rt, alloc, system, segments);
        assert!(rt; system.step(1, attempt) != Reply::NoRoom);
    }
}

// The segments of 10,000 attempts.
fn ten_thousand(rt: &impl Abort, alloc: Global) -> Vec<Vec<Line>> {
    let mut system = slot(rt, alloc);
    let mut segments = Vec::new(alloc);
    for number in 0..5000u64 {
        let op = if number % 2 == 0 { DEPOSIT } else { REMOVE };
        attempt(rt, alloc, &mut system, &mut segments, Attempt::Start(op));
        attempt(
            rt,
            alloc,
            &mut system,
            &mut segments,
            Attempt::Finish(ActId(number)),
        );
    }
    rotate(rt, alloc, &mut system, &mut segments);
    drop(system);
    segments
}

// The verdict on these segments of the slot.
fn verdict(rt: &impl Abort, alloc: Global, decl: &Decl, segments: &[Vec<Line>]) -> SegmentsVerdict {
    let mut numbers = Vec::new(alloc);
    numbers.push(3u64).expect(rt, "enough memory");
    let mut openings = Vec::new(alloc);
    openings.push(numbers).expect(rt, "enough memory");
    audit_segments(alloc, decl, TWELVE, &openings, segments).expect(rt, "it can be audited")
}

// Puts this reply in place of that of the segment's first line, which it returns.
fn replied(rt: &impl Abort, segments: &mut [Vec<Line>], segment: usize, reply: Reply) -> Reply {
    match segments.get_mut(segment) {
        Some(lines) => match lines.first_mut() {
            Some(line) => std::mem::replace(&mut line.reply, reply),
            None => panic!(rt; "it has a line"),
        },
        None => panic!(rt; "there is such a segment"),
    }
}

#[test]
fn a_line_changed_in_any_segment_is_named(rt: HostRuntime) {
    let decl = declared(&rt, rt.alloc(), SLOT).expect(&rt, "enough memory");
    let mut segments = ten_thousand(&rt, rt.alloc());
    assert_eq!(rt;
        verdict(&rt, rt.alloc(), &decl, &segments),
        SegmentsVerdict::Sound
    );
    for segment in 0..segments.len() {
        let reply = replied(&rt, &mut segments, segment, Reply::NotYours);
        assert_eq!(rt;
            verdict(&rt, rt.alloc(), &decl, &segments),
            SegmentsVerdict::WrongLine { segment, line: 0 }
        );
        let _ = replied(&rt, &mut segments, segment, reply);
    }
    drop(segments);
    drop(decl);
}
