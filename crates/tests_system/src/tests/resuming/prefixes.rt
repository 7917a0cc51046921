//! Systems behind each front of a journal.

use crate::tests::resuming::going::{
    CASES, Case, declared, front, going, lines_in, same, says_failed,
};
use path_model::Line;
use path_shelf::Device;
use path_system::System;
use std::alloc::Global;
use std::process::Abort;

// Checks that a system goes on by these lines as the one that wrote them: each is owed, and gets the same reply by a step. What a device
// failed is taken over instead.
fn goes_on<D: Device>(rt: &impl Abort, system: &mut System<D>, lines: &[Line]) {
    for line in lines {
        if says_failed(line.reply) {
            assert!(rt; system.take_over(*line).is_ok());
        } else {
            assert_eq!(rt; system.owed(line.worker, line.attempt), line.reply);
            assert_eq!(rt; system.step(line.worker, line.attempt), line.reply);
        }
    }
}

// Checks the system behind so many lines of a case, and that it goes on by the others.
fn behind(rt: &impl Abort, heap: Global, case: Case<'_>, lines: &[Line], count: usize) {
    match going(rt, heap, case, front(lines, count)) {
        Ok(system) => {
            let mut system = system;
            assert!(rt; same(system.journal(), front(lines, count)));
            if count <= lines.len() {
                goes_on(rt, &mut system, &lines[count..]);
            }
            assert!(rt; same(system.journal(), lines));
            drop(system);
        }
        Err(refusal) => {
            drop(refusal);
            panic!(rt; "line {count} or one before it wasn't taken");
        }
    }
}

// Checks each front of a case.
fn each_front(rt: &impl Abort, heap: Global, case: Case<'_>) {
    let decl = declared(rt, heap, case.0);
    let lines = lines_in(rt, heap, &decl, case.2);
    drop(decl);
    for count in 0..lines.len() {
        behind(rt, heap, case, &lines, count);
    }
    behind(rt, heap, case, &lines, lines.len());
    drop(lines);
}

#[test]
fn goes_on_behind_each_front(rt: HostRuntime) {
    for case in CASES {
        each_front(&rt, rt.alloc(), case);
    }
}
